//! Numbers on the command line.
ghost use Rattle.std.specs.Prelude.{◌≡◌, ℕ, ◌≤◌, IfSome, Some};
ghost use Rattle.std.specs.Str.{all_ascii_digits};
ghost use Rattle.pdc_command_line.specs.Number.{IsNumber};

/// Whether each byte is a decimal digit.
fn are_digits(bytes: &[u8]) -> bool
    ensures { result ≡ all_ascii_digits bytes.now }
{
    for byte in bytes {
        if !byte.is_ascii_digit() {
            return false;
        }
    }
    true
}

/// The whole number that the text writes in decimal digits, where it lies from `least` to `most`. A sign is none of
/// these digits; leading zeros are read.
pub fn number(text: &str, least: u32, most: u32) -> Option<u32>
    ensures found { IfSome result (IsNumber text.now) }
    ensures low { IfSome result (λ n. least ≤ n) }
    ensures high { IfSome result (λ n. n ≤ most) }
    ensures only { (n : ℕ) → IsNumber text.now n → least ≤ n → n ≤ most → result ≡ Some n }
{
    if !are_digits(text.as_bytes()) {
        return None;
    }
    let Ok(n) = text.parse::<u32>() else {
        return None;
    };
    if n < least || n > most {
        return None;
    }
    Some(n)
}
