//! Numbers of scripts.
ghost use Rattle.std.specs.Prelude.{◌≡◌};
ghost use Rattle.pdc_play.specs.Number.{number_of, with_digit};

/// What a digit makes behind a number; `None` where the byte is no digit, or the number would have more than 64 bits.
fn with_digit(n: u64, byte: u8) -> Option<u64>
    ensures { result ≡ with_digit n byte }
{
    if !byte.is_ascii_digit() {
        return None;
    }
    n.checked_mul(10)?.checked_add(u64::from(byte - b'0'))
}

/// The number of at most 64 bits that the text writes in decimal digits.
pub fn number(text: &[u8]) -> Option<u64>
    ensures { result ≡ number_of text.now }
{
    if text.is_empty() {
        return None;
    }
    let mut n = 0;
    for byte in text {
        n = with_digit(n, *byte)?;
    }
    Some(n)
}
