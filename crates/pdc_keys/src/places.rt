//! Places and addresses as values of a document.
ghost use Rattle.std.specs.Prelude.{◌≡◌, IfOk, IfErr, IfSome, IsErrOf, None, Some, option_map};
ghost use Rattle.std.specs.Prelude.{string_bytes};
ghost use Rattle.std.specs.Str.{all_ascii_digits};
ghost use Rattle.std.specs.declared.net.ip_addr.IpAddr.{IpAddr};
ghost use Rattle.toml.specs.View.{view};
ghost use Rattle.pdc_memory.specs.Asking.{SomeWasRefused};
ghost use Rattle.pdc_keys.specs.Places.{IsUnread, WritesIp, as_place, behind_colon, is_place};

use crate::text::text_of;
use crate::unread::Unread;
use std::alloc::Global;
use std::net::IpAddr;
use toml::Value;

/// The address that a value writes.
pub fn ip_of(value: &Value) -> Option<IpAddr>
    ensures some { IfSome result (WritesIp (view value.now)) }
    ensures none { result ≡ None → (ip : IpAddr) → WritesIp (view value.now) ip → ⊥ }
{
    match value.as_str() {
        Some(text) => text.parse::<IpAddr>().ok(),
        None => None,
    }
}

/// What stands behind the last colon.
fn behind_colon(text: &[u8]) -> Option<&[u8]>
    ensures { option_map (λ behind. behind.now) result ≡ behind_colon text.now }
{
    match text.split_first() {
        Some((byte, rest)) => match behind_colon(rest) {
            Some(behind) => Some(behind),
            None => if *byte == b':' { Some(rest) } else { None },
        },
        None => None,
    }
}

/// Whether each byte is a decimal digit.
fn are_all_digits(bytes: &[u8]) -> bool
    ensures { result ≡ all_ascii_digits bytes.now }
{
    for byte in bytes {
        if !byte.is_ascii_digit() {
            return false;
        }
    }
    true
}

/// Whether a text names a place as `HOST:PORT`.
fn is_place(text: &[u8]) -> bool
    ensures { result ≡ is_place text.now }
{
    match behind_colon(text) {
        Some(port) => !port.is_empty() && are_all_digits(port),
        None => false,
    }
}

/// The place that a value names.
///
/// # Errors
///
/// `NoPlace` where it names none; else `NoMemory`, where a request for its text was refused.
pub fn place_of(alloc: Global, value: &Value) -> Result<String, Unread>
    ensures value { IfOk result (λ text. as_place (view value.now) ≡ Some (string_bytes text)) }
    ensures fault { IfErr result (IsUnread (as_place (view value.now) ≡ None)) }
    ensures refused { IsErrOf result Unread.NoMemory → SomeWasRefused }
{
    let Some(text) = value.as_str() else {
        return Err(Unread::NoPlace);
    };
    if !is_place(text.as_bytes()) {
        return Err(Unread::NoPlace);
    }
    text_of(alloc, text).map_err(|_| Unread::NoMemory)
}
