//! Bytes in hexadecimal.
ghost use Rattle.std.specs.Prelude.{◌≡◌, ◌/◌, IfOk, OnErr, OnOk, length, option_map, replicate};
ghost use Rattle.std.specs.Io.KnownBytes.{Appends};
ghost use Rattle.hex.specs.Hex.{encode_upper};
ghost use Rattle.pdc_history.specs.pdc_memory.Asking.{WasRefused};
ghost use Rattle.pdc_play.specs.Line.{bytes_of};

use pdc_history::with_room;
use std::alloc::{AllocError, Global};
use std::io;
use std::io::Write;

/// The digits, by their values.
const DIGITS: &[u8; 16] = b"0123456789ABCDEF";

/// So many zeros.
pub fn zeros(alloc: Global, count: usize) -> Result<Vec<u8>, AllocError>
    ensures zeros { IfOk result (λ bytes. bytes.items ≡ replicate count 0) }
    ensures len { IfOk result (λ bytes. length bytes.items ≡ count) }
    ensures refused { OnErr result (WasRefused count) }
{
    let mut bytes = with_room(alloc, count)?;
    for _ in 0..count {
        bytes.push_reserved(0);
    }
    Ok(bytes)
}

/// The bytes that the digits write, in either case; `None` where they are no whole bytes, or there is none.
///
/// # Errors
///
/// [`AllocError`] where a request for them was refused.
pub fn bytes(alloc: Global, digits: &[u8]) -> Result<Option<Vec<u8>>, AllocError>
    ensures value { IfOk result (λ found. option_map (λ bytes. bytes.items) found ≡
        bytes_of digits.now) }
    ensures refused { OnErr result (WasRefused (length digits.now / 2)) }
{
    if digits.is_empty() || digits.len() % 2 != 0 {
        return Ok(None);
    }
    let mut bytes = zeros(alloc, digits.len() / 2)?;
    match hex::decode_to_slice(digits, bytes.as_mut_slice()) {
        Ok(()) => Ok(Some(bytes)),
        Err(_) => Ok(None),
    }
}

/// Writes bytes in hexadecimal, with capital letters.
///
/// # Errors
///
/// What the writer answers.
pub fn write_upper<W: Write>(bytes: &[u8], writer: &mut W) -> io::Result<()>
    ensures { OnOk result (Appends (W.contents writer.old) (W.contents writer.new)
        (encode_upper bytes.now)) }
{
    for byte in bytes {
        let pair = [DIGITS[(*byte / 16) as usize], DIGITS[(*byte % 16) as usize]];
        writer.write_all(&pair)?;
    }
    Ok(())
}
