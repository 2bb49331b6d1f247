//! Numbers, appended as text.
ghost use Rattle.std.specs.Prelude.{◌≤◌, ◌<◌, ◌+◌};

use itoa::{Buffer, write_digits};
use std::alloc::{AllocError, Allocator};

/// The bytes of two words with their signs and a byte before each, and more.
const MAX_LEN: usize = 16;

static DIGITS: [u8; 16] = *b"0123456789ABCDEF";

/// Appends a whole number.
///
/// # Errors
///
/// [`AllocError`] where there is no room and none is got.
pub fn append_count<A: Allocator>(out: &mut Vec<u8, A>, count: u64) -> Result<(), AllocError> {
    let mut buffer = Buffer::new();
    out.extend_from_slice(buffer.format(count).as_bytes())
}

/// Writes a number before this place of a text, and returns where it starts.
#[inline(always)]
fn write_number(number: u16, text: &mut [u8; MAX_LEN], end: usize) -> usize
    requires low { 8 ≤ end }
    requires high { end ≤ 16 }
    ensures low { end ≤ result + 5 }
    ensures high { result < end }
{
    write_digits(u64::from(number), text, end)
}

/// Writes a word as a number without a sign, behind a byte, before this place of a text, and returns where it starts.
#[inline(always)]
fn write_word(before: u8, word: u16, text: &mut [u8; MAX_LEN], end: usize) -> usize
    requires low { 8 ≤ end }
    requires high { end ≤ 16 }
    ensures low { end ≤ result + 7 }
    ensures high { result < end }
{
    let start = write_number(word, text, end);
    text[start - 1] = before;
    start - 1
}

/// The same with a sign.
#[inline(always)]
fn write_signed(before: u8, word: u16, text: &mut [u8; MAX_LEN], end: usize) -> usize
    requires low { 8 ≤ end }
    requires high { end ≤ 16 }
    ensures low { end ≤ result + 7 }
    ensures high { result < end }
{
    let value = word.cast_signed();
    let start = write_number(value.unsigned_abs(), text, end);
    if value >= 0 {
        text[start - 1] = before;
        return start - 1;
    }
    text[start - 1] = b'-';
    text[start - 2] = before;
    start - 2
}

/// Appends a word as a number without a sign, behind this byte.
///
/// # Errors
///
/// [`AllocError`] where there is no room and none is got.
pub fn append_word<A: Allocator>(
    out: &mut Vec<u8, A>,
    before: u8,
    word: u16,
) -> Result<(), AllocError> {
    let mut text = [0; MAX_LEN];
    let start = write_word(before, word, &mut text, MAX_LEN);
    out.extend_from_slice(&text[start..])
}

/// Appends a word as a number with a sign, behind this byte.
///
/// # Errors
///
/// [`AllocError`] where there is no room and none is got.
pub fn append_signed<A: Allocator>(
    out: &mut Vec<u8, A>,
    before: u8,
    word: u16,
) -> Result<(), AllocError> {
    let mut text = [0; MAX_LEN];
    let start = write_signed(before, word, &mut text, MAX_LEN);
    out.extend_from_slice(&text[start..])
}

/// Appends the two words of a phasor, behind this byte: `re,im`, or `magnitude@angle` where it is polar.
///
/// # Errors
///
/// [`AllocError`] where there is no room and none is got.
pub fn append_phasor<A: Allocator>(
    out: &mut Vec<u8, A>,
    before: u8,
    first: u16,
    second: u16,
    polar: bool,
) -> Result<(), AllocError> {
    let mut text = [0; MAX_LEN];
    let start = if polar {
        let middle = write_signed(b'@', second, &mut text, MAX_LEN);
        write_word(before, first, &mut text, middle)
    } else {
        let middle = write_signed(b',', second, &mut text, MAX_LEN);
        write_signed(before, first, &mut text, middle)
    };
    out.extend_from_slice(&text[start..])
}

/// Appends a word with four digits in hexadecimal, behind this byte.
///
/// # Errors
///
/// [`AllocError`] where there is no room and none is got.
pub fn append_hex_word<A: Allocator>(
    out: &mut Vec<u8, A>,
    before: u8,
    word: u16,
) -> Result<(), AllocError> {
    let digits = usize::from(word);
    out.extend_from_slice(&[
        before,
        DIGITS[digits / 4096],
        DIGITS[digits / 256 % 16],
        DIGITS[digits / 16 % 16],
        DIGITS[digits % 16],
    ])
}

/// Appends a byte with two digits in hexadecimal, behind this byte.
///
/// # Errors
///
/// [`AllocError`] where there is no room and none is got.
pub fn append_hex_byte<A: Allocator>(
    out: &mut Vec<u8, A>,
    before: u8,
    byte: u8,
) -> Result<(), AllocError> {
    let digits = usize::from(byte);
    out.extend_from_slice(&[before, DIGITS[digits / 16], DIGITS[digits % 16]])
}
