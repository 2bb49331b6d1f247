//! Numbers with a fixed number of decimals, written.
ghost use Rattle.std.specs.Prelude.{◌≡◌, ◌+◌, ◌-◌, ◌<◌, ◌≤◌, ◌++◌, length, take, drop, OnOk};
ghost use Rattle.std.specs.Fmt.{decimal, signed_decimal};
ghost use Rattle.pdc_values.specs.Scaled.{decimals_text, size_text, scaled_text};
ghost use Rattle.pdc_values.specs.declared.scaled.TheConstants.{MAX_LEN, MAX_UNIT};

use itoa::{Buffer, write_digits};
use std::alloc::AllocError;

/// The most parts that one is cut into.
pub const MAX_UNIT: u64 = 1_000_000;

/// The bytes of the longest number, and more: a sign, twenty digits, a point and six digits. Numbers are written in a text of twice as many, so
/// that they end in its middle.
const MAX_LEN: usize = 32;

/// Appends the digits behind a point: so many parts, of which `unit` are one.
///
/// # Errors
///
/// [`AllocError`] where there is no room and none is got.
pub fn append_decimals(parts: u64, unit: u64, out: &mut Vec<u8>) -> Result<(), AllocError>
    requires parts { parts < unit }
    requires low { 10 ≤ unit }
    requires high { unit ≤ MAX_UNIT }
    ensures { OnOk result (out.new.items ≡ out.old.items ++ decimals_text unit parts) }
{
    let mut buffer = Buffer::new();
    let digits = buffer.format(unit + parts).as_bytes();
    out.extend_from_slice(&digits[1..])
}

/// Writes a number that is not negative, so many parts, of which `unit` are one, so that it ends at [`MAX_LEN`], and returns where
/// it starts.
#[inline(always)]
fn write_size(size: u64, unit: u64, text: &mut [u8; 2 * MAX_LEN]) -> usize
    requires low { 10 ≤ unit }
    requires high { unit ≤ MAX_UNIT }
    ensures room { 1 ≤ result }
    ensures start { result + length (size_text unit size) ≡ MAX_LEN }
    ensures written { drop result text.new ≡ size_text unit size ++ drop MAX_LEN text.old }
{
    let point = write_digits(unit + size % unit, text, MAX_LEN);
    text[point] = b'.';
    write_digits(size / unit, text, point)
}

/// Writes a number so that it ends at [`MAX_LEN`], and returns where it starts. A minus is written in any case, and left outside where
/// the number has none: signs come and go, and a branch on them is often guessed wrong.
#[inline(always)]
fn write_scaled(value: i64, unit: u64, text: &mut [u8; 2 * MAX_LEN]) -> usize
    requires low { 10 ≤ unit }
    requires high { unit ≤ MAX_UNIT }
    ensures start { result + length (scaled_text unit value) ≡ MAX_LEN }
    ensures written { drop result text.new ≡ scaled_text unit value ++ drop MAX_LEN text.old }
{
    let start = write_size(value.unsigned_abs(), unit, text);
    text[start - 1] = b'-';
    start - usize::from(value < 0)
}

/// Appends what stands from `start` up to [`MAX_LEN`]. As many bytes as that are copied, however many there are, and the rest is cut off: a
/// copy whose length is known beforehand is two moves and no call.
#[inline(always)]
fn append_written(
    text: &[u8; 2 * MAX_LEN],
    start: usize,
    out: &mut Vec<u8>,
) -> Result<(), AllocError>
    requires { start ≤ MAX_LEN }
    ensures { OnOk result (out.new.items ≡ out.old.items ++
        take (MAX_LEN - start) (drop start text.now)) }
{
    let len = out.len();
    out.extend_from_slice(&text[start..start + MAX_LEN])?;
    out.truncate(len + (MAX_LEN - start));
    Ok(())
}

/// Appends a number: so many parts, of which `unit` are one, a power of ten from 10 to 1000000. It has as many decimals as `unit` has zeros.
///
/// # Errors
///
/// [`AllocError`] where there is no room and none is got.
#[inline(always)]
pub fn append_scaled(value: i64, unit: u64, out: &mut Vec<u8>) -> Result<(), AllocError>
    requires low { 10 ≤ unit }
    requires high { unit ≤ MAX_UNIT }
    ensures { OnOk result (out.new.items ≡ out.old.items ++ scaled_text unit value) }
{
    let mut text = [0; 2 * MAX_LEN];
    let start = write_scaled(value, unit, &mut text);
    append_written(&text, start, out)
}

/// Writes a whole number that is not negative so that it ends at [`MAX_LEN`], and returns where it starts.
#[inline(always)]
fn write_count(count: u64, text: &mut [u8; 2 * MAX_LEN]) -> usize
    ensures room { 1 ≤ result }
    ensures start { result + length (decimal count) ≡ MAX_LEN }
    ensures written { drop result text.new ≡ decimal count ++ drop MAX_LEN text.old }
{
    write_digits(count, text, MAX_LEN)
}

/// Writes a whole number as [`write_scaled`] does.
#[inline(always)]
fn write_whole(value: i64, text: &mut [u8; 2 * MAX_LEN]) -> usize
    ensures start { result + length (signed_decimal value) ≡ MAX_LEN }
    ensures written { drop result text.new ≡ signed_decimal value ++ drop MAX_LEN text.old }
{
    let start = write_count(value.unsigned_abs(), text);
    text[start - 1] = b'-';
    start - usize::from(value < 0)
}

/// Appends a whole number.
///
/// # Errors
///
/// [`AllocError`] where there is no room and none is got.
pub fn append_whole(value: i64, out: &mut Vec<u8>) -> Result<(), AllocError>
    ensures { OnOk result (out.new.items ≡ out.old.items ++ signed_decimal value) }
{
    let mut text = [0; 2 * MAX_LEN];
    let start = write_whole(value, &mut text);
    append_written(&text, start, out)
}

/// Appends a whole number that is not negative.
///
/// # Errors
///
/// [`AllocError`] where there is no room and none is got.
pub fn append_count(count: u64, out: &mut Vec<u8>) -> Result<(), AllocError>
    ensures { OnOk result (out.new.items ≡ out.old.items ++ decimal count) }
{
    let mut text = [0; 2 * MAX_LEN];
    let start = write_count(count, &mut text);
    append_written(&text, start, out)
}
