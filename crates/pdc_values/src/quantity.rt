//! What the words of a block stand for.
ghost use Rattle.std.specs.Prelude.{◌≡◌, ◌<◌, ◌≤◌, ◌^◌, ◌%◌, ◌+ℤ◌, pos, unsigned_abs};
ghost use Rattle.pdc_values.specs.Quantity.{part_of, magnitude_of, frequency_of, analog_of};
ghost use Rattle.pdc_values.specs.Quantity.{signed_of};
ghost use Rattle.pdc_values.specs.declared.quantity.TheConstants.{MAX_FACTOR};

use std::num::saturating_f64_to_i64;

/// The greatest factor of PHUNIT, which has 24 bits.
pub const MAX_FACTOR: u32 = 0x00FF_FFFF;

/// How many parts a volt or an ampere is cut into: PHUNIT counts hundred-thousandths (C37.118.2-2011, table 9).
pub const PART: u64 = 100_000;

/// How many parts a radian is cut into in the angle of a polar phasor (C37.118.2-2011, table 6).
pub const POLAR_ANGLE: u64 = 10_000;

/// How many parts a radian is cut into in an angle that is computed.
pub const ANGLE: u64 = 1_000_000;

/// How many parts a hertz is cut into in FREQ (C37.118.2-2011, table 6).
pub const MILLIHERTZ: u64 = 1000;

/// How many parts a hertz a second is cut into in DFREQ (C37.118.2-2011, table 6).
pub const ROCOF: u64 = 100;

/// A word as a signed number.
pub fn signed(word: u16) -> i64
    ensures value { result ≡ signed_of word }
    ensures small { unsigned_abs result ≤ 32768 }
{
    i64::from(word.cast_signed())
}

/// A real or imaginary part, in hundred-thousandths of a volt or an ampere.
pub fn part(word: u16, factor: u32) -> i64
    requires { factor ≤ MAX_FACTOR }
    ensures { result ≡ part_of word factor }
{
    signed(word) * i64::from(factor)
}

/// The magnitude of a polar phasor, in hundred-thousandths of a volt or an ampere.
pub fn magnitude(word: u16, factor: u32) -> i64
    requires { factor ≤ MAX_FACTOR }
    ensures { result ≡ magnitude_of word factor }
{
    i64::from(word) * i64::from(factor)
}

/// The frequency in thousandths of a hertz, at this nominal frequency in hertz.
pub fn frequency(word: u16, nominal: u16) -> i64
    ensures { result ≡ frequency_of word nominal }
{
    1000 * i64::from(nominal) + signed(word)
}

/// An analog value: the word times a factor.
pub fn analog(word: u16, factor: i32) -> i64
    ensures { result ≡ analog_of word factor }
{
    signed(word) * i64::from(factor)
}

/// The factor that ANUNIT gives: bits 23 to 0, a number with a sign (C37.118.2-2011, table 9). Many PMUs leave it 0, which would hide each
/// value: then it is 1.
pub fn analog_factor(unit: u32) -> i32
    ensures zero { unit % 2 ^ 24 ≡ 0 → result ≡ pos 1 }
    ensures above { 0 < unit % 2 ^ 24 → unit % 2 ^ 24 < 2 ^ 23 → result ≡ pos (unit % 2 ^ 24) }
    ensures below { 2 ^ 23 ≤ unit % 2 ^ 24 → result +ℤ pos (2 ^ 24) ≡ pos (unit % 2 ^ 24) }
{
    let low = (unit % 0x0100_0000) as i32;
    if low == 0 {
        1
    } else if low < 0x0080_0000 {
        low
    } else {
        low - 0x0100_0000
    }
}

/// The factor that PHUNIT gives: bits 23 to 0, hundred-thousandths of a volt or an ampere a count (C37.118.2-2011, table 9).
pub fn phasor_factor(unit: u32) -> u32
    ensures value { result ≡ unit % 2 ^ 24 }
    ensures fits { result ≤ MAX_FACTOR }
{
    unit % 0x0100_0000
}

/// The whole number that is nearest to this one.
fn nearest(x: f64) -> i64 {
    if x < 0.0 {
        saturating_f64_to_i64(x - 0.5)
    } else {
        saturating_f64_to_i64(x + 0.5)
    }
}

/// The length of a rectangular phasor, in hundred-thousandths of a volt or an ampere, rounded to the nearest of them.
pub fn length(real: u16, imaginary: u16, factor: u32) -> i64 {
    let (x, y) = (
        f64::from(real.cast_signed()),
        f64::from(imaginary.cast_signed()),
    );
    nearest((x * x + y * y).sqrt() * f64::from(factor))
}

/// The angle of a rectangular phasor, in millionths of a radian, above -3141593 and up to 3141593.
pub fn angle(real: u16, imaginary: u16) -> i64 {
    let (x, y) = (
        f64::from(real.cast_signed()),
        f64::from(imaginary.cast_signed()),
    );
    nearest(y.atan2(x) * 1_000_000.0)
}

/// The real part of a polar phasor, in hundred-thousandths of a volt or an ampere, rounded to the nearest of them.
pub fn real(magnitude: u16, angle: u16, factor: u32) -> i64 {
    let radians = f64::from(angle.cast_signed()) / 10_000.0;
    nearest(f64::from(magnitude) * f64::from(factor) * radians.cos())
}

/// The imaginary part of a polar phasor, in hundred-thousandths of a volt or an ampere, rounded to the nearest of them.
pub fn imaginary(magnitude: u16, angle: u16, factor: u32) -> i64 {
    let radians = f64::from(angle.cast_signed()) / 10_000.0;
    nearest(f64::from(magnitude) * f64::from(factor) * radians.sin())
}
