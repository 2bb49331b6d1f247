//! What of a block is written, and how.
ghost use Rattle.std.specs.Prelude.{◌≡◌, ◌+◌, ◌++◌, ℕ, List, Some, true, false, OnOk};
ghost use Rattle.pdc_values.specs.Scaled.{scaled_text};
ghost use Rattle.pdc_values.specs.Quantity.{signed_of, part_of, magnitude_of};
ghost use Rattle.pdc_values.specs.Field.{word_of, exact_text};

use crate::phasor::Phasor;
use crate::quantity::{
    ANGLE, MILLIHERTZ, PART, POLAR_ANGLE, ROCOF, analog, angle, frequency, imaginary, length,
    magnitude, part, real, signed,
};
use crate::scaled::{append_count, append_scaled, append_whole};
use crate::stat_words::append_stat_words;
use std::alloc::AllocError;

/// What of a block is written.
#[derive(Clone, Copy)]
pub enum Field {
    /// STAT as a number.
    Stat,
    /// STAT in words.
    StatWords,
    /// The frequency in hertz.
    Frequency {
        /// Where FREQ stands.
        place: u8,
        /// The nominal frequency in hertz.
        nominal: u16,
    },
    /// The rate of change of frequency, in hertz a second.
    Rocof {
        /// Where DFREQ stands.
        place: u8,
    },
    /// The magnitude of a phasor, in volts or amperes.
    Magnitude(Phasor),
    /// The angle of a phasor, in radians.
    Angle(Phasor),
    /// The real part of a phasor, in volts or amperes.
    Real(Phasor),
    /// The imaginary part of a phasor, in volts or amperes.
    Imaginary(Phasor),
    /// An analog value.
    Analog {
        /// Where its word stands.
        place: u8,
        /// What its word is multiplied by.
        factor: i32,
    },
    /// Nothing, as where the frequency of a concentrator's own block stood: it is absent in each block.
    Nothing,
    /// A digital word, as a number.
    Digital {
        /// Where it stands.
        place: u8,
    },
}

/// The word at this place of a block; 0 where the block ends before it.
fn word(words: &[u16], place: usize) -> u16
    ensures { result ≡ word_of words.now place }
{
    match words.get(place) {
        Some(word) => *word,
        None => 0,
    }
}

/// The first of the two words of a phasor.
fn first(phasor: Phasor, words: &[u16]) -> u16
    ensures { result ≡ word_of words.now phasor.place }
{
    word(words, usize::from(phasor.place))
}

/// The second of the two words of a phasor.
fn second(phasor: Phasor, words: &[u16]) -> u16
    ensures { result ≡ word_of words.now (phasor.place + 1) }
{
    word(words, usize::from(phasor.place) + 1)
}

/// Appends the magnitude in volts or amperes.
fn append_magnitude(phasor: Phasor, words: &[u16], out: &mut Vec<u8>) -> Result<(), AllocError>
    ensures { phasor.polar ≡ true
        → OnOk result (out.new.items ≡ out.old.items ++
        scaled_text 100000 (magnitude_of (word_of words.now phasor.place) phasor.factor)) }
{
    let (a, b) = (first(phasor, words), second(phasor, words));
    if phasor.polar {
        append_scaled(magnitude(a, phasor.factor), PART, out)
    } else {
        append_scaled(length(a, b, phasor.factor), PART, out)
    }
}

/// Appends the angle in radians.
fn append_angle(phasor: Phasor, words: &[u16], out: &mut Vec<u8>) -> Result<(), AllocError>
    ensures { phasor.polar ≡ true
        → OnOk result (out.new.items ≡ out.old.items ++
        scaled_text 10000 (signed_of (word_of words.now (phasor.place + 1)))) }
{
    let (a, b) = (first(phasor, words), second(phasor, words));
    if phasor.polar {
        append_scaled(signed(b), POLAR_ANGLE, out)
    } else {
        append_scaled(angle(a, b), ANGLE, out)
    }
}

/// Appends the real part in volts or amperes.
fn append_real(phasor: Phasor, words: &[u16], out: &mut Vec<u8>) -> Result<(), AllocError>
    ensures { phasor.polar ≡ false
        → OnOk result (out.new.items ≡ out.old.items ++
        scaled_text 100000 (part_of (word_of words.now phasor.place) phasor.factor)) }
{
    let (a, b) = (first(phasor, words), second(phasor, words));
    if phasor.polar {
        append_scaled(real(a, b, phasor.factor), PART, out)
    } else {
        append_scaled(part(a, phasor.factor), PART, out)
    }
}

/// Appends the imaginary part in volts or amperes.
fn append_imaginary(phasor: Phasor, words: &[u16], out: &mut Vec<u8>) -> Result<(), AllocError>
    ensures { phasor.polar ≡ false
        → OnOk result (out.new.items ≡ out.old.items ++
        scaled_text 100000 (part_of (word_of words.now (phasor.place + 1)) phasor.factor)) }
{
    let (a, b) = (first(phasor, words), second(phasor, words));
    if phasor.polar {
        append_scaled(imaginary(a, b, phasor.factor), PART, out)
    } else {
        append_scaled(part(b, phasor.factor), PART, out)
    }
}

impl Field {
    /// Whether it tells a value that a block of absent data does not have.
    pub fn is_value(&self) -> bool {
        !matches!(self, Field::Stat | Field::StatWords)
    }

    /// Whether it is absent in each block.
    pub fn is_nothing(&self) -> bool {
        matches!(self, Field::Nothing)
    }

    /// Appends it as text.
    ///
    /// # Errors
    ///
    /// [`AllocError`] where there is no room and none is got.
    pub fn append(self, words: &[u16], out: &mut Vec<u8>) -> Result<(), AllocError>
        // Where its number is a word times its factor, it is written with all its digits.
        ensures exact { (text : List ℕ) → exact_text self words.now ≡ Some text →
            OnOk result (out.new.items ≡ out.old.items ++ text) }
    {
        match self {
            Field::Nothing => Ok(()),
            Field::Stat => append_count(u64::from(word(words, 0)), out),
            Field::StatWords => append_stat_words(word(words, 0), out),
            Field::Frequency { place, nominal } => {
                let value = frequency(word(words, usize::from(place)), nominal);
                append_scaled(value, MILLIHERTZ, out)
            }
            Field::Rocof { place } => {
                append_scaled(signed(word(words, usize::from(place))), ROCOF, out)
            }
            Field::Magnitude(phasor) => append_magnitude(phasor, words, out),
            Field::Angle(phasor) => append_angle(phasor, words, out),
            Field::Real(phasor) => append_real(phasor, words, out),
            Field::Imaginary(phasor) => append_imaginary(phasor, words, out),
            Field::Analog { place, factor } => {
                append_whole(analog(word(words, usize::from(place)), factor), out)
            }
            Field::Digital { place } => {
                append_count(u64::from(word(words, usize::from(place))), out)
            }
        }
    }
}
