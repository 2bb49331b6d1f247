//! The check word of a frame from that of another that differs from it in its front: what the two fronts' check words differ in is
//! moved past the rest, which is a product with a power of x.
ghost use Rattle.std.specs.Prelude.{◌≡◌, ◌*◌, ◌/◌, ◌%◌, ◌^◌, ◌<◌, ◌++◌, ℕ, List, length};
ghost use Rattle.pdc_words.specs.Bytes.{AreBytes};
ghost use Rattle.pdc_words.specs.CheckWord.{check_word_of};
ghost use Rattle.pdc_words.specs.Linear.{IsPower, check_moved};

use crate::crc::{STATE_BITS, STEP, check_of_state, check_word, moved_up};

/// A state whose product with x^32 has the remainder 1.
const BEFORE: u64 = 0x6128;

/// The number that moves a difference past so many bytes, for [`moved_past`]. It takes a step for each eight of them: whoever has
/// frames of one length keeps it.
pub fn power_past(count: usize) -> u16
    ensures { IsPower count result }
{
    let mut state = BEFORE;
    let mut left = count;
    while left >= STEP {
        state = moved_up(state);
        left -= STEP;
    }
    while left > 0 {
        state = moved_up(state >> (STATE_BITS - 8)) ^ (state << 8);
        left -= 1;
    }
    check_of_state(state)
}

/// The power where this bit of the difference is 1, and else 0.
#[inline(always)]
fn bit_times(difference: u16, bit: u32, power: u16) -> u64
    requires { bit < 16 }
    ensures { result ≡ difference / 2 ^ bit % 2 * power }
{
    if (difference >> bit) % 2 == 1 {
        return u64::from(power);
    }
    0
}

/// A difference of check words, moved past as many bytes as the power says.
#[inline]
pub fn moved_past(difference: u16, power: u16) -> u16
    ensures { (count : ℕ) → IsPower count power → result ≡ check_moved count difference }
{
    let mut product = 0;
    let mut bit = u16::BITS;
    while bit > 0 {
        bit -= 1;
        product = (product << 1) ^ bit_times(difference, bit, power);
    }
    check_of_state(product)
}

/// The check word of the bytes `other` with a rest behind them, where `check` is that of `front` with the same rest behind it, and the
/// power is that of the rest's length.
#[inline]
pub fn check_word_of_other(check: u16, front: &[u8], other: &[u8], power: u16) -> u16
    ensures { (rest : List ℕ) → AreBytes rest → IsPower (length rest) power →
        check ≡ check_word_of (front.now ++ rest)
        → result ≡ check_word_of (other.now ++ rest) }
{
    check ^ moved_past(check_word(front) ^ check_word(other), power)
}
