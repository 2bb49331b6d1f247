//! The check word, thirty-two bytes a step.
//!
//! It is the remainder of state * x^16, where the state stands for the bytes so far. Over bits a square has no mixed
//! terms, so the generator's fourth power has four terms as the generator itself, and its eighth and sixteenth power too. A
//! state of as many bits as such a power has is moved up by them, and reduced again, with a few shifts.
ghost use Rattle.std.specs.Prelude.{◌≡◌, ◌+◌, ◌*◌, ◌^◌, ◌≤◌, ◌<◌, ℕ, fold, length, take, drop};
ghost use Rattle.pdc_words.specs.CheckWord.{IsCheckWord, IsCongruent, IsRemainder, check_after};
ghost use Rattle.pdc_words.specs.CheckWord.{check_word_of, high_of_product, polynomial_of};

use crate::lanes::{BLOCK, after_blocks};

/// The highest exponent of the generator, x^16 + x^12 + x^5 + 1.
pub(crate) const DEGREE: u32 = 16;

/// The next exponent.
const UPPER: u32 = 12;

/// The exponent after that.
const LOWER: u32 = 5;

/// How far x^12 stands below x^16. In the fourth power it is four times as far, and so for each gap and each power.
const UPPER_GAP: u32 = DEGREE - UPPER;

/// How far x^5 stands below x^16.
const LOWER_GAP: u32 = DEGREE - LOWER;

/// The state before the first byte: its product with x^16 has the remainder FFFF.
pub(crate) const START: u128 = 0x84CF;

/// The number of bytes of a long step.
pub(crate) const LONG_STEP: usize = 32;

/// The number of bytes of a wide step.
pub(crate) const WIDE_STEP: usize = 16;

/// The number of bytes of a step.
pub(crate) const STEP: usize = 8;

/// From so many bytes on, lanes are faster.
pub(crate) const BLOCKS_FROM: usize = 512;

/// The number of bits of a state.
pub(crate) const STATE_BITS: usize = 8 * STEP;

/// The number of bits of a wide state.
const WIDE_BITS: usize = 8 * WIDE_STEP;

/// The number of bits of a long state.
const LONG_BITS: usize = 8 * LONG_STEP;

/// The quotient of state * x^64 by the generator's fourth power, x^64 + x^48 + x^20 + 1: the largest shifts come first,
/// and those that leave nothing of a state are left out.
#[inline]
fn quotient(state: u64) -> u64
    ensures { high_of_product (4 * UPPER_GAP) (4 * LOWER_GAP) (4 * DEGREE) result ≡ state }
{
    let half = state ^ (state >> (8 * UPPER_GAP));
    (half ^ (half >> (4 * UPPER_GAP))) ^ (half >> (4 * LOWER_GAP))
}

/// The quotient of state * x^128 by the generator's eighth power, x^128 + x^96 + x^40 + 1.
#[inline]
fn wide_quotient(state: u128) -> u128
    ensures { high_of_product (8 * UPPER_GAP) (8 * LOWER_GAP) (8 * DEGREE) result ≡ state }
{
    let half = state ^ (state >> (16 * UPPER_GAP));
    (half ^ (half >> (8 * UPPER_GAP))) ^ (half >> (8 * LOWER_GAP))
}

/// A state that stands for state * x^64: what is left of it behind the fourth power.
#[inline]
pub(crate) fn moved_up(state: u64) -> u64
    ensures { IsCongruent (state * 2 ^ STATE_BITS) result }
{
    let quotient = quotient(state);
    (quotient << (4 * UPPER)) ^ ((quotient << (4 * LOWER)) ^ quotient)
}

/// A state that stands for state * x^128: what is left of it behind the eighth power.
#[inline]
pub(crate) fn wide_moved_up(state: u128) -> u128
    ensures { IsCongruent (state * 2 ^ WIDE_BITS) result }
{
    let quotient = wide_quotient(state);
    (quotient << (8 * UPPER)) ^ ((quotient << (8 * LOWER)) ^ quotient)
}

/// A long state, in two halves, that stands for state * x^256: what is left of it behind the sixteenth power,
/// x^256 + x^192 + x^80 + 1.
#[inline(always)]
pub(crate) fn long_moved_up(high: u128, low: u128) -> (u128, u128)
    ensures congruent { IsCongruent ((high * 2 ^ WIDE_BITS +
        low) * 2 ^ LONG_BITS) (result.0 * 2 ^ WIDE_BITS + result.1) }
    ensures low { result.1 < 2 ^ WIDE_BITS }
{
    let mixed = low ^ high;
    let first = high ^ (high >> 64);
    let second = (mixed ^ ((high << 64) | (mixed >> 64))) ^ (high >> 48);
    (
        (second << 64) ^ (((first << 80) | (second >> 48)) ^ first),
        (second << 80) ^ second,
    )
}

/// The state after the first bytes, in steps of thirty-two, and how many bytes they are.
#[inline(always)]
pub(crate) fn after_long_steps(state: u128, bytes: &[u8]) -> (u128, usize)
    requires { LONG_STEP ≤ length bytes.now }
    ensures at { result.1 ≤ length bytes.now }
    ensures state { (check : ℕ) → IsRemainder (state * 2 ^ DEGREE) check
        → IsRemainder (result.0 * 2 ^ DEGREE) (fold check_after check (take result.1 bytes.now)) }
{
    let (up, down) = long_moved_up(0, state);
    let mut high = up ^ read_wide_step(bytes, 0);
    let mut low = down ^ read_wide_step(bytes, WIDE_STEP);
    let mut at = LONG_STEP;
    while bytes.len() - at >= LONG_STEP {
        let (up, down) = long_moved_up(high, low);
        high = up ^ read_wide_step(bytes, at);
        low = down ^ read_wide_step(bytes, at + WIDE_STEP);
        at += LONG_STEP;
    }
    (wide_moved_up(high) ^ low, at)
}

/// A state that stands for the same in half the bits.
#[inline]
pub(crate) fn narrowed(state: u128) -> u64
    ensures { IsCongruent state result }
{
    moved_up((state >> u64::BITS) as u64) ^ ((state % (1 << u64::BITS)) as u64)
}

/// The check word that a state stands for.
pub(crate) fn check_of_state(state: u64) -> u16
    ensures { IsRemainder (state * 2 ^ DEGREE) result }
{
    let half = quotient(state);
    let quarter = (half ^ (half >> (2 * UPPER_GAP)))
        ^ ((half >> (2 * LOWER_GAP)) ^ (half >> (2 * DEGREE)));
    let quotient = (quarter ^ (quarter >> UPPER_GAP))
        ^ ((quarter >> LOWER_GAP) ^ (quarter >> DEGREE));
    (((quotient << UPPER) ^ ((quotient << LOWER) ^ quotient)) % (1 << u16::BITS)) as u16
}

/// The eight bytes from `place` on as one number, the first highest.
#[inline]
pub(crate) fn read_step(bytes: &[u8], place: usize) -> u64
    requires { place + STEP ≤ length bytes.now }
    ensures { result ≡ polynomial_of (take STEP (drop place bytes.now)) }
{
    u64::from_be_bytes([
        bytes[place],
        bytes[place + 1],
        bytes[place + 2],
        bytes[place + 3],
        bytes[place + 4],
        bytes[place + 5],
        bytes[place + 6],
        bytes[place + 7],
    ])
}

/// The sixteen bytes from `place` on as one number, the first highest.
#[inline]
pub(crate) fn read_wide_step(bytes: &[u8], place: usize) -> u128
    requires { place + WIDE_STEP ≤ length bytes.now }
    ensures { result ≡ polynomial_of (take WIDE_STEP (drop place bytes.now)) }
{
    (u128::from(read_step(bytes, place)) << u64::BITS) | u128::from(read_step(bytes, place + STEP))
}

/// Fewer than eight bytes as one number, the first highest.
#[inline]
pub(crate) fn read_few(bytes: &[u8]) -> u64
    requires { length bytes.now < STEP }
    ensures { result ≡ polynomial_of bytes.now }
{
    let mut number = 0;
    for byte in bytes {
        number = (number << u8::BITS) | u64::from(*byte);
    }
    number
}

/// The bytes from `place` on, which are fewer than eight, as one number, the first highest: a part of the last eight.
#[inline]
fn read_last(bytes: &[u8], place: usize) -> u64
    requires long { STEP ≤ length bytes.now }
    requires place { place ≤ length bytes.now }
    requires few { length bytes.now < place + STEP }
    ensures { result ≡ polynomial_of (drop place bytes.now) }
{
    let bits = 8 * (bytes.len() - place);
    read_step(bytes, bytes.len() - STEP) % (1 << bits)
}

/// The state after the bytes from `place` on, which are fewer than eight.
#[inline]
fn after_last(state: u64, bytes: &[u8], place: usize) -> u64
    requires long { STEP ≤ length bytes.now }
    requires place { place ≤ length bytes.now }
    requires few { length bytes.now < place + STEP }
    ensures step { (check : ℕ) → IsRemainder (state * 2 ^ DEGREE) check
        → IsRemainder (result * 2 ^ DEGREE) (fold check_after check (drop place bytes.now)) }
{
    if place == bytes.len() {
        return state;
    }
    let bits = 8 * (bytes.len() - place);
    moved_up(state >> (STATE_BITS - bits)) ^ ((state << bits) ^ read_last(bytes, place))
}

/// The state after the bytes from `place` on, which are fewer than sixteen.
#[inline]
pub(crate) fn after_rest(state: u64, bytes: &[u8], place: usize) -> u64
    requires long { STEP ≤ length bytes.now }
    requires place { place ≤ length bytes.now }
    requires few { length bytes.now < place + WIDE_STEP }
    ensures step { (check : ℕ) → IsRemainder (state * 2 ^ DEGREE) check
        → IsRemainder (result * 2 ^ DEGREE) (fold check_after check (drop place bytes.now)) }
{
    if bytes.len() - place < STEP {
        return after_last(state, bytes, place);
    }
    after_last(
        moved_up(state) ^ read_step(bytes, place),
        bytes,
        place + STEP,
    )
}

/// The state after the bytes from `place` on, sixteen a step, of which those in front have this state.
#[inline(always)]
pub(crate) fn after_wide_steps(state: u128, bytes: &[u8], place: usize) -> u64
    requires long { STEP ≤ length bytes.now }
    requires place { place ≤ length bytes.now }
    ensures step { (check : ℕ) → IsRemainder (state * 2 ^ DEGREE)
        (fold check_after check (take place bytes.now))
        → IsRemainder (result * 2 ^ DEGREE) (fold check_after check bytes.now) }
{
    let mut after = state;
    let mut at = place;
    while bytes.len() - at >= WIDE_STEP {
        after = wide_moved_up(after) ^ read_wide_step(bytes, at);
        at += WIDE_STEP;
    }
    after_rest(narrowed(after), bytes, at)
}

/// The check word of fewer than eight bytes: no frame has so few, and so it is a call of its own.
#[inline(never)]
fn check_of_few(bytes: &[u8]) -> u16
    requires { length bytes.now < STEP }
    ensures remainder { IsCheckWord bytes.now result }
    ensures value { result ≡ check_word_of bytes.now }
{
    let state = (START << (8 * bytes.len())) ^ u128::from(read_few(bytes));
    check_of_state(narrowed(state))
}

/// The check word of fewer than sixteen bytes. A call of its own, so that more keep what they need in few registers.
#[inline(never)]
fn check_of_some(bytes: &[u8]) -> u16
    requires { length bytes.now < WIDE_STEP }
    ensures remainder { IsCheckWord bytes.now result }
    ensures value { result ≡ check_word_of bytes.now }
{
    if bytes.len() < STEP {
        return check_of_few(bytes);
    }
    check_of_state(after_rest(narrowed(START), bytes, 0))
}

/// The check word of thirty-two bytes or more. A call of its own, so that fewer keep what they need in few registers.
#[inline(never)]
fn check_of_many(bytes: &[u8]) -> u16
    requires { LONG_STEP ≤ length bytes.now }
    ensures remainder { IsCheckWord bytes.now result }
    ensures value { result ≡ check_word_of bytes.now }
{
    let (state, at) = after_long_steps(START, bytes);
    check_of_state(after_wide_steps(state, bytes, at))
}

/// The check word of many bytes, by lanes. A call of its own, so that fewer keep what they need in few registers.
#[inline(never)]
fn check_of_blocks(bytes: &[u8]) -> u16
    requires { BLOCK ≤ length bytes.now }
    ensures remainder { IsCheckWord bytes.now result }
    ensures value { result ≡ check_word_of bytes.now }
{
    let (state, at) = after_blocks(START, bytes);
    check_of_state(after_wide_steps(state, bytes, at))
}

/// The check word of the bytes: CRC-CCITT with generator x^16 + x^12 + x^5 + 1, start value FFFF and no final mask
/// (C37.118.2-2011, annex B).
pub fn check_word(bytes: &[u8]) -> u16
    // It is the remainder of polynomials,
    ensures remainder { IsCheckWord bytes.now result }
    // of which there is one.
    ensures value { result ≡ check_word_of bytes.now }
{
    if bytes.len() >= BLOCKS_FROM {
        return check_of_blocks(bytes);
    }
    if bytes.len() >= LONG_STEP {
        return check_of_many(bytes);
    }
    if bytes.len() < WIDE_STEP {
        return check_of_some(bytes);
    }
    // What the state before the first byte is moved up to is a constant that the compiler works out.
    let state = wide_moved_up(START) ^ read_wide_step(bytes, 0);
    check_of_state(after_rest(narrowed(state), bytes, WIDE_STEP))
}
