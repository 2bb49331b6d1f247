//! The check word of a frame whose header is given as a number, and its payload as bytes.
ghost use Rattle.std.specs.Prelude.{◌≡◌, ◌+◌, ◌*◌, ◌^◌, ◌≤◌, ◌<◌, ◌++◌, ℕ, List, fold, length};
ghost use Rattle.std.specs.Prelude.{take};
ghost use Rattle.pdc_words.specs.Bytes.{AreBytes};
ghost use Rattle.pdc_words.specs.CheckWord.{IsRemainder, check_after, check_word_of, polynomial_of};
ghost use Rattle.pdc_words.specs.declared.crc.TheConstants.{DEGREE, STEP, WIDE_STEP};

use crate::crc::{
    BLOCKS_FROM, LONG_STEP, START, STATE_BITS, STEP, WIDE_STEP, after_long_steps, after_wide_steps,
    check_of_state, moved_up, narrowed, read_few, read_step,
};
use crate::lanes::{BLOCK, after_blocks};

/// The number of bytes of a frame before its payload: SYNC, FRAMESIZE, IDCODE, SOC and FRACSEC (6.2, table 2).
pub const BYTES_BEFORE_PAYLOAD: usize = 14;

/// The state after the first bytes behind a header, of which this is the state, and how many they are: long steps, where there are as
/// many.
#[inline(always)]
fn after_front(header: u128, payload: &[u8]) -> (u128, usize)
    ensures at { result.1 ≤ length payload.now }
    ensures state { (check : ℕ) → IsRemainder (header * 2 ^ DEGREE) check
        → IsRemainder (result.0 * 2 ^ DEGREE) (fold check_after check (take result.1 payload.now)) }
{
    if payload.len() < LONG_STEP {
        return (header, 0);
    }
    after_long_steps(header, payload)
}

/// The state after so many bytes more from this place on, if so many are left, and where the rest begins.
#[inline(always)]
fn after_part(state: u64, bytes: &[u8], at: usize, count: usize) -> (u64, usize)
    requires some { 0 < count }
    requires few { count < STEP }
    requires at { at ≤ length bytes.now }
    requires left { length bytes.now < at + 2 * count }
    ensures at { result.1 ≤ length bytes.now }
    ensures left { length bytes.now < result.1 + count }
    ensures step { (check : ℕ) → IsRemainder (state * 2 ^ DEGREE)
        (fold check_after check (take at bytes.now))
        → IsRemainder (result.0 * 2 ^ DEGREE) (fold check_after check (take result.1 bytes.now)) }
{
    if bytes.len() - at < count {
        return (state, at);
    }
    let bits = 8 * count;
    let last = read_few(&bytes[at..at + count]);
    (
        moved_up(state >> (STATE_BITS - bits)) ^ ((state << bits) ^ last),
        at + count,
    )
}

/// The state after the bytes from this place on, which are fewer than eight: in pieces of fixed numbers, as they were written.
#[inline(always)]
fn after_pieces(state: u64, bytes: &[u8], at: usize) -> u64
    requires at { at ≤ length bytes.now }
    requires few { length bytes.now < at + STEP }
    ensures step { (check : ℕ) → IsRemainder (state * 2 ^ DEGREE)
        (fold check_after check (take at bytes.now))
        → IsRemainder (result * 2 ^ DEGREE) (fold check_after check bytes.now) }
{
    let (state, at) = after_part(state, bytes, at, 4);
    let (state, at) = after_part(state, bytes, at, 2);
    let (state, _) = after_part(state, bytes, at, 1);
    state
}

/// The state after fewer than sixteen bytes behind a header, of which this is the state.
#[inline(always)]
fn after_short(header: u128, payload: &[u8]) -> u64
    requires long { STEP ≤ length payload.now }
    requires few { length payload.now < WIDE_STEP }
    ensures step { (check : ℕ) → IsRemainder (header * 2 ^ DEGREE) check
        → IsRemainder (result * 2 ^ DEGREE) (fold check_after check payload.now) }
{
    let state = moved_up(narrowed(header)) ^ read_step(payload, 0);
    after_pieces(state, payload, STEP)
}

/// The state after the bytes behind a header, of which this is the state. A call of its own, so that a short payload keeps what it needs
/// in registers.
#[inline(never)]
fn after_payload(header: u128, payload: &[u8]) -> u64
    requires { STEP ≤ length payload.now }
    ensures step { (check : ℕ) → IsRemainder (header * 2 ^ DEGREE) check
        → IsRemainder (result * 2 ^ DEGREE) (fold check_after check payload.now) }
{
    let (state, at) = after_front(header, payload);
    after_wide_steps(state, payload, at)
}

/// The state after many bytes behind a header, of which this is the state, by lanes. A call of its own, so that fewer keep what they need
/// in few registers.
#[inline(never)]
fn after_many(header: u128, payload: &[u8]) -> u64
    requires { BLOCK ≤ length payload.now }
    ensures step { (check : ℕ) → IsRemainder (header * 2 ^ DEGREE) check
        → IsRemainder (result * 2 ^ DEGREE) (fold check_after check payload.now) }
{
    let (state, at) = after_blocks(header, payload);
    after_wide_steps(state, payload, at)
}

/// The state after fewer than eight bytes behind a header: no data has so few, and so it is a call of its own.
#[inline(never)]
fn after_few(header: u128, payload: &[u8]) -> u64
    requires { length payload.now < STEP }
    ensures step { (check : ℕ) → IsRemainder (header * 2 ^ DEGREE) check
        → IsRemainder (result * 2 ^ DEGREE) (fold check_after check payload.now) }
{
    let state = narrowed(header);
    if payload.is_empty() {
        return state;
    }
    let bits = 8 * payload.len();
    moved_up(state >> (STATE_BITS - bits)) ^ ((state << bits) ^ read_few(payload))
}

/// The check word of a header, given as one number with its first byte highest, and the payload behind it. So a header that was just
/// written need not be read again, which would wait for it.
#[inline(always)]
pub fn check_word_behind(header: u128, payload: &[u8]) -> u16
    ensures { (front : List ℕ) → AreBytes front → length front ≡ BYTES_BEFORE_PAYLOAD →
        header ≡ polynomial_of front
        → result ≡ check_word_of (front ++ payload.now) }
{
    let state = (START << (8 * BYTES_BEFORE_PAYLOAD)) ^ header;
    check_of_state(after_any(state, payload))
}

/// The check word of a header and the payload behind it, which need not lie in one place.
#[inline]
pub fn check_word_of_parts(header: &[u8; BYTES_BEFORE_PAYLOAD], payload: &[u8]) -> u16
    ensures { result ≡ check_word_of (header.now ++ payload.now) }
{
    check_word_behind(number_of(header), payload)
}

/// The bytes of a header as one number, the first highest.
#[inline(always)]
fn number_of(header: &[u8; BYTES_BEFORE_PAYLOAD]) -> u128
    ensures { result ≡ polynomial_of header.now }
{
    let rest = read_few(&header[STEP..]);
    (u128::from(read_step(header, 0)) << (8 * (BYTES_BEFORE_PAYLOAD - STEP))) + u128::from(rest)
}

/// The state after any bytes behind a header, of which this is the state.
#[inline(always)]
fn after_any(header: u128, payload: &[u8]) -> u64
    ensures step { (check : ℕ) → IsRemainder (header * 2 ^ DEGREE) check
        → IsRemainder (result * 2 ^ DEGREE) (fold check_after check payload.now) }
{
    if payload.len() >= BLOCKS_FROM {
        return after_many(header, payload);
    }
    if payload.len() >= WIDE_STEP {
        return after_payload(header, payload);
    }
    if payload.len() < STEP {
        return after_few(header, payload);
    }
    after_short(header, payload)
}
