//! The check word of long bytes, a block of 128 bytes a turn, in sixteen lanes of 64 bits.
//!
//! The generator's 64th power is x^1024 + x^768 + x^320 + 1. Each exponent is a multiple of 64, so a product with it, and a remainder
//! behind it, move whole lanes: lanes are joined by exclusive or, and none is shifted.
ghost use Rattle.std.specs.Prelude.{◌≡◌, ◌+◌, ◌*◌, ◌^◌, ◌≤◌, ℕ, fold, length, map, take, drop};
ghost use Rattle.pdc_words.specs.CheckWord.{IsCongruent, IsRemainder, check_after, polynomial_of};
ghost use Rattle.pdc_words.specs.Lanes.{number_of_lanes, state_of_lanes, turned};
ghost use Rattle.pdc_words.specs.declared.crc.TheConstants.{DEGREE};

use crate::crc::{long_moved_up, wide_moved_up};

/// The number of bytes of a block.
pub(crate) const BLOCK: usize = 128;

/// The eight bytes from `place` on as they stand, the lowest first: read at once, so that two lanes go into one register.
#[inline(always)]
fn read_lane(bytes: &[u8], place: usize) -> u64
    requires { place + 8 ≤ length bytes.now }
    ensures { turned result ≡ polynomial_of (take 8 (drop place bytes.now)) }
{
    match bytes[place..place + 8].split_first_chunk() {
        Some((lane, _)) => u64::from_le_bytes(*lane),
        None => 0,
    }
}

/// The lane that stands for this number.
#[inline(always)]
fn lane_of(number: u64) -> u64
    ensures { turned result ≡ number }
{
    u64::from_le_bytes(number.to_be_bytes())
}

/// The number that a lane stands for.
#[inline(always)]
fn number_of(lane: u64) -> u64
    ensures { result ≡ turned lane }
{
    u64::from_be_bytes(lane.to_le_bytes())
}

/// A block more: what is left of the product, the block, and the quotient of both, lane by lane.
#[inline(always)]
fn lanes_step(q: &[u64], bytes: &[u8], at: usize) -> [u64; 16]
    requires lanes { length q.now ≡ 16 }
    requires at { at + BLOCK ≤ length bytes.now }
    ensures { (check : ℕ) → IsRemainder (state_of_lanes (map turned q.now) * 2 ^ DEGREE)
        (fold check_after check (take at bytes.now))
        → IsRemainder (state_of_lanes (map turned result) * 2 ^ DEGREE)
        (fold check_after check (take (at + BLOCK) bytes.now)) }
{
    let a0 = (q[12] ^ (q[5] ^ q[0])) ^ read_lane(bytes, at);
    let a1 = (q[13] ^ (q[6] ^ q[1])) ^ read_lane(bytes, at + 8);
    let a2 = (q[14] ^ (q[7] ^ q[2])) ^ read_lane(bytes, at + 16);
    let a3 = (q[15] ^ (q[8] ^ q[3])) ^ read_lane(bytes, at + 24);
    let a4 = ((q[9] ^ q[4]) ^ read_lane(bytes, at + 32)) ^ a0;
    let a5 = ((q[10] ^ q[5]) ^ read_lane(bytes, at + 40)) ^ a1;
    let a6 = ((q[11] ^ q[6]) ^ read_lane(bytes, at + 48)) ^ a2;
    let a7 = ((q[12] ^ q[7]) ^ read_lane(bytes, at + 56)) ^ a3;
    let a8 = ((q[13] ^ q[8]) ^ read_lane(bytes, at + 64)) ^ a4;
    let a9 = ((q[14] ^ q[9]) ^ read_lane(bytes, at + 72)) ^ a5;
    let a10 = ((q[15] ^ q[10]) ^ read_lane(bytes, at + 80)) ^ a6;
    let a11 = ((q[11] ^ read_lane(bytes, at + 88)) ^ a0) ^ a7;
    let a12 = ((q[12] ^ read_lane(bytes, at + 96)) ^ a1) ^ a8;
    let a13 = ((q[13] ^ read_lane(bytes, at + 104)) ^ a2) ^ a9;
    let a14 = ((q[14] ^ read_lane(bytes, at + 112)) ^ a3) ^ a10;
    let a15 = ((q[15] ^ read_lane(bytes, at + 120)) ^ a4) ^ a11;
    [
        a0, a1, a2, a3, a4, a5, a6, a7, a8, a9, a10, a11, a12, a13, a14, a15,
    ]
}

/// The last block: what is left of the product, and the block. It has no quotient, since no block comes behind it.
#[inline(always)]
fn lanes_left(q: &[u64], bytes: &[u8], at: usize) -> [u64; 16]
    requires lanes { length q.now ≡ 16 }
    requires at { at + BLOCK ≤ length bytes.now }
    ensures { (check : ℕ) → IsRemainder (state_of_lanes (map turned q.now) * 2 ^ DEGREE)
        (fold check_after check (take at bytes.now))
        → IsRemainder (number_of_lanes (map turned result) * 2 ^ DEGREE)
        (fold check_after check (take (at + BLOCK) bytes.now)) }
{
    [
        (q[12] ^ (q[5] ^ q[0])) ^ read_lane(bytes, at),
        (q[13] ^ (q[6] ^ q[1])) ^ read_lane(bytes, at + 8),
        (q[14] ^ (q[7] ^ q[2])) ^ read_lane(bytes, at + 16),
        (q[15] ^ (q[8] ^ q[3])) ^ read_lane(bytes, at + 24),
        (q[9] ^ q[4]) ^ read_lane(bytes, at + 32),
        (q[10] ^ q[5]) ^ read_lane(bytes, at + 40),
        (q[11] ^ q[6]) ^ read_lane(bytes, at + 48),
        (q[12] ^ q[7]) ^ read_lane(bytes, at + 56),
        (q[13] ^ q[8]) ^ read_lane(bytes, at + 64),
        (q[14] ^ q[9]) ^ read_lane(bytes, at + 72),
        (q[15] ^ q[10]) ^ read_lane(bytes, at + 80),
        q[11] ^ read_lane(bytes, at + 88),
        q[12] ^ read_lane(bytes, at + 96),
        q[13] ^ read_lane(bytes, at + 104),
        q[14] ^ read_lane(bytes, at + 112),
        q[15] ^ read_lane(bytes, at + 120),
    ]
}

/// Two lanes as one number.
#[inline(always)]
fn pair(high: u64, low: u64) -> u128
    ensures { result ≡ turned high * 2 ^ 64 + turned low }
{
    (u128::from(number_of(high)) << u64::BITS) | u128::from(number_of(low))
}

/// A state that stands for the same in two lanes. A call of its own: so all lanes are written, two by two, and are kept so before.
#[inline(never)]
fn lanes_narrowed(s: &[u64]) -> u128
    requires { length s.now ≡ 16 }
    ensures { IsCongruent (number_of_lanes (map turned s.now)) result }
{
    let (up, down) = long_moved_up(pair(s[0], s[1]), pair(s[2], s[3]));
    let (high, low) = (up ^ pair(s[4], s[5]), down ^ pair(s[6], s[7]));
    let (up, down) = long_moved_up(high, low);
    let (high, low) = (up ^ pair(s[8], s[9]), down ^ pair(s[10], s[11]));
    let (up, down) = long_moved_up(high, low);
    wide_moved_up(up ^ pair(s[12], s[13])) ^ (down ^ pair(s[14], s[15]))
}

/// A state as lanes.
#[inline(always)]
fn lanes_of(state: u128) -> [u64; 16]
    ensures { state_of_lanes (map turned result) ≡ state }
{
    let high = (state >> u64::BITS) as u64;
    let low = (state % (1 << u64::BITS)) as u64;
    [
        0,
        0,
        0,
        0,
        0,
        0,
        0,
        0,
        0,
        0,
        0,
        0,
        0,
        0,
        lane_of(high),
        lane_of(low),
    ]
}

/// The state after the first bytes, in blocks, and how many bytes they are.
#[inline(always)]
pub(crate) fn after_blocks(state: u128, bytes: &[u8]) -> (u128, usize)
    requires { BLOCK ≤ length bytes.now }
    ensures at { result.1 ≤ length bytes.now }
    ensures state { (check : ℕ) → IsRemainder (state * 2 ^ DEGREE) check
        → IsRemainder (result.0 * 2 ^ DEGREE) (fold check_after check (take result.1 bytes.now)) }
{
    let mut lanes = lanes_of(state);
    let mut at = 0;
    while bytes.len() - at >= 2 * BLOCK {
        lanes = lanes_step(&lanes, bytes, at);
        at += BLOCK;
    }
    let left = lanes_left(&lanes, bytes, at);
    (lanes_narrowed(&left), at + BLOCK)
}
