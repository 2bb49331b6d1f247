//! Numbers at the front of bytes, most significant byte first, each with the bytes behind it.
ghost use Rattle.std.specs.Prelude.{◌≡◌, ◌+◌, ◌≤◌, ◌∷◌, ◌++◌, length};
ghost use Rattle.std.specs.Int.{w16, w32, w64, to_be_bytes};
ghost use Rattle.pdc_record.specs.Bodies.{AreWords, words_of};

use crate::limits::COUNTS_LEN;
use byteorder::{BigEndian, ByteOrder};
use pdc_life::MAX_PMUS;

/// A byte, and the bytes behind it.
pub(crate) fn split_byte(bytes: &[u8]) -> (u8, &[u8])
    requires { 1 ≤ length bytes.now }
    ensures joined { bytes.now ≡ result.0 ∷ result.1.now }
    ensures len { length bytes.now ≡ 1 + length result.1.now }
{
    let Some((byte, rest)) = bytes.split_first() else {
        unreachable!();
    };
    (*byte, rest)
}

/// A number of 16 bits, and the bytes behind it.
pub(crate) fn split_word(bytes: &[u8]) -> (u16, &[u8])
    requires { 2 ≤ length bytes.now }
    ensures joined { bytes.now ≡ to_be_bytes w16 result.0 ++ result.1.now }
    ensures len { length bytes.now ≡ 2 + length result.1.now }
{
    let Some((word, rest)) = bytes.split_first_chunk() else {
        unreachable!();
    };
    (u16::from_be_bytes(*word), rest)
}

/// A number of 32 bits, and the bytes behind it.
pub(crate) fn split_long(bytes: &[u8]) -> (u32, &[u8])
    requires { 4 ≤ length bytes.now }
    ensures joined { bytes.now ≡ to_be_bytes w32 result.0 ++ result.1.now }
    ensures len { length bytes.now ≡ 4 + length result.1.now }
{
    let Some((long, rest)) = bytes.split_first_chunk() else {
        unreachable!();
    };
    (u32::from_be_bytes(*long), rest)
}

/// A number of 64 bits, and the bytes behind it.
pub(crate) fn split_wide(bytes: &[u8]) -> (u64, &[u8])
    requires { 8 ≤ length bytes.now }
    ensures joined { bytes.now ≡ to_be_bytes w64 result.0 ++ result.1.now }
    ensures len { length bytes.now ≡ 8 + length result.1.now }
{
    let Some((wide, rest)) = bytes.split_first_chunk() else {
        unreachable!();
    };
    (u64::from_be_bytes(*wide), rest)
}

/// The counts that these bytes are.
fn read_counts(bytes: &[u8]) -> [u16; MAX_PMUS]
    requires { length bytes.now ≡ COUNTS_LEN }
    ensures value { words_of result ≡ bytes.now }
    ensures fits { AreWords MAX_PMUS result }
{
    let mut counts = [0; MAX_PMUS];
    BigEndian::read_u16_into(bytes, &mut counts);
    counts
}

/// A count for each column, and the bytes behind them.
pub(crate) fn split_counts(bytes: &[u8]) -> ([u16; MAX_PMUS], &[u8])
    requires { COUNTS_LEN ≤ length bytes.now }
    ensures joined { bytes.now ≡ words_of result.0 ++ result.1.now }
    ensures len { length bytes.now ≡ COUNTS_LEN + length result.1.now }
    ensures fits { AreWords MAX_PMUS result.0 }
{
    let (front, rest) = bytes.split_at(COUNTS_LEN);
    (read_counts(front), rest)
}

/// How many bytes the counts have.
pub(crate) fn counts_len(counts: &[u16; MAX_PMUS]) -> usize
    ensures value { result ≡ length (words_of counts.now) }
    ensures size { result ≡ COUNTS_LEN }
{
    2 * counts.len()
}

/// The bytes of the counts.
pub(crate) fn count_bytes(counts: &[u16; MAX_PMUS]) -> [u8; COUNTS_LEN]
    ensures value { result ≡ words_of counts.now }
    ensures len { length result ≡ COUNTS_LEN }
    ensures fits { AreWords MAX_PMUS counts.now }
{
    let mut bytes = [0; COUNTS_LEN];
    BigEndian::write_u16_into(counts, &mut bytes);
    bytes
}
