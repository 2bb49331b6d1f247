//! The words of a block, written over in place.
ghost use Rattle.std.specs.Prelude.{◌≡◌, ◌*◌, ◌<◌, ◌≤◌, length};
ghost use Rattle.pdc_block.specs.Block.{words_in};

use arrayvec::ArrayVec;
use pdc_cfg::{MAX_WORDS, read_word};

/// How many words are written in one step: as many as fill a register of 16 bytes.
pub const WORDS_AT_ONCE: usize = 8;

/// As many as fill one of 8 bytes.
const FEW_AT_ONCE: usize = 4;

/// So many words, to be written over.
fn zeros(count: usize) -> ArrayVec<u16, MAX_WORDS>
    requires { count ≤ MAX_WORDS }
    ensures { length result.items ≡ count }
{
    let mut zeros = ArrayVec::from_array_in((), [0; MAX_WORDS]);
    zeros.truncate(count);
    zeros
}

/// So many words, which the bytes write.
pub fn new_words(count: usize, bytes: &[u8]) -> ArrayVec<u16, MAX_WORDS>
    requires most { count ≤ MAX_WORDS }
    requires size { length bytes.now ≡ 2 * count }
    ensures words { result.items ≡ words_in bytes.now }
    ensures count { length result.items ≡ count }
{
    let mut words = zeros(count);
    read_into(words.as_mut_slice(), bytes);
    words
}

/// Writes the words that the bytes write over these, thirty-two at a step, then sixteen, eight and four, and the last one by one.
pub fn read_into(words: &mut [u16], bytes: &[u8])
    requires { length bytes.now ≡ 2 * length words.old }
    ensures { words.new ≡ words_in bytes.now }
{
    if words.len() < 4 * WORDS_AT_ONCE {
        read_behind(words, bytes);
        return;
    }
    let (front, behind) = words.split_at_mut(4 * WORDS_AT_ONCE);
    let (bytes, left) = bytes.split_at(8 * WORDS_AT_ONCE);
    read_thirty_two(front, bytes);
    read_into(behind, left);
}

/// Writes thirty-two words that the bytes write over these.
#[inline(always)]
fn read_thirty_two(words: &mut [u16], bytes: &[u8])
    requires words { length words.old ≡ 32 }
    requires bytes { length bytes.now ≡ 64 }
    ensures { words.new ≡ words_in bytes.now }
{
    let (front, behind) = words.split_at_mut(2 * WORDS_AT_ONCE);
    let (first, second) = bytes.split_at(4 * WORDS_AT_ONCE);
    read_sixteen(front, first);
    read_sixteen(behind, second);
}

/// Writes fewer than thirty-two words that the bytes write over these: sixteen at once, and the last ones.
#[inline(always)]
fn read_behind(words: &mut [u16], bytes: &[u8])
    requires size { length bytes.now ≡ 2 * length words.old }
    requires some { length words.old < 32 }
    ensures { words.new ≡ words_in bytes.now }
{
    if words.len() < 2 * WORDS_AT_ONCE {
        read_some(words, bytes);
        return;
    }
    let (front, behind) = words.split_at_mut(2 * WORDS_AT_ONCE);
    let (bytes, left) = bytes.split_at(4 * WORDS_AT_ONCE);
    read_sixteen(front, bytes);
    read_some(behind, left);
}

/// Writes sixteen words that the bytes write over these, in two steps.
#[inline(always)]
fn read_sixteen(words: &mut [u16], bytes: &[u8])
    requires words { length words.old ≡ 16 }
    requires bytes { length bytes.now ≡ 32 }
    ensures { words.new ≡ words_in bytes.now }
{
    let (front, behind) = words.split_at_mut(WORDS_AT_ONCE);
    let (first, second) = bytes.split_at(2 * WORDS_AT_ONCE);
    read_eight(front, first);
    read_eight(behind, second);
}

/// Writes fewer than sixteen words that the bytes write over these: eight at once, and the last ones.
#[inline(always)]
fn read_some(words: &mut [u16], bytes: &[u8])
    requires size { length bytes.now ≡ 2 * length words.old }
    requires some { length words.old < 16 }
    ensures { words.new ≡ words_in bytes.now }
{
    if words.len() < WORDS_AT_ONCE {
        read_few(words, bytes);
        return;
    }
    let (front, behind) = words.split_at_mut(WORDS_AT_ONCE);
    let (bytes, left) = bytes.split_at(2 * WORDS_AT_ONCE);
    read_eight(front, bytes);
    read_few(behind, left);
}

/// Writes fewer than eight words that the bytes write over these: four at once, and the last one by one.
#[inline(always)]
fn read_few(words: &mut [u16], bytes: &[u8])
    requires size { length bytes.now ≡ 2 * length words.old }
    requires few { length words.old < 8 }
    ensures { words.new ≡ words_in bytes.now }
{
    if words.len() < FEW_AT_ONCE {
        read_last(words, bytes);
        return;
    }
    let (front, behind) = words.split_at_mut(FEW_AT_ONCE);
    let (bytes, left) = bytes.split_at(2 * FEW_AT_ONCE);
    read_four(front, bytes);
    read_last(behind, left);
}

/// Writes eight words that the bytes write over these: all are read before one is written, so that they are turned and moved in one
/// step.
#[inline(always)]
fn read_eight(words: &mut [u16], bytes: &[u8])
    requires words { length words.old ≡ 8 }
    requires bytes { length bytes.now ≡ 16 }
    ensures { words.new ≡ words_in bytes.now }
{
    let a = read_word(bytes, 0);
    let b = read_word(bytes, 2);
    let c = read_word(bytes, 4);
    let d = read_word(bytes, 6);
    let e = read_word(bytes, 8);
    let f = read_word(bytes, 10);
    let g = read_word(bytes, 12);
    let h = read_word(bytes, 14);
    words[0] = a;
    words[1] = b;
    words[2] = c;
    words[3] = d;
    words[4] = e;
    words[5] = f;
    words[6] = g;
    words[7] = h;
}

/// Writes four words that the bytes write over these, in one step as well.
#[inline(always)]
fn read_four(words: &mut [u16], bytes: &[u8])
    requires words { length words.old ≡ 4 }
    requires bytes { length bytes.now ≡ 8 }
    ensures { words.new ≡ words_in bytes.now }
{
    let a = read_word(bytes, 0);
    let b = read_word(bytes, 2);
    let c = read_word(bytes, 4);
    let d = read_word(bytes, 6);
    words[0] = a;
    words[1] = b;
    words[2] = c;
    words[3] = d;
}

/// Writes fewer than four words that the bytes write over these, one by one.
#[inline(always)]
fn read_last(words: &mut [u16], bytes: &[u8])
    requires size { length bytes.now ≡ 2 * length words.old }
    requires few { length words.old < 4 }
    ensures { words.new ≡ words_in bytes.now }
{
    let count = words.len();
    if count == 0 {
        return;
    }
    words[0] = read_word(bytes, 0);
    if count == 1 {
        return;
    }
    words[1] = read_word(bytes, 2);
    if count == 2 {
        return;
    }
    words[2] = read_word(bytes, 4);
}
