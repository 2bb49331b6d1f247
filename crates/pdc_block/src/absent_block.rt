//! The block that stands for a PMU whose data did not come.
ghost use Rattle.std.specs.Prelude.{◌≡◌, ◌↔◌, ◌<◌, ◌≤◌, ◌+◌, ◌++◌, length, replicate, IsTrue};
ghost use Rattle.arrayvec.specs.ArrayVec.{array_vec_len};
ghost use Rattle.pdc_block.specs.Block.{words_of};
ghost use Rattle.pdc_cfg.specs.Shape.{word_count_of};
ghost use Rattle.pdc_block.specs.AbsentBlock.{absent_of, IsAbsent};

use crate::block::Block;
use crate::in_place::WORDS_AT_ONCE;
use arrayvec::ArrayVec;
use pdc_cfg::{MAX_WORDS, Shape};

/// STAT of an absent block: class "test or absent", out of sync, and the greatest unlocked time and time quality code.
pub const ABSENT_STAT: u16 = 0xA1F0;

/// The value that stands for no value in a phasor, FREQ, DFREQ or an analog word.
pub const NO_VALUE: u16 = 0x8000;

/// The block of a PMU of this shape whose data did not come: STAT is `ABSENT_STAT`, both words of each
/// phasor, FREQ, DFREQ and each analog word are `NO_VALUE`, and each digital word is 0.
pub fn absent(shape: Shape) -> Block
    ensures shape { result.shape ≡ shape }
    ensures words { words_of result ≡ absent_of shape }
{
    let mut words = ArrayVec::new();
    words.push(ABSENT_STAT);
    push_times(&mut words, NO_VALUE, 2 * shape.phasors);
    words.push(NO_VALUE);
    words.push(NO_VALUE);
    push_times(&mut words, NO_VALUE, shape.analogs);
    push_times(&mut words, 0, shape.digitals);
    Block { shape, words }
}

/// Whether the block has exactly the words of `absent` of its shape, whoever sent it.
pub fn is_absent(block: &Block) -> bool
    ensures { IsTrue result ↔ IsAbsent block.now }
{
    are_absent(block.shape, block.words())
}

/// Whether these are the words of `absent` of the shape, wherever they lie.
pub fn are_absent(shape: Shape, words: &[u16]) -> bool
    requires { length words.now ≡ word_count_of shape }
    ensures { IsTrue result ↔ (words.now ≡ absent_of shape) }
{
    if words[0] != ABSENT_STAT {
        return false;
    }
    are_words_of_absent(shape, words)
}

/// The same. A call of its own, so that a look at a block that is present stays small.
#[inline(never)]
fn are_words_of_absent(shape: Shape, words: &[u16]) -> bool
    requires { length words.now ≡ word_count_of shape }
    ensures { IsTrue result ↔ (words.now ≡ absent_of shape) }
{
    if words[0] != ABSENT_STAT {
        return false;
    }
    let values = words.len() - usize::from(shape.digitals);
    are_all(&words[1..values], NO_VALUE) && are_all(&words[values..], 0)
}

/// Whether each of the words is this one: eight are compared at a step, and the last one by one.
fn are_all(words: &[u16], word: u16) -> bool
    ensures { IsTrue result ↔ (words.now ≡ replicate (length words.now) word) }
{
    if words.len() < WORDS_AT_ONCE {
        return words.iter().all(|each| *each == word);
    }
    let (front, behind) = words.split_at(WORDS_AT_ONCE);
    are_eight(front, word) && are_all(behind, word)
}

/// Whether each of eight words is this one: no test stands between two of them, so that they are compared in one step.
#[inline(always)]
fn are_eight(words: &[u16], word: u16) -> bool
    requires { length words.now ≡ 8 }
    ensures { IsTrue result ↔ (words.now ≡ replicate 8 word) }
{
    (words[0] == word)
        & (words[1] == word)
        & (words[2] == word)
        & (words[3] == word)
        & (words[4] == word)
        & (words[5] == word)
        & (words[6] == word)
        & (words[7] == word)
}

/// Appends the word so many times.
fn push_times(words: &mut ArrayVec<u16, 107>, word: u16, times: u8)
    requires { array_vec_len words.old + times ≤ 107 }
    ensures items { words.new.items ≡ words.old.items ++ replicate times word }
    ensures len { array_vec_len words.new ≡ array_vec_len words.old + times }
{
    for _ in 0..times {
        words.push(word);
    }
}
