//! Blocks, written as the payload of a data frame.
ghost use Rattle.std.specs.Prelude.{◌≡◌, ◌+◌, ◌*◌, ◌<◌, ◌≤◌, ◌++◌, ◌∷◌, [], drop, map, take};
ghost use Rattle.std.specs.Prelude.{length, sum_by, IsOk, OnOk, OnErr};
ghost use Rattle.pdc_block.specs.Block.{IsCut, words_of, shape_of, body_len_of, bytes_of_words};
ghost use Rattle.pdc_block.specs.Block.{bytes_of_blocks};

use crate::block::Block;
use crate::in_place::WORDS_AT_ONCE;
use pdc_cfg::{Buffer, MAX_WORDS};
use std::alloc::AllocError;

/// The bytes of the eight words from this place on, each with its high byte first.
#[inline]
fn eight_words(words: &[u16], at: usize) -> [u8; 16]
    requires { at + WORDS_AT_ONCE ≤ length words.now }
    ensures { result ≡ bytes_of_words (take 8 (drop at words.now)) }
{
    let a = words[at].to_be_bytes();
    let b = words[at + 1].to_be_bytes();
    let c = words[at + 2].to_be_bytes();
    let d = words[at + 3].to_be_bytes();
    let e = words[at + 4].to_be_bytes();
    let f = words[at + 5].to_be_bytes();
    let g = words[at + 6].to_be_bytes();
    let h = words[at + 7].to_be_bytes();
    [
        a[0], a[1], b[0], b[1], c[0], c[1], d[0], d[1], e[0], e[1], f[0], f[1], g[0], g[1], h[0],
        h[1],
    ]
}

/// The bytes of the four words from this place on, each with its high byte first.
#[inline]
fn four_words(words: &[u16], at: usize) -> [u8; 8]
    requires { at + 4 ≤ length words.now }
    ensures { result ≡ bytes_of_words (take 4 (drop at words.now)) }
{
    let a = words[at].to_be_bytes();
    let b = words[at + 1].to_be_bytes();
    let c = words[at + 2].to_be_bytes();
    let d = words[at + 3].to_be_bytes();
    [a[0], a[1], b[0], b[1], c[0], c[1], d[0], d[1]]
}

/// Appends fewer than four words, one by one.
fn append_few_words<B: Buffer>(words: &[u16], out: &mut B)
    requires few { length words.now < 4 }
    requires room { length (B.content out.old) + 2 * length words.now ≤ B.capacity out.old }
    ensures content { B.content out.new ≡ B.content out.old ++ bytes_of_words words.now }
    ensures len { length (B.content out.new) ≡ length (B.content out.old) + 2 * length words.now }
    ensures in_place { B.capacity out.new ≡ B.capacity out.old }
{
    let Some((first, behind)) = words.split_first() else {
        return;
    };
    out.append_few(&first.to_be_bytes());
    let Some((second, behind)) = behind.split_first() else {
        return;
    };
    out.append_few(&second.to_be_bytes());
    if let Some((third, _)) = behind.split_first() {
        out.append_few(&third.to_be_bytes());
    }
}

/// Appends the words, which are fewer than eight: four at once, and the last ones one by one.
fn append_last<B: Buffer>(words: &[u16], out: &mut B)
    requires few { length words.now < 8 }
    requires room { length (B.content out.old) + 2 * length words.now ≤ B.capacity out.old }
    ensures content { B.content out.new ≡ B.content out.old ++ bytes_of_words words.now }
    ensures len { length (B.content out.new) ≡ length (B.content out.old) + 2 * length words.now }
    ensures in_place { B.capacity out.new ≡ B.capacity out.old }
{
    let mut rest = words;
    if words.len() >= 4 {
        out.append_few(&four_words(words, 0));
        rest = &words[4..];
    }
    append_few_words(rest, out);
}

/// Appends the words, each with its high byte first. It takes no memory: there is room for them.
pub fn append_words<B: Buffer>(words: &[u16], out: &mut B)
    requires { length (B.content out.old) + 2 * length words.now ≤ B.capacity out.old }
    ensures content { B.content out.new ≡ B.content out.old ++ bytes_of_words words.now }
    ensures len { length (B.content out.new) ≡ length (B.content out.old) + 2 * length words.now }
    ensures in_place { B.capacity out.new ≡ B.capacity out.old }
{
    let mut at = 0;
    while words.len() - at >= WORDS_AT_ONCE {
        out.append_few(&eight_words(words, at));
        at += WORDS_AT_ONCE;
    }
    append_last(&words[at..], out);
}

/// The bytes that the blocks take, one after the other: 6 to 214 each.
pub fn joined_len(blocks: &[Block]) -> usize
    ensures value { result ≡ sum_by (λ block. body_len_of (shape_of block)) blocks.now }
    ensures bytes { result ≡ length (bytes_of_blocks (map words_of blocks.now)) }
    ensures most { result ≤ 2 * MAX_WORDS * length blocks.now }
{
    // A PMU sends one: it is asked apart, without what leads into a loop.
    if blocks.len() == 1 {
        return 2 * blocks[0].words().len();
    }
    let mut len = 0;
    for block in blocks {
        len += 2 * block.words().len();
    }
    len
}

/// Appends the bytes of the blocks, one after the other. It takes no memory: there is room for them.
pub fn append_blocks<B: Buffer>(blocks: &[Block], out: &mut B)
    requires { length (B.content out.old) +
        sum_by (λ block. body_len_of (shape_of block)) blocks.now ≤ B.capacity out.old }
    ensures content { B.content out.new ≡ B.content out.old ++
        bytes_of_blocks (map words_of blocks.now) }
    ensures in_place { B.capacity out.new ≡ B.capacity out.old }
{
    for block in blocks {
        append_words(block.words(), out);
    }
}

/// Appends the bytes of the blocks, one after the other, as the payload of a data frame has them.
///
/// # Errors
///
/// [`AllocError`] where `out` has no room and gets none.
pub fn join<B: Buffer>(blocks: &[Block], out: &mut B) -> Result<(), AllocError>
    ensures ok { OnOk result (B.content out.new ≡ B.content out.old ++
        bytes_of_blocks (map words_of blocks.now)) }
    // Under their shapes these bytes are cut into the words of the blocks, and `payloads_are_cut_in_one_way`.
    ensures cut { IsCut (map shape_of blocks.now) (bytes_of_blocks (map words_of blocks.now))
        (map words_of blocks.now) }
    // It fails only where there was no room, and then nothing is appended.
    ensures err { OnErr result ((B.content out.new ≡ B.content out.old)
        × (B.capacity out.new ≡ B.capacity out.old)) }
    ensures room { length (B.content out.old) +
        sum_by (λ block. body_len_of (shape_of block)) blocks.now ≤ B.capacity out.old →
        IsOk result }
    // A request for all their bytes was refused.
    ensures refused { OnErr result (B.refused out.new
        (sum_by (λ block. body_len_of (shape_of block)) blocks.now)) }
    // Where there was room, it takes no memory.
    ensures in_place { length (B.content out.old) +
        sum_by (λ block. body_len_of (shape_of block)) blocks.now ≤ B.capacity out.old
        → B.capacity out.new ≡ B.capacity out.old }
    ensures capacity { B.capacity out.old ≤ B.capacity out.new }
{
    out.make_room(joined_len(blocks))?;
    append_blocks(blocks, out);
    Ok(())
}
