//! Which blocks count as data that came.
ghost use Rattle.std.specs.Prelude.{◌≡◌, length, true};
ghost use Rattle.pdc_block.specs.pdc_cfg.Shape.{word_count_of};
ghost use Rattle.pdc_block.specs.Block.{body_len_of};
ghost use Rattle.pdc_row.specs.CellView.{block_view, is_present};
ghost use Rattle.pdc_row.specs.KeptBlocks.{written_by};

use pdc_block::{ABSENT_STAT, Block, Body, MAX_WORDS, Shape, are_absent, read_word};

/// Whether the block is any other than the absent block of its shape, whoever sent it.
pub fn is_present(block: &Block) -> bool
    ensures { result ≡ is_present (block_view block.now) }
{
    are_present(block.shape, block.words())
}

/// Whether these words of a block of the shape are any other than those of its absent block.
fn are_present(shape: Shape, words: &[u16]) -> bool
    requires { length words.now ≡ word_count_of shape }
    ensures { result ≡ is_present (record { shape = shape; words = words.now }) }
{
    !are_absent(shape, words)
}

/// Whether the block of the shape that these bytes write is any other than the absent one: nearly always its first word tells.
#[inline(always)]
pub fn has_data(shape: Shape, bytes: &[u8]) -> bool
    requires { length bytes.now ≡ body_len_of shape }
    ensures { result ≡ is_present (written_by shape bytes.now) }
{
    has_other_stat(shape, bytes) || has_other_words(shape, bytes)
}

/// Whether the first word of these bytes tells that they are no absent block of the shape.
#[inline(always)]
pub(crate) fn has_other_stat(shape: Shape, bytes: &[u8]) -> bool
    requires { length bytes.now ≡ body_len_of shape }
    ensures { result ≡ true → is_present (written_by shape bytes.now) ≡ true }
{
    let _ = shape;
    read_word(bytes, 0) != ABSENT_STAT
}

/// The same. A call of its own, so that a look at a block that is present stays small.
#[inline(never)]
fn has_other_words(shape: Shape, bytes: &[u8]) -> bool
    requires { length bytes.now ≡ body_len_of shape }
    ensures { result ≡ is_present (written_by shape bytes.now) }
{
    let mut words = [0; MAX_WORDS];
    let read = &mut words[..shape.word_count()];
    Body { shape, bytes }.write_words(read);
    are_present(shape, read)
}
