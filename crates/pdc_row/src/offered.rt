//! A block that is offered to a table, wherever its words lie.
ghost use Rattle.std.specs.Prelude.{◌≡◌, length, nat_eq};
ghost use Rattle.std.specs.Cmp.Lexicographic.{pointwise};
ghost use Rattle.pdc_block.specs.Block.{body_len_of, words_in};
ghost use Rattle.pdc_block.specs.pdc_cfg.pdc_frame.Bytes.{AreBytes};
ghost use Rattle.pdc_row.specs.CellView.{BlockView};

use crate::block_copy::copy_block;
use arrayvec::ArrayVec;
use pdc_block::{Block, Body, MAX_WORDS, Shape, append_words};

/// The most bytes of a block.
pub const MAX_BODY_LEN: usize = 214;

/// What lies in a slice of bytes are bytes.
#[inline(always)]
pub fn are_bytes(bytes: &[u8])
    ensures { AreBytes bytes.now }
{}

/// A block that is offered to a table: kept in a [`Block`], or lent from the payload that brought it, as a [`Body`]. Its bytes are copied
/// once, to where the table keeps them.
pub trait Offered {
    /// The shape and the words.
    ghost view: { Self → BlockView };

    /// How many phasors, analog values and digital words there are.
    fn shape(&self) -> Shape
        ensures { result ≡ (view self.now).shape };

    /// Writes the words, in wire order, each with its high byte first, over these bytes.
    fn write_bytes(&self, bytes: &mut [u8])
        requires { length bytes.old ≡ body_len_of (view self.now).shape }
        ensures { words_in bytes.new ≡ (view self.now).words };

    /// Whether these bytes write the words.
    fn has_bytes(&self, bytes: &[u8]) -> bool
        requires { length bytes.now ≡ body_len_of (view self.now).shape }
        ensures { result ≡ pointwise nat_eq (words_in bytes.now) (view self.now).words };
}

impl Offered for Block {
    ghost use Rattle.pdc_row.specs.CellView.{block_view};

    ghost view = { block_view };

    #[inline]
    fn shape(&self) -> Shape {
        self.shape
    }

    fn write_bytes(&self, bytes: &mut [u8]) {
        let mut written: ArrayVec<u8, MAX_BODY_LEN> = ArrayVec::new();
        append_words(self.words(), &mut written);
        bytes.copy_from_slice(written.as_slice());
    }

    fn has_bytes(&self, bytes: &[u8]) -> bool {
        let mut words = [0; MAX_WORDS];
        let read = &mut words[..self.words().len()];
        let body = Body {
            shape: self.shape,
            bytes,
        };
        body.write_words(read);
        *read == *self.words()
    }
}

impl Offered for Body<'_> {
    ghost use Rattle.pdc_row.specs.CellView.{body_view};

    ghost view = { body_view };

    #[inline]
    fn shape(&self) -> Shape {
        self.shape
    }

    #[inline(always)]
    fn write_bytes(&self, bytes: &mut [u8]) {
        copy_block(bytes, self.bytes);
    }

    #[inline(always)]
    fn has_bytes(&self, bytes: &[u8]) -> bool {
        are_bytes(bytes);
        are_bytes(self.bytes);
        bytes == self.bytes
    }
}
