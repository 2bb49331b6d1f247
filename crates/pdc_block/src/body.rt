//! A block where it lies in a payload.
ghost use Rattle.std.specs.Prelude.{◌≡◌, ◌<◌, ◌↔◌, ℕ, List, IfOk, IfErr, IsOk, length, slice_index};
ghost use Rattle.pdc_cfg.specs.Shape.{word_count_of};
ghost use Rattle.pdc_block.specs.Block.{IsBody, body_len_of, words_in};

use crate::fault::BodyFault;
use crate::in_place::read_into;
use pdc_cfg::{Shape, read_word, words_are_their_bytes};

/// A block, lent from the payload that has it: its words are read where they are, and none is copied.
#[derive(Clone, Copy, Debug)]
pub struct Body<'a> {
    /// How many phasors, analog values and digital words there are.
    pub shape: Shape,
    /// The words, 3 to 107, each with its high byte first.
    pub bytes: &'a [u8],
    pub ghost whole: { length bytes.now ≡ body_len_of shape },
}

impl<'a> Body<'a> {
    /// The block of this shape that the bytes are. It takes no memory.
    ///
    /// # Errors
    ///
    /// `WrongLength` where no block of this shape has these bytes.
    #[inline]
    pub fn new(shape: Shape, bytes: &'a [u8]) -> Result<Body<'a>, BodyFault>
        ensures shape { IfOk result (λ body. body.shape ≡ shape) }
        ensures bytes { IfOk result (λ body. body.bytes.now ≡ bytes.now) }
        // The bytes are a body with the words that they write.
        ensures found { IfOk result (λ _. IsBody shape bytes.now (words_in bytes.now)) }
        // Else nothing is spelled so.
        ensures refused { IfErr result (λ _. (words : List ℕ) → IsBody shape bytes.now words → ⊥) }
    {
        words_are_their_bytes();
        if bytes.len() != 2 * shape.word_count() {
            return Err(BodyFault::WrongLength);
        }
        Ok(Body { shape, bytes })
    }

    /// The word at this place, in wire order.
    #[inline]
    pub fn word(&self, place: usize) -> u16
        requires { place < word_count_of self.now.shape }
        ensures { result ≡ slice_index (words_in self.now.bytes.now) place }
    {
        read_word(self.bytes, 2 * place)
    }

    /// Writes the words, in wire order, over these.
    #[inline]
    pub fn write_words(&self, words: &mut [u16])
        requires { length words.old ≡ word_count_of self.now.shape }
        ensures { words.new ≡ words_in self.now.bytes.now }
    {
        read_into(words, self.bytes);
    }
}
