//! A block: what one PMU says of one instant.
ghost use Rattle.std.specs.Prelude.{◌≡◌, ◌<◌, ◌≤◌, ◌^◌, ℕ, length, slice_index};
ghost use Rattle.arrayvec.specs.ArrayVec.{array_vec_len};
ghost use Rattle.pdc_cfg.specs.Shape.{word_count_of};

use arrayvec::ArrayVec;
use pdc_cfg::{MAX_WORDS, Shape};
use std::alloc::AllocError;

/// What one PMU says of one instant: its shape and its words in wire order (C37.118.2-2011, table 6), which are STAT,
/// two for each phasor, FREQ, DFREQ, the analog values and the digital words.
#[derive(Debug, Drop)]
pub struct Block {
    /// How many phasors, analog values and digital words there are.
    pub shape: Shape,
    /// The words, 3 to 107.
    pub words: ArrayVec<u16, MAX_WORDS>,
    pub ghost counted: { length words.items ≡ word_count_of shape },
    pub ghost words_fit: { (i : ℕ) → slice_index words.items i < 2 ^ 16 },
}

/// The block without values whose three words are 0.
impl Default for Block {
    ghost use Rattle.std.specs.Prelude.{[], ◌∷◌};
    ghost use Rattle.pdc_block.specs.Block.{words_of};

    ghost is_default = { λ block. (word_count_of block.shape ≡ 3)
        × (words_of block ≡ 0 ∷ 0 ∷ 0 ∷ []) };

    fn default() -> Block {
        let mut words = ArrayVec::new();
        words.push(0);
        words.push(0);
        words.push(0);
        Block {
            shape: Shape::default(),
            words,
        }
    }
}

impl Clone for Block {
    ghost use Rattle.pdc_block.specs.Block.{words_of};

    ghost is_clone = { λ block copy. (copy.shape ≡ block.shape)
        × (words_of copy ≡ words_of block) };

    ghost is_infallible = { λ _. Unit {0} };

    fn clone(&self) -> Result<Block, AllocError> {
        Ok(Block::from_words(self.shape, self.words()))
    }
}

impl Block {
    ghost use Rattle.pdc_block.specs.Block.{words_of};

    /// The block of this shape and these words.
    pub fn from_words(shape: Shape, words: &[u16]) -> Block
        requires { length words.now ≡ word_count_of shape }
        ensures shape { result.shape ≡ shape }
        ensures words { words_of result ≡ words.now }
    {
        let mut taken = ArrayVec::new();
        taken.try_extend_from_slice(words).unwrap();
        Block {
            shape,
            words: taken,
        }
    }

    /// The words in wire order.
    #[inline]
    pub fn words(&self) -> &[u16]
        ensures words { result.now ≡ words_of self.now }
        ensures count { length result.now ≡ word_count_of self.now.shape }
    {
        self.words.as_slice()
    }
}
