//! The absent block of a shape, as bytes.
ghost use Rattle.std.specs.Prelude.{◌≡◌, ◌<◌, ◌≤◌, ◌∷◌, ◌-◌, ◌/◌, length, replicate, slice_set};
ghost use Rattle.pdc_block.specs.Block.{words_in};
ghost use Rattle.pdc_block.specs.declared.absent_block.TheConstants.{ABSENT_STAT, NO_VALUE};
ghost use Rattle.pdc_row.specs.CellView.{absent_view};

use crate::RowBlocks;
use crate::offered::MAX_BODY_LEN;
use pdc_block::{ABSENT_STAT, Body, NO_VALUE, Shape};

impl RowBlocks {
    /// Puts the absent block of a shape to a place. It is written as bytes at once, and no word is kept between.
    pub fn put_absent(&mut self, place: usize, shape: Shape)
        requires { place < length self.old }
        ensures { self.new ≡ slice_set self.old place (absent_view shape) }
    {
        let words = shape.word_count();
        let values = words - usize::from(shape.digitals);
        let mut room = [0; MAX_BODY_LEN];
        write_values(&mut room[..2 * values]);
        let bytes = &room[..2 * words];
        self.put(place, &Body { shape, bytes });
    }
}

/// Writes STAT, and behind it that there is no value.
fn write_values(bytes: &mut [u8])
    requires { 2 ≤ length bytes.old }
    ensures { words_in bytes.new ≡ ABSENT_STAT ∷ replicate ((length bytes.old - 2) / 2) NO_VALUE }
{
    let Some((stat, values)) = bytes.split_first_chunk_mut::<2>() else {
        return;
    };
    *stat = ABSENT_STAT.to_be_bytes();
    write_no_values(values);
}

/// Writes that there is no value over each word of these bytes.
fn write_no_values(bytes: &mut [u8])
    ensures { words_in bytes.new ≡ replicate (length bytes.old / 2) NO_VALUE }
{
    if let Some((word, later)) = bytes.split_first_chunk_mut::<2>() {
        *word = NO_VALUE.to_be_bytes();
        write_no_values(later);
    }
}
