//! The blocks of a frame, listed where they lie in its payload.
ghost use Rattle.std.specs.Prelude.{◌≡◌, ◌+◌, ◌++◌, ◌≤◌, ℕ, length, take};
ghost use Rattle.pdc_open_row.specs.pdc_columns.Parts.{cut_cells, parts_len};
ghost use Rattle.pdc_open_row.specs.pdc_columns.Taking.{body_cells_of};
ghost use Rattle.pdc_open_row.specs.pdc_block.Block.{words_in};

use crate::MAX_COLUMNS;
use pdc_open_row::{Body, Part, Shape, words_are_cut};

/// Room for the blocks of a frame, each lent from the payload, with its column.
pub type Room<'a> = [(usize, Body<'a>); MAX_COLUMNS];

/// Room in which no block was written yet.
pub fn new_room<'a>() -> Room<'a>
    ensures { length result ≡ MAX_COLUMNS }
{
    let blank = Body {
        shape: Shape::default(),
        bytes: &[0; 6],
    };
    [(0, blank); MAX_COLUMNS]
}

/// Writes the blocks, which lie in these bytes, behind so many that are there, and answers how many there are then.
pub fn cut_bodies<'a, P: Part>(
    parts: &[P],
    bytes: &'a [u8],
    bodies: &mut [(usize, Body<'a>)],
    count: usize,
) -> usize
    requires room { count + length parts.now ≤ length bodies.old }
    requires size { length bytes.now ≡ parts_len P.shape_of parts.now }
    ensures cells { (quality : ℕ) → body_cells_of (take result bodies.new) quality
        ≡ body_cells_of (take count bodies.old) quality ++
        cut_cells P.column_of P.shape_of parts.now quality (words_in bytes.now) }
    ensures len { length bodies.new ≡ length bodies.old }
    ensures grown { result ≤ length bodies.old }
{
    words_are_cut();
    let Some((part, later)) = parts.split_first() else {
        return count;
    };
    let shape = part.shape();
    let (block, others) = bytes.split_at(2 * shape.word_count());
    bodies[count] = (
        part.column(),
        Body {
            shape,
            bytes: block,
        },
    );
    cut_bodies(later, others, bodies, count + 1)
}
