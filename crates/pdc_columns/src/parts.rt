//! Blocks that lie one after the other in a payload, each with its column.
ghost use Rattle.std.specs.Prelude.{◌≡◌, ◌<◌, ◌≤◌, ◌*◌, ◌+◌, ◌++◌, ℕ, false, length, option_map};
ghost use Rattle.std.specs.Prelude.{take, true};
ghost use Rattle.std.specs.List.{AllByRecursion};
ghost use Rattle.std.specs.Option.{ForSome};
ghost use Rattle.pdc_row.specs.CellView.{CellView};
ghost use Rattle.pdc_row.specs.pdc_block.Block.{words_in};
ghost use Rattle.pdc_row.specs.pdc_frame.CheckWord.{check_word_of};
ghost use Rattle.pdc_row.specs.pdc_frame.Fronts.{front_of};
ghost use Rattle.pdc_row.specs.pdc_cfg.declared.shape.Shape.{Shape as ShapeData};
ghost use Rattle.pdc_columns.specs.Parts.{cut_cells, laid_out, parts_len};
ghost use Rattle.pdc_columns.specs.Taking.{any_second, body_cells_of, conflicts, with_cells};
ghost use Rattle.pdc_columns.specs.Twin.{twin_of};

use crate::MAX_COLUMNS;
use crate::blocks::Blocks;
use crate::columns::Columns;
use pdc_row::{Body, LentFront, Shape, Shapes, words_are_cut};

/// What a block of a payload is: its column, and its shape.
pub trait Part {
    ghost column_of: { Self → ℕ };

    ghost shape_of: { Self → ShapeData };

    /// The number of its column, from 0.
    fn column(&self) -> usize
        ensures { result ≡ column_of self.now };

    /// How many phasors, analog values and digital words there are.
    fn shape(&self) -> Shape
        ensures { result ≡ shape_of self.now };
}

/// Blocks that lie one after the other in these bytes.
#[derive(Drop)]
pub struct Cut<'a, P: Part> {
    /// What each block is.
    pub parts: &'a [P],
    /// The shapes in which they are laid out, one for each column, if they are.
    pub laid: Option<&'a Shapes>,
    /// The words of all, each with its high byte first.
    pub bytes: &'a [u8],
    /// The front and the check word of the frame in which they came, if they are known: they stand between the two.
    pub sent: Option<&'a LentFront<'a>>,
    /// Whether it was seen that they are those that the lowest lane holds which holds any, of the instant for which they are put.
    pub is_twin: bool,
    pub ghost told: { option_map (λ shapes. shapes.now) laid ≡
        laid_out P.column_of P.shape_of parts.now },
    pub ghost whole: { length bytes.now ≡ parts_len P.shape_of parts.now },
    pub ghost known: { ForSome sent (λ known. (front_of known.now).check ≡
        check_word_of ((front_of known.now).bytes ++ bytes.now)) },
}

impl<P: Part> Blocks for Cut<'_, P> {
    ghost cells = { λ cut quality. cut_cells P.column_of P.shape_of cut.parts.now quality
        (words_in cut.bytes.now) };

    ghost twin = { λ cut. twin_of cut.is_twin cut.bytes.now };

    /// Where they are laid out as the columns have them, they are put as a whole.
    fn put(&self, columns: &mut Columns, lane: usize, quality: u8, is_alone: bool) {
        if !columns.put_whole(lane, self, quality) {
            put_parts(self.parts, self.bytes, columns, lane, quality, is_alone);
        }
    }

    fn conflict(&self, columns: &Columns, lane: usize, quality: u8) -> bool {
        any_other_part(self.parts, self.bytes, columns, lane, quality)
    }
}

/// Puts each block into its column, in this lane. A call of its own, since it is seldom.
#[inline(never)]
fn put_parts<P: Part>(
    parts: &[P],
    bytes: &[u8],
    columns: &mut Columns,
    lane: usize,
    quality: u8,
    is_alone: bool,
)
    requires size { length bytes.now ≡ parts_len P.shape_of parts.now }
    requires columns { AllByRecursion (λ (cell : ℕ × CellView). cell.0 < length columns.old)
        (cut_cells P.column_of P.shape_of parts.now quality (words_in bytes.now)) }
    requires alone { is_alone ≡ true → (lane ≡ 0) × (any_second columns.old ≡ false) }
    ensures { columns.new ≡ with_cells lane (cut_cells P.column_of P.shape_of parts.now quality
        (words_in bytes.now)) columns.old }
{
    words_are_cut();
    let Some((part, later)) = parts.split_first() else {
        return;
    };
    let shape = part.shape();
    let (bytes, others) = bytes.split_at(2 * shape.word_count());
    let block = (part.column(), Body { shape, bytes });
    columns.put_one(lane, &block, quality, is_alone);
    put_parts(later, others, columns, lane, quality, is_alone)
}

/// Whether some block differs from what this lane of its column holds.
fn any_other_part<P: Part>(
    parts: &[P],
    bytes: &[u8],
    columns: &Columns,
    lane: usize,
    quality: u8,
) -> bool
    requires size { length bytes.now ≡ parts_len P.shape_of parts.now }
    requires columns { AllByRecursion (λ (cell : ℕ × CellView). cell.0 < length columns.now)
        (cut_cells P.column_of P.shape_of parts.now quality (words_in bytes.now)) }
    ensures { result ≡ conflicts lane (cut_cells P.column_of P.shape_of parts.now quality
        (words_in bytes.now)) columns.now }
{
    words_are_cut();
    let Some((part, later)) = parts.split_first() else {
        return false;
    };
    let shape = part.shape();
    let (bytes, others) = bytes.split_at(2 * shape.word_count());
    let block = Body { shape, bytes };
    columns.holds_other(part.column(), lane, &block)
        || any_other_part(later, others, columns, lane, quality)
}
