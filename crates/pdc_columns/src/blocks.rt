//! The blocks of a frame, as they are put into a row, wherever their words lie.
ghost use Rattle.std.specs.Prelude.{◌≡◌, ℕ, List, None, Option, false, true};
ghost use Rattle.pdc_row.specs.CellView.{CellView};
ghost use Rattle.pdc_columns.specs.Taking.{HaveColumns, any_second, cells_in, conflicts};
ghost use Rattle.pdc_columns.specs.Taking.{with_cells};
ghost use Rattle.pdc_columns.specs.Twin.{IsTwin};

use crate::columns::Columns;
use pdc_row::Offered;

/// The blocks of a frame, each with its column.
pub trait Blocks {
    // The cells that they make, with the time quality byte of the frame.
    ghost cells: { Self → ℕ → List (ℕ × CellView) };

    // Their bytes, where it is known that these are those of the blocks that the lowest lane holds which holds any.
    ghost twin: { Self → Option (List ℕ) };

    /// Puts copies of them into their columns, in this lane. They are alone where it is known that the lane is 0, and that no column holds
    /// a cell in lane 1.
    fn put(&self, columns: &mut Columns, lane: usize, quality: u8, is_alone: bool)
        requires columns { HaveColumns (cells self.now quality) columns.old }
        requires alone { is_alone ≡ true → (lane ≡ 0) × (any_second columns.old ≡ false) }
        requires twin { IsTwin (twin self.now) columns.old }
        ensures { columns.new ≡ with_cells lane (cells self.now quality) columns.old };

    /// Whether some of them differs from what this lane of its column holds; a lane that holds nothing does not.
    fn conflict(&self, columns: &Columns, lane: usize, quality: u8) -> bool
        requires { HaveColumns (cells self.now quality) columns.now }
        ensures { result ≡ conflicts lane (cells self.now quality) columns.now };
}

/// Blocks in a list, each beside its column.
#[derive(Drop)]
pub struct Listed<'a, B> {
    /// Column and block.
    pub cells: &'a [(usize, B)],
}

impl<B: Offered> Blocks for Listed<'_, B> {
    ghost cells = { λ listed quality. cells_in B.view listed.cells.now quality };

    ghost twin = { λ _. None };

    #[inline(always)]
    fn put(&self, columns: &mut Columns, lane: usize, quality: u8, is_alone: bool) {
        columns.put_cells(lane, self.cells, quality, is_alone);
    }

    fn conflict(&self, columns: &Columns, lane: usize, _quality: u8) -> bool {
        columns.any_other(lane, self.cells)
    }
}
