//! A row that was published.
ghost use Rattle.std.specs.Prelude.{◌≡◌, ◌++◌};
ghost use Rattle.pdc_row.specs.KeptBlocks.{bytes_of};
ghost use Rattle.pdc_row.specs.Layout.{wire_of};
ghost use Rattle.pdc_row.specs.RowView.{row_view};
ghost use Rattle.pdc_publisher.specs.Published.{Fits};

use pdc_memory::HeldBox;
use pdc_row::{DueRow, Output, RowEnds};

/// A row that was published. It is its data frame (C37.118.2-2011, 6.3) where it is: the blocks stand at their places, with room for what stands
/// before and behind them.
#[derive(Drop)]
pub struct PublishedRow {
    /// What the concentrator says of itself that published it.
    pub output: Output,
    pub(crate) row: HeldBox<DueRow>,
    pub(crate) ends: RowEnds,
    pub(crate) ghost framed: { ends.front ++ (bytes_of row.value.blocks ++ ends.check) ≡
        wire_of output (row_view row.value) },
    pub ghost fits: { ∥ Fits output (row_view row.value) ∥₁ },
}
