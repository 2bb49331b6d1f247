//! A frame that was published.
ghost use Rattle.std.specs.Prelude.{◌≡◌, ◌*◌, ◌<◌};
ghost use Rattle.pdc_frame.specs.declared.tag_limits.TheConstants.{SECONDS};
ghost use Rattle.pdc_row.specs.RowView.{row_view};
ghost use Rattle.pdc_publisher.specs.Published.{IsOfSomeRow, IsRowFrame};

use arrayvec::ArrayVec;
use pdc_row::{DueRow, MAX_ROW_LEN, Output, append_row};

/// The data frame of a row that was published (C37.118.2-2011, 6.3).
#[derive(Drop)]
pub struct Published {
    /// What the concentrator says of itself that published it.
    pub output: Output,
    /// The instant.
    pub instant: u64,
    /// The start number of the layout that the row closed under.
    pub start: u32,
    /// The change number of the layout that the row closed under.
    pub change: u32,
    /// The frame, at most 3454 bytes.
    pub bytes: ArrayVec<u8, MAX_ROW_LEN>,
    pub ghost of_some_row: { ∥ IsOfSomeRow output instant start change bytes.items ∥₁ },
}

/// The frame of a row.
pub fn frame_of(output: &Output, row: &DueRow) -> Published
    requires { row.now.instant < SECONDS * output.now.rate }
    ensures output { result.output ≡ output.now }
    ensures frame { IsRowFrame result.instant result.start result.change result.bytes.items
        output.now (row_view row.now) }
{
    row.blocks.are_whole();
    let mut bytes = ArrayVec::new();
    append_row(output, row, &mut bytes).unwrap();
    Published {
        output: *output,
        instant: row.instant,
        start: row.start,
        change: row.change,
        bytes,
    }
}
