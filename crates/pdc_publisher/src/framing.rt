//! Rows are published where they are.
ghost use Rattle.std.specs.Prelude.{◌≡◌, ◌*◌, ◌<◌};
ghost use Rattle.pdc_frame.specs.declared.tag_limits.TheConstants.{SECONDS};
ghost use Rattle.pdc_row.specs.RowView.{row_view};
ghost use Rattle.pdc_row.specs.Shown.{MayBeShown, ShowsAt};
ghost use Rattle.pdc_publisher.specs.PublishedRow.{frame_in, row_of};

use crate::published_row::PublishedRow;
use pdc_memory::HeldBox;
use pdc_row::{DueRow, LastRow, Output, RowEnds, ends_of};

/// The row as its data frame. What helps the next one is kept in `last`.
pub(crate) fn framed(output: &Output, row: HeldBox<DueRow>, last: &mut LastRow) -> PublishedRow
    requires { row.value.instant < SECONDS * output.now.rate }
    ensures output { result.output ≡ output.now }
    ensures row { row_of result ≡ row_view row.value }
{
    let mut row = row;
    row.get().blocks.are_whole();
    let mut ends = RowEnds::blank();
    ends_of(output, row.get_mut(), last, &mut ends);
    PublishedRow {
        output: *output,
        row,
        ends,
    }
}

impl PublishedRow {
    /// The instant.
    pub fn instant(&self) -> u64
        ensures { result ≡ (row_of self.now).instant }
    {
        self.row.get().instant
    }

    /// The start number of the layout that the row closed under.
    pub fn start(&self) -> u32
        ensures { result ≡ (row_of self.now).start }
    {
        self.row.get().start
    }

    /// The change number of the layout that the row closed under.
    pub fn change(&self) -> u32
        ensures { result ≡ (row_of self.now).change }
    {
        self.row.get().change
    }

    /// Shows the frame, as it stands there, at most 3454 bytes, with a value that is lent. It takes no memory.
    pub fn show<V, R, F: FnOnce(&[u8], &mut V) -> R>(&mut self, to: &mut V, with: F) -> R
        requires { MayBeShown F.FnOnce with (frame_in self.old) to.old }
        ensures same { (self.new.output ≡ self.old.output) × (row_of self.new ≡ row_of self.old) }
        ensures shows { ShowsAt F.FnOnce with (frame_in self.old) to.old result to.new }
    {
        self.row.get_mut().blocks.show_framed(&self.ends, to, with)
    }

    /// The row again, with its memory.
    pub fn into_row(self) -> HeldBox<DueRow>
        ensures { row_view result.value ≡ row_of self }
    {
        self.row
    }
}
