//! Rows of a core are published by the publisher of its mark, whose device never fails.
ghost use Rattle.std.specs.Prelude.{◌≡◌, ◌+◌, ◌*◌, ◌<◌, ◌≤◌, ◌++◌, IfSome, false, length};
ghost use Rattle.std.specs.Prelude.{option_map};
ghost use Rattle.pdc_align.specs.Popped.{popped_after};
ghost use Rattle.pdc_history.specs.World.{reserved};
ghost use Rattle.pdc_row.specs.declared.row_frame.TheConstants.{MAX_ROW_LEN};
ghost use Rattle.pdc_row.specs.Layout.{wire_of};
ghost use Rattle.pdc_mark.specs.Stored.{with_instant, with_waiting};
ghost use Rattle.pdc_publisher.specs.Publisher.{has_failed_in, last_in, lead_in, mark_in};
ghost use Rattle.pdc_publisher.specs.Publisher.{output_in};
ghost use Rattle.pdc_row.specs.RowView.{row_view};
ghost use Rattle.pdc_station.specs.Station.{wire_of_some};
ghost use Rattle.pdc_frame.specs.declared.tag_limits.TheConstants.{SECONDS};

use pdc_frame::Buffer;
use pdc_life::MAX_PMUS;
use pdc_mark::Store;
use pdc_publisher::Publisher;
use pdc_row::{DueRow, Output};

/// Publishes a row, and appends its frame. It takes no memory.
fn publish_row<M: Store, B: Buffer>(
    publisher: &mut Publisher<M>,
    output: &Output,
    row: &DueRow,
    out: &mut B,
)
    requires works { has_failed_in publisher.old ≡ false }
    requires says { output.now ≡ output_in publisher.old }
    requires above { last_in publisher.old < row.now.instant }
    requires tagged { row.now.instant < SECONDS * output.now.rate }
    requires room { length (B.content out.old) + MAX_ROW_LEN ≤ B.capacity out.old }
    ensures bytes { B.content out.new ≡ B.content out.old ++ wire_of output.now (row_view row.now) }
    ensures mark { M.stored (mark_in publisher.new) ≡
        with_instant (lead_in publisher.old) row.now.instant (M.stored (mark_in publisher.old)) }
    ensures last { last_in publisher.new ≡ row.now.instant }
    ensures works { has_failed_in publisher.new ≡ false }
    ensures kept { (output_in publisher.new ≡ output_in publisher.old)
        × (lead_in publisher.new ≡ lead_in publisher.old) }
{
    let frame = publisher.publish_lent(row).unwrap();
    out.append_bytes(frame.bytes.as_slice());
}

/// Publishes the row, if there is one, and appends its frame. It takes no memory.
pub(crate) fn publish_some<M: Store, B: Buffer>(
    publisher: &mut Publisher<M>,
    output: &Output,
    row: &Option<DueRow>,
    out: &mut B,
)
    requires works { has_failed_in publisher.old ≡ false }
    requires says { output.now ≡ output_in publisher.old }
    requires above { IfSome row.now (λ row. last_in publisher.old < row.instant) }
    requires tagged { IfSome row.now (λ row. row.instant < SECONDS * output.now.rate) }
    requires room { length (B.content out.old) + MAX_ROW_LEN ≤ B.capacity out.old }
    ensures bytes { B.content out.new ≡ B.content out.old ++
        wire_of_some output.now (option_map row_view row.now) }
    ensures mark { M.stored (mark_in publisher.new) ≡
        reserved (lead_in publisher.old) (option_map row_view row.now)
        (M.stored (mark_in publisher.old)) }
    ensures last { last_in publisher.new ≡
        popped_after (option_map row_view row.now) (last_in publisher.old) }
    ensures works { has_failed_in publisher.new ≡ false }
    ensures kept { (output_in publisher.new ≡ output_in publisher.old)
        × (lead_in publisher.new ≡ lead_in publisher.old) }
{
    if let Some(row) = row {
        publish_row(publisher, output, row, out);
    }
}

/// Raises the mark to the counts that wait, where one of them is greater.
pub(crate) fn raise_to<M: Store>(publisher: &mut Publisher<M>, waiting: &[u16; MAX_PMUS])
    requires { has_failed_in publisher.old ≡ false }
    ensures mark { M.stored (mark_in publisher.new) ≡
        with_waiting waiting.now (M.stored (mark_in publisher.old)) }
    ensures works { has_failed_in publisher.new ≡ false }
    ensures kept { (output_in publisher.new ≡ output_in publisher.old)
        × (lead_in publisher.new ≡ lead_in publisher.old)
        × (last_in publisher.new ≡ last_in publisher.old) }
{
    publisher.raise(waiting).unwrap();
}
