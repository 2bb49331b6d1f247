//! An alignment from its making to a row, over both tables.
ghost use Rattle.std.specs.Prelude.{◌≡◌, ◌<◌};
ghost use Rattle.pdc_align.specs.Align.{HasSizes};

use super::same::is;
use pdc_align::{Alignment, Plan, Ticked};
use pdc_arrival::ColumnSection;
use pdc_block::Body;
use pdc_cfg::{SectionView, Shape};
use pdc_life::{MAX_PMUS, Outcome, Refusal, WaitKind};
use pdc_table::{RingTable, Table};
use try_script::SortedTable;

/// Two columns, a wait of 2 ticks, a window of 8, and no more than 32 ahead.
const PLAN: Plan = Plan {
    wait: 2,
    wait_kind: WaitKind::Relative,
    window: 8,
    ahead: 32,
    columns: 2,
    lanes: 1,
};

/// Offers a block of three words with this FREQ in the stream's own column.
fn put<T: Table>(alignment: &mut Alignment<T>, stream: usize, instant: u64, freq: u16) -> Outcome
    requires sizes { HasSizes 2 1 alignment.old.state }
    requires stream { stream < 2 }
    ensures { HasSizes 2 1 alignment.new.state }
{
    let [high, low] = freq.to_be_bytes();
    let body = Body {
        shape: Shape::default(),
        bytes: &[0, 0, high, low, 0, 0],
    };
    alignment.put(stream, instant, &[(stream, body)], 3)
}

/// A section of count 0 comes for the first column, and is adopted; its data closes with the next tick.
#[test]
fn to_a_row(rt: HostRuntime) {
    let Ok(mut alignment) = Alignment::<SortedTable>::new(
        rt.alloc(),
        PLAN,
        1,
        100,
        &[0; MAX_PMUS],
        100,
    ) else {
        panic!(&rt; "memory");
    };
    alignment.hold(&[ColumnSection {
        column: 0,
        section: SectionView::default(),
    }]);
    let adopted = alignment.tick(100, &[0; MAX_PMUS]);
    is!(&rt; adopted, Ticked { closed: 0, change: Some(1), used_up: false });
    is!(&rt; put(&mut alignment, 0, 101, 7), Outcome::Taken);
    is!(&rt; put(&mut alignment, 0, 101, 8), Outcome::Refused(Refusal::Conflict));
    is!(&rt; put(&mut alignment, 1, 133, 7), Outcome::Refused(Refusal::Ahead));
    is!(&rt; put(&mut alignment, 1, 109, 7), Outcome::Refused(Refusal::OutOfWindow));
    let closed = alignment.tick(101, &[0; MAX_PMUS]);
    is!(&rt; closed, Ticked { closed: 1, change: None, used_up: false });
    let Some(row) = alignment.pop_due() else {
        panic!(&rt; "a row waits");
    };
    is!(&rt; (row.instant, row.start, row.change, row.quality), (101, 1, 1, 3));
    is!(&rt; row.blocks.len(), 1);
    is!(&rt; put(&mut alignment, 0, 101, 7), Outcome::Refused(Refusal::Late));
}

/// The same with two lanes.
const TWO_LANES: Plan = Plan {
    wait: 2,
    wait_kind: WaitKind::Relative,
    window: 8,
    ahead: 32,
    columns: 2,
    lanes: 2,
};

/// With two lanes an instant waits for both streams from the start. A section below the opening count of its column is not held, and
/// that count waits to be stored.
#[test]
fn from_two_streams(rt: HostRuntime) {
    let mut counts = [0; MAX_PMUS];
    counts[1] = 5;
    let Ok(mut alignment) = Alignment::<RingTable>::new(rt.alloc(), TWO_LANES, 1, 100, &counts, 100)
    else {
        panic!(&rt; "memory");
    };
    alignment.hold(&[ColumnSection {
        column: 1,
        section: SectionView::default(),
    }]);
    is!(&rt; alignment.held(1).is_none(), true);
    is!(&rt; alignment.waiting(), counts);
    is!(&rt; alignment.put(0, 101, &[], 0), Outcome::Taken);
    is!(&rt; alignment.tick(101, &counts).closed, 0);
    is!(&rt; alignment.put(1, 101, &[], 0), Outcome::Taken);
    is!(&rt; alignment.tick(101, &counts).closed, 1);
    is!(&rt; alignment.pop_due().is_some(), true);
}
