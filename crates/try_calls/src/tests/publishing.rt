//! Rows that node 201 publishes, over a mark in memory.
ghost use Rattle.std.specs.Prelude.{◌≡◌};

use super::same::is;
use super::vectors::BOTH;
use arrayvec::ArrayVec;
use pdc_block::Block;
use pdc_cfg::Shape;
use pdc_mark::{Mark, ModelMark};
use pdc_publisher::{HeldBox, PublishFault, Publisher};
use pdc_row::{DueRow, Nominal, Output, RowBlocks, StreamId};

/// Node 201: 50 Hz, 50 frames a second and TIME_BASE 1000000.
const NODE_201: Output = Output {
    id: StreamId { value: 201 },
    rate: 50,
    nominal: Nominal::Hz50,
    time_base: 1_000_000,
};

const ONE_PHASOR: Shape = Shape {
    phasors: 1,
    analogs: 0,
    digitals: 0,
};

/// The instant of the first row.
const FIRST: u64 = 57_478_860_001;

/// The row of the instant, with the stamp (1, 1) and the data of PMU 11 and PMU 12.
fn row(instant: u64) -> DueRow
    ensures { result.instant ≡ instant }
{
    let mut blocks: ArrayVec<Block, 2> = ArrayVec::new();
    blocks.push(Block::from_words(ONE_PHASOR, &[0x0000, 0x392B, 0x0000, 0x09C4, 0x0000]));
    blocks.push(Block::from_words(ONE_PHASOR, &[0x0000, 0x1388, 0xEC78, 0xFFFE, 0x0000]));
    DueRow {
        instant,
        start: 1,
        change: 1,
        quality: 0,
        blocks: RowBlocks::from_blocks(blocks.as_slice()),
    }
}

/// With ten instants reserved ahead, the first row stores and the next does not.
#[test]
fn reserved_ahead(rt: HostRuntime) {
    let mut out = Vec::new(rt.alloc());
    let mut publisher = Publisher::new(ModelMark::new(1, 0), NODE_201, 10);
    let Ok(first) = publisher.publish(row(FIRST), &mut out) else {
        panic!(&rt; "the first row is published");
    };
    let Ok(second) = publisher.publish(row(FIRST + 1), &mut out) else {
        panic!(&rt; "the second row is published");
    };
    is!(&rt; first.bytes.as_slice(), BOTH.as_slice());
    is!(&rt; out.len(), 100);
    is!(&rt; (second.instant, publisher.last()), (FIRST + 1, FIRST + 1));
    is!(&rt; publisher.into_mark().stored(), (1, FIRST + 10));
}

/// A row that is handed over is published where it is, and comes back; of one that is lent the frame is another one.
#[test]
fn published_in_place(rt: HostRuntime) {
    let mut publisher = Publisher::new(ModelMark::new(1, 0), NODE_201, 10);
    let Ok(held) = HeldBox::new(rt.alloc(), row(FIRST)) else {
        panic!(&rt; "there is memory for a row");
    };
    let Ok(first) = publisher.publish_row(held) else {
        panic!(&rt; "the first row is published");
    };
    let mut first = first;
    is!(&rt; first.show(&mut (), |bytes, _| bytes == BOTH.as_slice()), true);
    is!(&rt; first.into_row().get().instant, FIRST);
    let Ok(second) = publisher.publish_lent(&row(FIRST + 1)) else {
        panic!(&rt; "the second row is published");
    };
    is!(&rt; (second.instant, second.bytes.len()), (FIRST + 1, 50));
    is!(&rt; publisher.last(), FIRST + 1);
    is!(&rt; publisher.into_mark().stored(), (1, FIRST + 10));
}

/// Where there is no room, the row comes back, and nothing is stored.
#[test]
fn no_room(rt: HostRuntime) {
    let mut publisher = Publisher::new(ModelMark::new(1, 0), NODE_201, 0);
    let refused = publisher.publish(row(FIRST), &mut ArrayVec::<u8, 49>::new());
    let Err(PublishFault::NoMemory(again)) = refused else {
        panic!(&rt; "49 bytes are no room");
    };
    is!(&rt; again.instant, FIRST);
    is!(&rt; publisher.last(), 0);
    is!(&rt; publisher.into_mark().stored(), (1, 0));
}
