//! Rows that node 201 publishes, over a mark in memory.
ghost use Rattle.std.specs.Prelude.{◌≡◌};

use crate::trial::{DONE, NO_CALL, NO_MEMORY, State, Trial, make, state_of};
use crate::vectors::{BEFORE, FIRST, WORDS};
use arrayvec::ArrayVec;
use pdc_life::{Block, DueRow, Nominal, Output, RowBlocks, Shape, StreamId};
use pdc_mark::{Mark, ModelMark};
use pdc_publisher::{HeldBox, PublishFault, PublishedRow, Publisher};
use std::alloc::{AllocError, Global};
use std::io;

/// What node 201 says of itself.
pub const OUTPUT: Output = Output {
    id: StreamId { value: 201 },
    rate: 50,
    nominal: Nominal::Hz50,
    time_base: 1_000_000,
};

const ONE_PHASOR: Shape = Shape {
    phasors: 1,
    analogs: 0,
    digitals: 0,
};

/// The row of the instant, with a block of two PMUs, under the layout with this change number.
fn row(instant: u64, change: u32) -> DueRow
    ensures { result.instant ≡ instant }
{
    let mut blocks: ArrayVec<Block, 2> = ArrayVec::new();
    blocks.push(Block::from_words(ONE_PHASOR, &WORDS));
    blocks.push(Block::from_words(ONE_PHASOR, &WORDS));
    DueRow {
        instant,
        start: 1,
        change,
        quality: 0,
        blocks: RowBlocks::from_blocks(blocks.as_slice()),
    }
}

/// The row of the instant after the first one, under the layout before the first adoption, published.
///
/// # Errors
///
/// [`AllocError`] where there is no memory for it.
pub fn published(alloc: Global) -> Result<PublishedRow, AllocError> {
    let held = HeldBox::new(alloc, row(FIRST + 1, 0))?;
    let mut publisher = Publisher::new(ModelMark::new(1, 0), OUTPUT, 0);
    match publisher.publish_row(held) {
        Ok(published) => Ok(published),
        Err(_) => Err(AllocError),
    }
}

/// Whether it is the row of the first instant.
fn is_row(row: &DueRow) -> bool {
    row.instant == FIRST
        && row.start == 1
        && row.change == 1
        && row.quality == 0
        && row.blocks.len() == 2
        && row
            .blocks
            .to_blocks()
            .iter()
            .all(|block| block.words() == WORDS.as_slice())
}

/// A mark that stores this floor, and what frames are appended to.
#[derive(Drop)]
struct PublishTrial {
    floor: u64,
    out: Vec<u8>,
}

/// What a publisher answers, where it hands the row back whole that it does not publish.
fn told(answer: Result<(), PublishFault>) -> &'static str {
    match answer {
        Ok(()) => DONE,
        Err(PublishFault::NoMemory(row)) if is_row(&row) => NO_MEMORY,
        Err(PublishFault::NoMemory(_)) => "Z1 NoMemory with another row",
        Err(PublishFault::Device) => "M4 Device",
    }
}

impl Trial for PublishTrial {
    fn name(&self) -> &'static str {
        "Publisher::publish"
    }

    fn state(&self) -> State {
        state_of(&self.out, self.floor)
    }

    fn call(&mut self) -> &'static str {
        let mut publisher = Publisher::new(ModelMark::new(1, self.floor), OUTPUT, 0);
        if publisher.last() >= FIRST {
            return NO_CALL;
        }
        let answer = told(publisher.publish(row(FIRST, 1), &mut self.out).map(|_| ()));
        let (_, floor) = publisher.into_mark().stored();
        self.floor = floor;
        answer
    }

    fn renew(&mut self) -> Result<(), AllocError> {
        Ok(())
    }
}

/// A row is published.
pub fn play<R: Print>(rt: &R, alloc: Global) -> io::Result<()> {
    let mut trial = PublishTrial {
        floor: 0,
        out: Vec::from_slice(alloc, &BEFORE)?,
    };
    make(rt, &mut trial)
}
