//! The data frames of a trial, and how they come to be kept.
ghost use Rattle.std.specs.Prelude.{◌≡◌, ◌<◌, ◌≤◌};
ghost use Rattle.pdc_server.specs.Stream.{stream_of};

use pdc_frame::StreamId;
use pdc_mark::ModelMark;
use pdc_ports::MemorySink;
use pdc_publisher::{HeldBox, PublishedRow, Publisher};
use pdc_row::{DueRow, Nominal, Output, RowBlocks};
use pdc_server::{Naming, Outlet, Recent, RememberingSink};
use std::alloc::Global;
use std::io;
use std::sync::Wait;
use std::sync::atomic::{AtomicU64, Ordering};

/// The stream of node A.
pub const ID: StreamId = StreamId { value: 201 };

/// How many bytes a data frame of a trial has: 14 before the payload, the own block, and the check word.
pub const DATA_LEN: usize = 30;

/// What the frames of a stream say.
fn output_of(id: StreamId) -> Output
    ensures { result.rate ≡ 50 }
{
    Output {
        id,
        rate: 50,
        nominal: Nominal::Hz50,
        time_base: 1_000_000,
    }
}

/// What the frames of node A say.
pub fn node_a() -> Output {
    output_of(ID)
}

/// A row of this instant without blocks, under the layout before the first adoption of the first life, published.
fn published(alloc: Global, id: StreamId, instant: u16) -> io::Result<PublishedRow> {
    let instant = u64::from(instant);
    let row = DueRow {
        instant,
        start: 1,
        change: 0,
        quality: 15,
        blocks: RowBlocks::new(),
    };
    let held = HeldBox::new(alloc, row)?;
    let mut publisher = Publisher::new(ModelMark::new(1, 0), output_of(id), 0);
    if publisher.last() < instant {
        if let Ok(row) = publisher.publish_row(held) {
            return Ok(row);
        }
    }
    Err(io::Error::from(io::ErrorKind::InvalidInput))
}

/// Sends a data frame of this stream and instant by a sink that keeps it.
pub fn send_data<N: Naming, R: Wait>(
    rt: &R,
    alloc: Global,
    recent: &Recent<N>,
    output: &Output,
    id: StreamId,
    instant: u16,
) -> io::Result<()>
    requires named { N.stream ≡ stream_of output.now }
{
    let unkept = AtomicU64::new(0);
    let inner = MemorySink::new(alloc);
    let mut sink = RememberingSink::new(rt, alloc, recent, *output, &unkept, inner);
    let mut row = published(alloc, id, instant)?;
    match sink.send_data(&mut row) {
        Ok(()) if unkept.load(Ordering::Relaxed) == 0 => Ok(()),
        _ => Err(io::Error::from(io::ErrorKind::OutOfMemory)),
    }
}
