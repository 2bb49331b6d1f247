//! The alignment table: 16 streams of one PMU each.
ghost use Rattle.std.specs.Prelude.{◌≡◌, ◌<◌, ◌≤◌};

use arrayvec::ArrayVec;
use pdc_block::Body;
use pdc_cfg::Shape;
use pdc_table::{DueRow, HeldBox, RingTable, RowLayout, Table, WaitRule, spare_row};
use std::alloc::{AllocError, Global};
use try_script::SortedTable;

const STREAMS: usize = 16;

const SHAPE: Shape = Shape {
    phasors: 8,
    analogs: 4,
    digitals: 1,
};

/// The bytes of a body of this shape.
const BODY_LEN: usize = 48;

/// For so many instants the streams have bodies of their own.
const INSTANTS: u64 = 4;

/// A table of 16 streams, one for each column.
#[derive(Drop)]
struct Aligner<'a, T: Table> {
    table: T,
    layout: RowLayout,
    /// The bodies that the streams send for four instants, one behind the other: they lie in memory, as those of datagrams do.
    bodies: &'a [u8],
    /// Each row is popped into this one.
    row: HeldBox<DueRow>,
    mixed: u64,
    ghost one_lane: { (T.content table).lanes ≡ 1 },
    ghost counted: { (T.content table).columns ≡ 16 },
}

impl<'a, T: Table> Aligner<'a, T> {
    fn new(alloc: Global, window: u64, bodies: &'a [u8]) -> Result<Self, AllocError>
        requires least { 8 ≤ window }
        requires most { window ≤ 256 }
    {
        let mut shapes = ArrayVec::new();
        for _ in 0..STREAMS {
            if !shapes.is_full() {
                shapes.push(Some(SHAPE));
            }
        }
        Ok(Aligner {
            table: T::new(alloc, window, STREAMS, 1, 0)?,
            layout: RowLayout::new(1, 0, shapes),
            bodies,
            row: spare_row(alloc)?,
            mixed: 0,
        })
    }

    fn require(&mut self) {
        for stream in 0..STREAMS {
            self.table.require(stream, true);
        }
    }

    /// The body that the stream sends for the instant.
    #[inline]
    fn body(&self, stream: usize, instant: u64) -> Option<Body<'a>>
        requires { stream < 16 }
    {
        let shape = (*self.layout.shapes.as_slice().get(stream)?)?;
        let at = ((instant % INSTANTS) as usize * STREAMS + stream) * BODY_LEN;
        if self.bodies.len() < at + BODY_LEN {
            return None;
        }
        Body::new(shape, &self.bodies[at..at + BODY_LEN]).ok()
    }

    fn put(&mut self, stream: usize, instant: u64)
        requires { stream < 16 }
    {
        let Some(body) = self.body(stream, instant) else {
            return;
        };
        let outcome = self.table.put_bodies(stream, instant, &[(stream, body)], 0);
        self.mixed = self.mixed.rotate_left(1) ^ outcome as u64;
    }

    fn tick(&mut self, wait: u64) {
        let closed = self.table.tick(WaitRule::Ticks(wait), &self.layout);
        for _ in 0..closed {
            self.pop();
        }
    }

    fn pop(&mut self) {
        if self.table.pop_into(&mut self.row) {
            self.mixed = self.mixed.rotate_left(1) ^ mix(self.row.get());
        }
    }
}

/// A number that depends on the row: its instant, its quality and the last byte of its last block. What is measured is the table, and not a
/// sum of all words.
fn mix(row: &DueRow) -> u64 {
    let mut mixed = row.instant ^ u64::from(row.quality) << 60;
    if let Some(byte) = row.blocks.bytes().last() {
        mixed = mixed.wrapping_add(u64::from(*byte));
    }
    mixed
}

/// For each instant 16 puts, of which the last is this much behind, and 4 ticks.
fn steady<T: Table>(
    alloc: Global,
    window: u64,
    behind: u64,
    instants: u32,
    bodies: &[u8],
) -> Result<u64, AllocError>
    requires least { 8 ≤ window }
    requires most { window ≤ 256 }
{
    let mut aligner = Aligner::<T>::new(alloc, window, bodies)?;
    aligner.require();
    for instant in 0..instants {
        let instant = u64::from(instant) + 1;
        for stream in 0..STREAMS - 1 {
            aligner.put(stream, instant);
        }
        aligner.put(STREAMS - 1, instant.saturating_sub(behind));
        for _ in 0..4 {
            aligner.tick(1000);
        }
    }
    Ok(aligner.mixed)
}

/// Fills the window with 16 puts an instant, in rising order, and closes it with one tick, so many times.
fn fill<T: Table>(alloc: Global, window: u64, rounds: u32, bodies: &[u8]) -> Result<u64, AllocError>
    requires least { 8 ≤ window }
    requires most { window ≤ 256 }
{
    let mut aligner = Aligner::<T>::new(alloc, window, bodies)?;
    aligner.require();
    for round in 0..rounds {
        for place in 0..window {
            let instant = u64::from(round) * window + place + 1;
            for stream in 0..STREAMS {
                aligner.put(stream, instant);
            }
        }
        aligner.tick(1);
    }
    Ok(aligner.mixed)
}

/// Runs a sorted table for so many instants: for each 16 puts, of which the last is `behind` instants behind, 4 ticks, and the
/// rows that close taken out; 0 where the window is not 8 to 256 or memory runs out. `bodies` has those of four instants, each of 16 streams.
#[unsafe(no_mangle)]
pub extern "C" fn dagluwis_table_steady(
    alloc: Global,
    window: u64,
    behind: u64,
    instants: u32,
    bodies: &[u8],
) -> u64 {
    if window < 8 || window > 256 {
        return 0;
    }
    steady::<SortedTable>(alloc, window, behind, instants, bodies).unwrap_or(0)
}

/// Fills the window of a sorted table and closes it so many times: 16 puts an instant, one tick, and the rows taken out; 0
/// where the window is not 8 to 256 or memory runs out. `bodies` has those of four instants, each of 16 streams.
#[unsafe(no_mangle)]
pub extern "C" fn dagluwis_table_fill(
    alloc: Global,
    window: u64,
    rounds: u32,
    bodies: &[u8],
) -> u64 {
    if window < 8 || window > 256 {
        return 0;
    }
    fill::<SortedTable>(alloc, window, rounds, bodies).unwrap_or(0)
}

/// As `dagluwis_table_steady`, with a table kept as a ring.
#[unsafe(no_mangle)]
pub extern "C" fn dagluwis_ring_steady(
    alloc: Global,
    window: u64,
    behind: u64,
    instants: u32,
    bodies: &[u8],
) -> u64 {
    if window < 8 || window > 256 {
        return 0;
    }
    steady::<RingTable>(alloc, window, behind, instants, bodies).unwrap_or(0)
}

/// As `dagluwis_table_fill`, with a table kept as a ring.
#[unsafe(no_mangle)]
pub extern "C" fn dagluwis_ring_fill(
    alloc: Global,
    window: u64,
    rounds: u32,
    bodies: &[u8],
) -> u64 {
    if window < 8 || window > 256 {
        return 0;
    }
    fill::<RingTable>(alloc, window, rounds, bodies).unwrap_or(0)
}
