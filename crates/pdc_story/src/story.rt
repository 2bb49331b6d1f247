//! What was recorded of one instant.

use crate::gap::Gap;
use crate::sections::{Held, InForce};
use arrayvec::ArrayVec;
use pdc_block::{is_absent, read_body};
use pdc_life::{MAX_PMUS, Outcome, Refusal};
use std::alloc::{AllocError, Global};

/// How many arrivals of a stream for one instant are kept.
pub const MOST_ARRIVALS: usize = 4;

/// Configurations of a stream that were refused one after another, all for one cause.
#[derive(Clone, Copy, Debug, PartialEq, Eq)]
pub struct RefusedConfig {
    /// The cause.
    pub refusal: Refusal,
    /// When the first one came, in nanoseconds since 1970,
    pub first: u64,
    /// and the last one.
    pub last: u64,
    /// How many they were.
    pub count: u64,
}

/// An arrival of data.
#[derive(Clone, Copy, Debug, Default)]
pub struct Arrived {
    /// The number of its step; where it was not answered, of the next one.
    pub step: u64,
    /// When, in nanoseconds since 1970.
    pub time: u64,
    /// What it was answered, if it was.
    pub outcome: Option<Outcome>,
    /// The record tells all of the life before it.
    pub is_whole: bool,
    /// How many ticks came before it.
    pub ticks: u64,
    /// The last configurations of its stream, if they were refused.
    pub refused: Option<RefusedConfig>,
    /// At a node the count of the section that was held of its PMU and not in force yet.
    pub waiting: Option<u16>,
    /// How many ticks there were when that one was adopted.
    pub adopted: Option<u64>,
}

/// What stands for a column in the payload of a frame.
#[derive(Clone, Copy, Debug, PartialEq, Eq)]
pub enum Cell {
    /// Nothing.
    Missing,
    /// The record does not tell it.
    Unknown,
    /// A block under this count, which was not the one in force.
    OtherCount(u16),
    /// The words of an absent block.
    Absent,
    /// A block: the bytes of the payload from one place to another.
    Present {
        /// The place of the first one.
        from: usize,
        /// The place behind the last one.
        to: usize,
    },
    /// What was there was dropped when the section of this count was adopted.
    Dropped(u16),
}

/// What each column has in the payload of a frame.
pub type Cells = [Cell; MAX_PMUS];

/// A section that was adopted while data of an earlier one waited.
#[derive(Clone, Copy, Debug)]
pub struct Adopted {
    /// Its count.
    pub count: u16,
    /// How many ticks there were, with the one that adopted it.
    pub ticks: u64,
}

/// What came of a stream for the instant.
#[derive(Drop)]
pub struct Came {
    /// The first arrivals.
    pub arrivals: ArrayVec<Arrived, MOST_ARRIVALS>,
    /// How many there were.
    pub count: u32,
    /// The one that was taken.
    pub taken: Option<Arrived>,
    /// The payload of it,
    pub payload: Vec<u8>,
    /// and what each column has there.
    pub cells: Cells,
    /// For each column what was adopted since.
    pub since: [Option<Adopted>; MAX_PMUS],
    /// The last instant before this one of which data came, and when.
    pub before: Option<(u64, u64)>,
}

/// How the row opened.
#[derive(Clone, Copy, Debug)]
pub struct Opened {
    /// The number of the step.
    pub step: u64,
    /// When.
    pub time: u64,
    /// How many ticks came before.
    pub ticks: u64,
    /// The stream whose data was the first.
    pub stream: usize,
}

/// The tick at which the row closed.
#[derive(Clone, Copy, Debug)]
pub struct Closed {
    /// When.
    pub time: u64,
    /// The instant that was now.
    pub now: u64,
    /// How many ticks there were, with this one.
    pub ticks: u64,
    /// The sections under which it closed, where they are known.
    pub in_force: Option<InForce>,
}

/// What was recorded of one instant.
#[derive(Drop)]
pub struct Story {
    /// The instant.
    pub instant: u64,
    /// What came of each stream.
    pub came: Vec<Came>,
    /// Steps that are not in the record, among which data of it may be.
    pub gap: Option<Gap>,
    /// A file behind them carries over what was taken of it, so only what was refused may be among them.
    pub is_carried: bool,
    /// How its row opened.
    pub opened: Option<Opened>,
    /// The tick at which it closed.
    pub closed: Option<Closed>,
    /// When its row was popped.
    pub popped: Option<u64>,
    /// The payload of the frame that was published, if one was,
    pub payload: Option<Vec<u8>>,
    /// and what each column has there, where the sections are known.
    pub shown: Option<Cells>,
}

impl RefusedConfig {
    /// With one more, that came at this time; the first one where those before were refused for another cause.
    pub fn with(before: Option<RefusedConfig>, refusal: Refusal, time: u64) -> RefusedConfig {
        match before {
            Some(before) if before.refusal == refusal => RefusedConfig {
                last: time,
                count: before.count.saturating_add(1),
                ..before
            },
            _ => RefusedConfig {
                refusal,
                first: time,
                last: time,
                count: 1,
            },
        }
    }
}

impl Came {
    fn new(alloc: Global) -> Came {
        Came {
            arrivals: ArrayVec::new(),
            count: 0,
            taken: None,
            payload: Vec::new(alloc),
            cells: [Cell::Missing; MAX_PMUS],
            since: [None; MAX_PMUS],
            before: None,
        }
    }

    /// Notes an arrival.
    pub fn note(&mut self, arrived: Arrived) {
        self.count = self.count.saturating_add(1);
        if !self.arrivals.is_full() {
            self.arrivals.push(arrived);
        }
    }

    /// Notes the payload that was taken.
    ///
    /// # Errors
    ///
    /// [`AllocError`] where there is no memory.
    pub fn take(&mut self, arrived: Arrived, payload: &[u8]) -> Result<(), AllocError> {
        self.payload.clear();
        self.payload.extend_from_slice(payload)?;
        self.taken = Some(arrived);
        self.cells = [Cell::Missing; MAX_PMUS];
        self.since = [None; MAX_PMUS];
        Ok(())
    }

    /// Notes that sections were adopted at a tick.
    pub fn adopt(&mut self, column: usize, adopted: Adopted) {
        if let Some(place) = self.since.get_mut(column) {
            if place.is_none() && self.taken.is_some() {
                *place = Some(adopted);
            }
        }
        for arrived in self.arrivals.as_mut_slice() {
            if arrived.waiting == Some(adopted.count) && arrived.adopted.is_none() {
                arrived.adopted = Some(adopted.ticks);
            }
        }
    }

    /// What the column has in what was taken, as it is at the tick that closes the row.
    pub fn cell(&self, column: usize, closed: Option<Closed>) -> Cell {
        let cell = self.cells.get(column).copied().unwrap_or(Cell::Missing);
        let since = self.since.get(column).copied().unwrap_or(None);
        match (since, closed) {
            (Some(adopted), Some(closed)) if adopted.ticks < closed.ticks => {
                Cell::Dropped(adopted.count)
            }
            (Some(adopted), None) => Cell::Dropped(adopted.count),
            _ => cell,
        }
    }

    /// The bytes of a cell.
    pub fn bytes(&self, cell: Cell) -> &[u8] {
        bytes_of(&self.payload, cell)
    }
}

/// The bytes of a cell in a payload.
pub fn bytes_of(payload: &[u8], cell: Cell) -> &[u8] {
    match cell {
        Cell::Present { from, to } => payload.get(from..to).unwrap_or(&[]),
        _ => &[],
    }
}

impl Story {
    /// Nothing is recorded of it yet.
    ///
    /// # Errors
    ///
    /// [`AllocError`] where there is no memory.
    pub fn new(alloc: Global, instant: u64, streams: usize) -> Result<Story, AllocError> {
        let mut came = Vec::new(alloc);
        for _ in 0..streams {
            came.push(Came::new(alloc))?;
        }
        Ok(Story {
            instant,
            came,
            gap: None,
            is_carried: false,
            opened: None,
            closed: None,
            popped: None,
            payload: None,
            shown: None,
        })
    }

    /// The steps that are not in the record, among which data that was taken of it may be, and the first of it.
    pub fn row_gap(&self) -> Option<&Gap> {
        match &self.gap {
            Some(gap) if !self.is_carried => Some(gap),
            _ => None,
        }
    }

    /// What came of a stream.
    pub fn of_stream(&self, stream: usize) -> Option<&Came> {
        self.came.as_slice().get(stream)
    }
}

/// What stands for a section in these bytes.
fn cell_at(payload: &[u8], held: Held, from: usize, to: usize) -> Option<Cell> {
    let block = read_body(held.shape, payload.get(from..to)?).ok()?;
    if is_absent(&block) {
        Some(Cell::Absent)
    } else {
        Some(Cell::Present { from, to })
    }
}

/// What each column has in a payload whose blocks behind `at` bytes are those of these sections; none where they are not.
pub fn cells_of(payload: &[u8], at: usize, sections: &[Held]) -> Option<Cells> {
    let mut cells = [Cell::Missing; MAX_PMUS];
    let mut from = at;
    for held in sections {
        let to = from.saturating_add(2 * held.shape.word_count());
        let cell = cell_at(payload, *held, from, to)?;
        if let Some(place) = cells.get_mut(held.column) {
            *place = cell;
        }
        from = to;
    }
    if from == payload.len() {
        Some(cells)
    } else {
        None
    }
}
