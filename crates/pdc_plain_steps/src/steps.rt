//! The steps of a life, and what they are answered.
ghost use Rattle.std.specs.Prelude.{◌↔◌, IsTrue};
ghost use Rattle.std.specs.List.{All};
ghost use Rattle.pdc_plain_steps.specs.Views.{IsForStream, step_view};

use pdc_arrival::Arrival;
use pdc_block::Block;
use pdc_life::{MAX_PMUS, Outcome};
use pdc_row::DueRow;

/// A step of a life as it happens.
#[derive(Clone, Copy, Debug)]
pub enum LifeStep<'a> {
    /// Bytes arrive for a stream.
    Arrive {
        /// The number of the stream, from 0: at a node that of the PMU in the settings, at the merger 0 for node A and 1 for
        /// node B.
        stream: usize,
        /// The bytes of the datagram.
        bytes: &'a [u8],
    },
    /// A tick.
    Tick {
        /// The instant that is now.
        now: u64,
        /// For each column the count up to which it is cleared.
        counts: [u16; MAX_PMUS],
    },
    /// The first row that waits is taken out.
    Pop,
}

/// A block that data gives to a column.
#[derive(Debug, Drop)]
pub struct ColumnCell {
    /// The number of the column, from 0.
    pub column: usize,
    /// The block.
    pub block: Block,
    /// The time quality byte of the data's frame.
    pub quality: u8,
}

/// What an arrival is answered.
#[derive(Debug, Drop)]
pub struct Answer {
    /// The outcome.
    pub outcome: Outcome,
    /// The cells that it gives: none where it is not taken.
    pub cells: Vec<ColumnCell>,
}

/// What a tick did.
#[derive(Debug, Drop)]
pub struct TickAnswer {
    /// The rows that it closed, in rising order.
    pub rows: Vec<DueRow>,
    /// The columns that it adopted, in rising order.
    pub adopted: Vec<usize>,
    /// Whether some column was ready to be adopted and no change number was left.
    pub used_up: bool,
}

/// A step of a life with what it was answered.
#[derive(Debug, Drop)]
pub enum Answered<'a> {
    /// Bytes arrived for a stream.
    Arrival {
        /// The number of the stream, from 0.
        stream: usize,
        /// The bytes of the datagram.
        bytes: &'a [u8],
        /// What they say.
        arrival: Arrival<'a>,
        /// The answer.
        answer: Answer,
    },
    /// A tick.
    Tick {
        /// The instant that is now.
        now: u64,
        /// For each column the count up to which it is cleared.
        counts: [u16; MAX_PMUS],
        /// What it did.
        answer: TickAnswer,
    },
    /// The first row that waited was taken out, if there was one.
    Pop {
        /// The row.
        row: Option<DueRow>,
    },
}

/// Whether each arrival among the steps is for one of so many streams.
pub fn are_for_streams(streams: usize, steps: &[LifeStep]) -> bool
    ensures { IsTrue result ↔ All (λ step. IsForStream streams (step_view step)) steps.now }
{
    steps.iter().all(|step| is_for_stream(streams, step))
}

/// Whether the step is for one of so many streams.
fn is_for_stream(streams: usize, step: &LifeStep) -> bool
    ensures { IsTrue result ↔ IsForStream streams (step_view step.now) }
{
    match step {
        LifeStep::Arrive { stream, .. } => *stream < streams,
        _ => true,
    }
}
