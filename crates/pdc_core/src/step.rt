//! The steps of a core, as they are handed to it, and what it replies.
use crate::KeptArrival;
use pdc_align::{DueRow, MAX_PMUS, Outcome, Ticked};

/// A step of a core.
#[derive(Debug, Drop)]
pub enum CoreStep {
    /// This arrived for a stream.
    Arrive {
        /// The number of the stream, from 0.
        stream: usize,
        /// What arrived.
        taken: KeptArrival,
    },
    /// A tick.
    Tick {
        /// The instant that is now.
        now: u64,
        /// For each column the count up to which a section may be adopted.
        counts: [u16; MAX_PMUS],
    },
    /// The next row is taken out.
    Pop,
}

/// What a core replies to a step.
#[derive(Debug, Drop)]
pub enum Reply {
    /// How an arrival was answered.
    Arrived(Outcome),
    /// What a tick did.
    Closed(Ticked),
    /// The row that was taken out, if one waited.
    Popped(Option<DueRow>),
}
