//! What is not in a record, and when no tick came.

use crate::story::Closed;

/// Steps that are not in the record.
#[derive(Clone, Copy, Debug, PartialEq, Eq)]
pub struct Gap {
    /// The first one: the number that the next step has.
    pub from: u64,
    /// The one behind the last; it is below the first where a file goes on with steps that were there already.
    pub until: u64,
    /// The time of the last entry before them, in nanoseconds since 1970,
    pub begins: u64,
    /// and of the first behind them, or of the entry that tells of them.
    pub ends: u64,
    /// The number of the file, from 0, that goes on behind them, where they are between two files.
    pub file: Option<usize>,
    /// The lowest instant whose row may have been popped by them: rows are popped in rising order,
    pub low: u64,
    /// and the highest.
    pub high: u64,
}

/// A time in which no tick came, though at least two were due.
#[derive(Clone, Copy, Debug, PartialEq, Eq)]
pub struct Hold {
    /// When the tick before it was, in nanoseconds since 1970,
    pub from: u64,
    /// and the one behind it.
    pub until: u64,
    /// The instant that was now at the tick before it,
    pub low: u64,
    /// and at the one behind it.
    pub high: u64,
}

impl Hold {
    /// Whether it lies between two ticks.
    pub fn between(before: Closed, tick: Closed) -> Option<Hold> {
        if tick.now < before.now.saturating_add(3) {
            return None;
        }
        Some(Hold {
            from: before.time,
            until: tick.time,
            low: before.now,
            high: tick.now,
        })
    }
}
