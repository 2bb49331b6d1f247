//! Replies.
use crate::who::Who;
use pdc_align::Ticked;
use pdc_life::Outcome;

/// A row that was published.
#[derive(Clone, Copy, Debug, PartialEq, Eq)]
pub struct Published {
    /// By whom.
    pub who: Who,
    /// The row's instant.
    pub instant: u64,
    /// The number of its frame among all that were sent, from 0.
    pub number: usize,
}

/// What a world replies to an event.
#[derive(Clone, Copy, Debug, PartialEq, Eq)]
pub enum Reply {
    /// A frame was sent.
    Sent {
        /// Its number among all that were sent, from 0.
        number: usize,
    },
    /// Bytes came to a core.
    Came {
        /// To whom.
        who: Who,
        /// What the core answered; none where it has no such stream.
        outcome: Option<Outcome>,
    },
    /// A core ticked.
    Ticked {
        /// Which one.
        who: Who,
        /// What the tick did.
        ticked: Ticked,
    },
    /// A core published.
    Published {
        /// Which one.
        who: Who,
        /// The row, if one waited.
        published: Option<Published>,
    },
    /// A core stopped, and its next life began.
    Stopped {
        /// Which one.
        who: Who,
        /// The number of that life's start.
        start: u32,
        /// The instant up to which all is published.
        floor: u64,
    },
}
