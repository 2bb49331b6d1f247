//! The entries of a record.
ghost use Rattle.std.specs.Prelude.{◌≡◌};
ghost use Rattle.pdc_record.specs.Carried.{is_carried};

use crate::begun::Begun;
use pdc_life::{MAX_PMUS, Outcome};

/// One entry of a record.
#[derive(Clone, Copy, Debug, PartialEq, Eq)]
pub struct Entry<'a> {
    /// The number of the step: how many steps the life had before it. Of what is no step, as [`What`] says.
    pub step: u64,
    /// When it was written down, in nanoseconds since 1970.
    pub time: u64,
    /// What happened.
    pub what: What<'a>,
}

/// What happened.
#[derive(Clone, Copy, Debug, PartialEq, Eq)]
pub enum What<'a> {
    /// The life began so; each file of a record begins with it, and its number is that of the first step in the file. Directly behind it stand
    /// steps with lower numbers, which the file carries over.
    Begun(Begun<'a>),
    /// A step: a datagram arrived for a stream, and was answered.
    Arrived {
        /// The number of the stream, from 0.
        stream: u16,
        /// The answer.
        outcome: Outcome,
        /// The bytes of the datagram.
        datagram: &'a [u8],
    },
    /// No step: a datagram came for a stream, and was not answered, for want of memory or of room in a counter. Its number is 0.
    Unanswered {
        /// The number of the stream, from 0.
        stream: u16,
        /// The bytes of the datagram.
        datagram: &'a [u8],
    },
    /// A step: a tick.
    Ticked {
        /// The instant that was now.
        now: u64,
        /// For each column the count up to which a section might be adopted.
        counts: [u16; MAX_PMUS],
        /// How many rows closed.
        closed: u32,
        /// The change number, where some column was adopted.
        change: Option<u32>,
        /// Whether a column was to be adopted and no change number was left.
        used_up: bool,
    },
    /// A step: no row was due.
    FoundNone,
    /// A step: the row of this instant was popped, and this frame published; or none, where it could not be.
    Popped {
        /// The instant.
        instant: u64,
        /// The bytes of the data frame.
        frame: Option<&'a [u8]>,
    },
    /// No step: the frame of the layout in force was put after the step with this number.
    Laid {
        /// The bytes of the configuration frame.
        frame: &'a [u8],
    },
    /// A step: a datagram that is no frame arrived for a stream, and was refused. Of its bytes the first ones are here.
    NoFrame {
        /// The number of the stream, from 0.
        stream: u16,
        /// The answer.
        outcome: Outcome,
        /// How many bytes it has.
        len: u32,
        /// Its first bytes.
        front: &'a [u8],
    },
    /// The steps from this number on, up to the one before `until`, are not in the record.
    Missing {
        /// The number of the first step that is there again.
        until: u64,
    },
}

impl Entry<'_> {
    /// Whether it is a step that a file carries over whose first step has this number: a datagram or a tick from before it.
    pub fn is_carried(&self, first: u64) -> bool
        ensures { result ≡ is_carried self.now first }
    {
        self.step < first && matches!(self.what, What::Arrived { .. } | What::Ticked { .. })
    }
}
