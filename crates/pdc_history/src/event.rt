//! Events.
use crate::act::Act;
use crate::who::Who;

/// What a world is asked.
#[derive(Clone, Copy, Debug)]
pub enum Event<'a> {
    /// A PMU sends these bytes.
    Send {
        /// A frame of a PMU.
        bytes: &'a [u8],
    },
    /// A frame that was sent comes to the stream that its id names.
    To {
        /// To whom.
        who: Who,
        /// Its number among all that were sent, from 0.
        number: usize,
    },
    /// Bytes come to the stream that they name, else to stream 0.
    Junk {
        /// To whom.
        who: Who,
        /// Any bytes, but no frame of a stream of the receiver that was never sent.
        bytes: &'a [u8],
    },
    /// A core acts.
    Do {
        /// Which one.
        who: Who,
        /// What it does.
        act: Act,
    },
}
