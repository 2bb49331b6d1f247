//! Events as a line writes them.
ghost use Rattle.std.specs.Prelude.{◌≡◌};
ghost use Rattle.pdc_history.specs.Handed.{asked_of};

use pdc_history::{Event, Who};

/// An event that was read of a line, with the bytes that it brings.
#[derive(Debug, Drop)]
pub enum Written {
    /// A PMU sends these bytes.
    Send {
        /// A frame of a PMU.
        bytes: Vec<u8>,
    },
    /// Bytes come to the stream that they name, else to stream 0.
    Junk {
        /// To whom.
        who: Who,
        /// Any bytes.
        bytes: Vec<u8>,
    },
    /// An event that brings no bytes.
    Other(Event<'static>),
}

impl Written {
    ghost use Rattle.pdc_play.specs.Written.{asked_in};

    /// The event.
    pub fn event(&self) -> Event<'_>
        ensures { asked_of result ≡ asked_in self.now }
    {
        match self {
            Written::Send { bytes } => Event::Send { bytes },
            Written::Junk { who, bytes } => Event::Junk { who: *who, bytes },
            Written::Other(event) => *event,
        }
    }
}
