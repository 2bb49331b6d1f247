//! How a script ends.
ghost use Rattle.std.specs.Prelude.{◌≡◌};

use pdc_history::Fault;

/// How a script ends.
#[derive(Clone, Copy, Debug, PartialEq, Eq)]
pub enum Ending {
    /// Each line was played.
    Played,
    /// A line is no event.
    NotAnEvent,
    /// An event was refused.
    Refused(Fault),
}

impl Ending {
    ghost use Rattle.pdc_play.specs.Ending.{status_of};

    /// The exit status: 0 where each line was played, 3 where memory was wanted, else 1.
    pub fn status(self) -> u8
        ensures { result ≡ status_of self }
    {
        match self {
            Ending::Played => 0,
            Ending::Refused(Fault::NoMemory) => 3,
            Ending::NotAnEvent | Ending::Refused(_) => 1,
        }
    }
}
