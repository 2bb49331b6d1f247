//! Who hears of consumers that are disconnected.

use std::fmt;
use std::net::SocketAddr;

/// Why a consumer was disconnected that did not leave by itself.
#[derive(Clone, Copy, Debug, PartialEq, Eq)]
pub enum Leaving {
    /// It sent nothing for a minute while data was off.
    Silent,
    /// It took nothing of what was written in time, or did not answer any more.
    Stalled,
    /// All places were taken, another consumer came, and of all it had been silent longest, for ten seconds at least.
    GaveWay,
}

impl fmt::Display for Leaving {
    fn fmt<W: fmt::Write>(&self, f: &mut fmt::Formatter<W>) -> fmt::Result {
        match self {
            Leaving::Silent => write!(f, "it sent nothing for a minute with data off"),
            Leaving::Stalled => write!(f, "it did not read what was sent"),
            Leaving::GaveWay => write!(
                f,
                "all places were taken, another one came, and it had been silent longest"
            ),
        }
    }
}

/// Who hears of consumers.
pub trait Porter {
    /// The last place was taken.
    fn is_full(&self);

    /// The consumer from this address was disconnected.
    fn left(&self, from: SocketAddr, why: Leaving);
}
