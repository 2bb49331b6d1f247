//! Which steps the files of a record carry over, and when one begins.
ghost use Rattle.std.specs.Prelude.{◌≡◌};
ghost use Rattle.pdc_recording.specs.Carrying.{begins_next, carrying_of};

use pdc_record::{Entry, Outcome, What};

/// By how many bytes a file may be larger than it is to be, until a moment comes at which no row waits: 1 MiB.
pub const SLACK: u64 = 1_048_576;

/// Why a datagram is carried over.
#[derive(Clone, Copy, Debug, PartialEq, Eq)]
pub enum Carrying {
    /// It is a configuration that was held: it is, for the whole life.
    Configuration,
    /// It is data that was taken: it is while its instant is open.
    Data,
    /// It is not.
    Nothing,
}

/// Why a datagram is carried over that was answered so.
pub fn carrying_of(outcome: Outcome) -> Carrying
    ensures { result ≡ carrying_of outcome }
{
    match outcome {
        Outcome::Candidate => Carrying::Configuration,
        Outcome::Taken => Carrying::Data,
        _ => Carrying::Nothing,
    }
}

/// Whether an entry is carried over for the whole life: a configuration that was held, or a tick that adopted.
pub fn is_lasting(entry: &Entry<'_>) -> bool {
    match &entry.what {
        What::Arrived { outcome, .. } => carrying_of(*outcome) == Carrying::Configuration,
        What::Ticked { change, .. } => change.is_some(),
        _ => false,
    }
}

/// Whether the next file begins before an entry with which the file has so many bytes, and which is to have so many at most.
pub fn begins_next(len: u64, size: u64, is_quiet: bool) -> bool
    ensures { result ≡ begins_next len size is_quiet }
{
    len > size && (is_quiet || len - size > SLACK)
}
