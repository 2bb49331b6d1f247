//! Why a stop is refused.
use thiserror::Error;

/// Why a station is not stopped: then it stays as it was. Each prints as its code and its name.
#[derive(Clone, Copy, Debug, PartialEq, Eq, Error)]
pub enum StopFault {
    /// There is no memory for the next life.
    #[error("X3 NoMemory")]
    NoMemory,
    /// The next start would have more than 32 bits.
    #[error("X4 StartsUsedUp")]
    StartsUsedUp,
}
