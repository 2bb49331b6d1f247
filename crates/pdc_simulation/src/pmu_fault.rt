//! Why a PMU sends no frame.

use thiserror::Error;

/// Why a PMU sends no frame: the first of these that holds. Each prints as its code and its name. A PMU that answers one is as it
/// was.
#[derive(Clone, Copy, Debug, PartialEq, Eq, Error)]
pub enum PmuFault {
    /// The instant is not above the last one.
    #[error("U1 NotLater")]
    NotLater,
    /// No count is left for a configuration.
    #[error("U2 CountsUsedUp")]
    CountsUsedUp,
    /// A frame was sent under this id.
    #[error("U3 AlreadySent")]
    AlreadySent,
    /// There is no room for the frame, and none was to be had.
    #[error("Z1 NoMemory")]
    NoMemory,
}
