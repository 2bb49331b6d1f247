//! Why a call of a running core failed.

use thiserror::Error;

/// Why a call of a running core failed. Each prints as its code and its name.
#[derive(Clone, Copy, Debug, PartialEq, Eq, Error)]
pub enum HubFault {
    /// A source failed.
    #[error("H1 SourceFault")]
    SourceFault,
    /// The sink failed.
    #[error("H2 SinkFault")]
    SinkFault,
    /// Memory or a thread was wanted, and none was to be had.
    #[error("H3 NoMemory")]
    NoMemory,
    /// A source gave up waiting, or an end of the channel found the other one gone.
    #[error("H4 Stuck")]
    Stuck,
    /// A total is at its greatest value.
    #[error("H5 CountsUsedUp")]
    CountsUsedUp,
    /// The device of the mark failed.
    #[error("M4 Device")]
    Device,
}
