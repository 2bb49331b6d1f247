//! Why a client ended.

use thiserror::Error;

/// Why a client ended. It stays: every later call answers it again.
#[derive(Clone, Copy, Debug, PartialEq, Eq, Error)]
pub enum ClientFault {
    /// The stream has a fault, behind which no frame is found.
    #[error("Y1 BadStream")]
    BadStream,
    /// The answer did not come: within the frames or the reads of a call, or before the end of the input.
    #[error("Y2 NoAnswer")]
    NoAnswer,
    /// The reader or the writer failed.
    #[error("Y3 Device")]
    Device,
    /// There was no memory for the answer.
    #[error("Z1 NoMemory")]
    NoMemory,
}
