//! Why a session ended.

use thiserror::Error;

/// Why a session ended. It stays: every later call answers it again.
#[derive(Clone, Copy, Debug, PartialEq, Eq, Error)]
pub enum SessionFault {
    /// The stream has a fault, behind which no frame is found.
    #[error("Y1 BadStream")]
    BadStream,
    /// There was no room for a reply, and none was to be had.
    #[error("Z1 NoMemory")]
    NoMemory,
}
