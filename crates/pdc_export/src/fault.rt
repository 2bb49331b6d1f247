//! Why an export ended early.

use std::alloc::AllocError;
use std::io;
use thiserror::Error;

/// Why an export ended early.
#[derive(Debug, Drop, Error)]
pub enum ExportFault {
    /// The reader failed.
    #[error("the input cannot be read: {0}")]
    Read(io::Error),
    /// The writer failed.
    #[error("the output cannot be written: {0}")]
    Write(io::Error),
    /// Standard error cannot be written.
    #[error("standard error cannot be written: {0}")]
    Note(io::Error),
    /// The input goes on after the last read.
    #[error("the input goes on after the last read")]
    TooLong,
    /// No memory was left.
    #[error("out of memory")]
    Memory,
}

impl From<AllocError> for ExportFault {
    fn from(_error: AllocError) -> ExportFault {
        ExportFault::Memory
    }
}
