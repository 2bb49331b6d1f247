//! Why a run ends before its script.
ghost use Rattle.std.specs.Prelude.{◌≡◌};
ghost use Rattle.pdc_play.specs.declared.fault.PlayFault.{PlayFault};

use crate::run::MAX_READS;
use std::alloc::{AllocError, AllocFailed};
use std::io;
use thiserror::Error;

/// Why a run ends before its script.
#[derive(Debug, Drop, Error)]
pub enum PlayFault {
    /// The reader failed.
    #[error("the input cannot be read: {0}")]
    Read(io::Error),
    /// The writer failed.
    #[error("the output cannot be written: {0}")]
    Write(io::Error),
    /// The input goes on after the last read.
    #[error("the input goes on after {MAX_READS} reads")]
    TooLong,
    /// No memory was left.
    #[error("out of memory")]
    Memory,
}

impl From<AllocError> for PlayFault {
    ghost from_gives = { λ _ fault. fault ≡ PlayFault.Memory };

    fn from(_error: AllocError) -> PlayFault {
        PlayFault::Memory
    }
}

impl<T: Drop> From<AllocFailed<T>> for PlayFault {
    fn from(_error: AllocFailed<T>) -> PlayFault {
        PlayFault::Memory
    }
}
