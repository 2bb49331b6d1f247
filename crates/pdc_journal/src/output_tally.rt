//! What could not be sent to one destination.

use std::alloc::{AllocError, Global};
use std::io;
use std::sync::atomic::{AtomicI32, AtomicU64, Ordering};

/// A further destination of frames, and how many could not be sent to it.
#[derive(Drop)]
pub struct OutputTally {
    /// The destination, as the settings name it.
    pub to: String,
    pub unsent: AtomicU64,
    /// The number of the system's reason for the last one, and 0 where it gave none.
    pub reason: AtomicI32,
}

impl OutputTally {
    /// All was sent so far.
    ///
    /// # Errors
    ///
    /// [`AllocError`] where there is no memory for it.
    pub fn new(alloc: Global, to: &str) -> Result<OutputTally, AllocError> {
        Ok(OutputTally {
            to: String::from_str(alloc, to)?,
            unsent: AtomicU64::new(0),
            reason: AtomicI32::new(0),
        })
    }

    /// Counts a frame that could not be sent to it, for this reason of the system; 0 where it gave none.
    pub fn count(&self, reason: i32) {
        self.unsent.fetch_add(1, Ordering::Relaxed);
        self.reason.store(reason, Ordering::Relaxed);
    }

    /// How many frames could not be sent to it until now.
    pub fn unsent(&self) -> u64 {
        self.unsent.load(Ordering::Relaxed)
    }

    /// Why the last one of these could not be sent, where the system told it.
    pub fn reason(&self) -> Option<io::Error> {
        match self.reason.load(Ordering::Relaxed) {
            0 => None,
            code => Some(io::Error::from_raw_os_error(code)),
        }
    }
}
