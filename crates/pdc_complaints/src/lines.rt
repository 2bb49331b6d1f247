//! The lines about how a stream is heard.

use crate::whose::Of;
use std::alloc::{AllocError, Global};

/// The line about a silence of so many seconds.
pub fn silence_text(alloc: Global, of: Of, seconds: u64) -> Result<String, AllocError> {
    format!(in alloc; "no datagram from {of} for {seconds} seconds")
}

/// The line about its end.
pub fn again_text(alloc: Global, of: Of) -> Result<String, AllocError> {
    format!(in alloc; "{of} sends again")
}

/// The line about so many seconds of data without a configuration.
pub fn unread_text(alloc: Global, of: Of, seconds: u64) -> Result<String, AllocError> {
    format!(in alloc;
        "data from {of} for {seconds} seconds without a configuration: it is refused until a CFG-2 frame arrives"
    )
}

/// The line once that data is accepted.
pub fn taken_text(alloc: Global, of: Of) -> Result<String, AllocError> {
    format!(in alloc; "data from {of} is accepted")
}

/// The line about a stream that is no longer read.
pub fn ended_text(alloc: Global, of: Of, why: &str) -> Result<String, AllocError> {
    format!(in alloc; "{of} is no longer read: {why}")
}
