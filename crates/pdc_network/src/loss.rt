//! Why a connection ended.

use pdc_frame::FrameFault;
use std::io;
use thiserror::Error;

/// Why a connection ended, or was not made. Each prints as its log line has it.
#[derive(Debug, Drop, Error)]
pub enum Loss {
    /// It could not be made.
    #[error("not connected: {0}")]
    Refused(io::Error),
    /// It failed.
    #[error("lost: {0}")]
    Failed(io::Error),
    /// The other side ended it.
    #[error("lost: the other side closed it")]
    Closed,
    /// Nothing came for five seconds.
    #[error("lost: nothing came for 5 seconds")]
    Silent,
    /// A frame was not complete five seconds after its first byte.
    #[error("lost: a frame was not complete within 5 seconds")]
    Slow,
    /// What came is no frame.
    #[error("given up: the bytes that arrive are not a frame, {0}")]
    NoFrame(FrameFault),
    /// It takes no command.
    #[error("lost: a command could not be sent")]
    Untold,
}
