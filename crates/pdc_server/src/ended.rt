//! Why a session ended.

use pdc_session::SessionFault;
use thiserror::Error;

/// Why the session with a consumer ended.
#[derive(Clone, Copy, Debug, PartialEq, Eq, Error)]
pub enum Ended {
    /// The consumer closed the connection.
    #[error("the end of the stream")]
    EndOfStream,
    /// What it sent is no stream of frames, or there was no memory for a reply.
    #[error("{0}")]
    Session(SessionFault),
    /// The connection failed, or the consumer did not take what was written in time.
    #[error("device fault")]
    Device,
    /// There was no memory for the layout or for data frames.
    #[error("Z1 NoMemory")]
    NoMemory,
    /// The concentrator has ended.
    #[error("closed")]
    Closed,
}
