//! Why a PMU's frame is not sent.
use thiserror::Error;

/// Why a frame is not sent: then nothing is changed. Each prints as its code and its name.
#[derive(Clone, Copy, Debug, PartialEq, Eq, Error)]
pub enum SendFault {
    /// It is no frame of a PMU of the table.
    #[error("X1 P4")]
    Foreign,
    /// Its PMU sent another body for this instant.
    #[error("X1 P1")]
    OtherBody,
    /// Its PMU sent another section under this count.
    #[error("X1 P2")]
    OtherSection,
    /// There is no memory for one frame more.
    #[error("X3 NoMemory")]
    NoMemory,
}
