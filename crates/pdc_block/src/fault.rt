//! Why bytes are not blocks.

use thiserror::Error;

/// Why bytes are not the blocks of some shapes.
#[derive(Clone, Copy, Debug, PartialEq, Eq, Error)]
pub enum BodyFault {
    /// There are more or fewer bytes than the shapes take.
    #[error("B2 WrongLength")]
    WrongLength,
}
