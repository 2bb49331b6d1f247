//! Why a frame carries no command, or no text.

use thiserror::Error;

/// Why a frame carries no command, or no text: the first cause that holds, in this order.
#[derive(Clone, Copy, Debug, PartialEq, Eq, Error)]
pub enum CommandFault {
    /// The frame is of another kind.
    #[error("N1 WrongKind")]
    WrongKind,
    /// The payload of a command frame has not two bytes.
    #[error("N2 Cut")]
    Cut,
    /// CMD is none of the six numbers.
    #[error("N3 UnknownCommand")]
    UnknownCommand,
}
