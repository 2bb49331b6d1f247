//! Faults of a world.
use thiserror::Error;

/// A premise on PMUs and settings that a world may break. Each prints as its code.
#[derive(Clone, Copy, Debug, PartialEq, Eq, Error)]
pub enum Premise {
    /// A PMU sends one body for one instant.
    #[error("P1")]
    OneBody,
    /// A PMU sends one section under one count.
    #[error("P2")]
    OneSection,
    /// What is sent is a frame of a PMU, and what comes as a frame of a stream of its receiver was sent.
    #[error("P4")]
    Genuine,
    /// The settings of two nodes and a merger fit together.
    #[error("P5")]
    OneTable,
}

/// Why a world refuses an event, or does not begin. Each prints as its code, the first with its premise.
#[derive(Clone, Copy, Debug, PartialEq, Eq, Error)]
pub enum Fault {
    /// The event breaks a premise.
    #[error("X1 {0}")]
    PremiseBroken(Premise),
    /// No frame of this number was sent.
    #[error("X2")]
    NoSuchFrame,
    /// There is no memory.
    #[error("X3")]
    NoMemory,
    /// The next start would have more than 32 bits.
    #[error("X4")]
    StartsUsedUp,
}

/// A fault, with the event that it answers.
#[derive(Clone, Copy, Debug, PartialEq, Eq, Error)]
#[error("{fault} at {at}")]
pub struct WorldFault {
    /// Why the event is refused.
    pub fault: Fault,
    /// The number of the event among those of the call, from 1; 0 where the world does not begin.
    pub at: usize,
}
