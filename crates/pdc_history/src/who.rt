//! The cores of a world.

/// A core of a world.
#[derive(Clone, Copy, Debug, PartialEq, Eq)]
pub enum Who {
    /// Node A.
    A,
    /// Node B.
    B,
    /// The merger.
    M,
}
