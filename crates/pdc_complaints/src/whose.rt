//! Whose stream is meant.

use std::fmt;

/// Whose stream it is.
#[derive(Clone, Copy, Debug, PartialEq, Eq)]
pub enum Of {
    /// Of the PMU with this stream id.
    Pmu(u16),
    /// Of the node with this id.
    Node(u16),
}

impl fmt::Display for Of {
    fn fmt<W: fmt::Write>(&self, f: &mut fmt::Formatter<W>) -> fmt::Result {
        match self {
            Of::Pmu(id) => write!(f, "PMU {id}"),
            Of::Node(id) => write!(f, "node {id}"),
        }
    }
}
