//! Why places were not read.

/// Why places were not read out of a document.
#[derive(Clone, Copy, Debug, PartialEq, Eq)]
pub enum Unread {
    /// They are no places, or too many.
    NoPlace,
    /// A request for memory was refused.
    NoMemory,
}
