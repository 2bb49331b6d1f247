//! Answers that bear the number of their step.

/// An answer, and the number of its step.
#[derive(Clone, Copy, Debug, Drop, PartialEq, Eq)]
pub struct Numbered<A> {
    /// How many steps the life had before this one. It stays at its greatest value.
    pub step: u64,
    /// The answer.
    pub answer: A,
}
