//! How a ticker waits that may be woken.

/// How a ticker waits that may be woken before its deadline, and gives one tick between two deadlines.
#[derive(Clone, Copy, Debug, PartialEq, Eq)]
pub enum Waiting {
    /// It gave the tick of this time early: it waits for so many nanoseconds, up to the deadline that the tick stood for.
    Sleep(u64),
    /// It waits to be woken, for at most so many nanoseconds, up to the next deadline.
    ForWake(u64),
}
