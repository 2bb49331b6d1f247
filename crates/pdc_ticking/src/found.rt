//! What a ticker that may be woken finds, and what it notes.

/// What a ticker that may be woken finds, where it has a tick to give.
#[derive(Clone, Copy, Debug, PartialEq, Eq)]
pub struct Found {
    /// Where the clock stands, in nanoseconds.
    pub moment: u64,
    /// How many nanoseconds it is to the next deadline.
    pub wait: u64,
    /// How many nanoseconds ago it was called, where it had given the tick of that time; 0 where it was not.
    pub late: u64,
}

/// What a ticker that may be woken notes of the ticks that it gave.
#[derive(Clone, Copy, Debug, PartialEq, Eq)]
pub struct Given {
    /// The deadline whose tick it gave last, in nanoseconds.
    pub deadline: u64,
    /// When it left a late call last; none where it never did.
    pub left: Option<u64>,
}
