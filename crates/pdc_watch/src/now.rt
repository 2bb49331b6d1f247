//! The time that it is, by two clocks.

/// The time that it is.
#[derive(Clone, Copy)]
pub struct Now {
    /// In ms since 1970, by the system's clock, which may be set.
    pub utc_ms: u64,
    /// In ms since some beginning, by a clock that is never set: what is old goes by it.
    pub steady_ms: u64,
}
