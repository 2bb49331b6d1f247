//! Of what a frame tells.

/// Of what a PMU tells one thing: of an instant its body, and under a count its section.
#[derive(Clone, Copy, Debug, PartialEq, Eq)]
pub enum Key {
    /// An instant.
    Instant(u64),
    /// The count of a configuration.
    Count(u16),
}
