//! What cores do.

/// What is stored when a stop falls into the store.
#[derive(Clone, Copy, Debug, PartialEq, Eq)]
pub enum Storing {
    /// The floor, by a publish.
    Publish,
    /// The counts, by a tick, which begins with it.
    Tick,
    /// The next start.
    Start,
}

/// Where a stop falls.
#[derive(Clone, Copy, Debug, PartialEq, Eq)]
pub enum StopAt {
    /// Between stores.
    Between,
    /// In a store.
    In {
        /// What is stored.
        storing: Storing,
        /// Whether the store is done.
        landed: bool,
    },
}

/// What a core does.
#[derive(Clone, Copy, Debug, PartialEq, Eq)]
pub enum Act {
    /// It ticks.
    Tick {
        /// The instant that is now.
        now: u64,
    },
    /// It publishes the next row, if one waits.
    Publish,
    /// It stops, and its next life begins.
    Stop(StopAt),
}
