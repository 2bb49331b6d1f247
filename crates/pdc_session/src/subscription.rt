//! What a session was told.

/// What the frames of a session's stream told it.
#[derive(Clone, Copy, Debug, PartialEq, Eq)]
pub struct Subscription {
    /// Whether data was asked for: what the last DataOn or DataOff said, at first off.
    pub on: bool,
    /// How many frames had no effect: those of another id or kind, SendCfg3, and those that say no command.
    pub ignored: u64,
}
