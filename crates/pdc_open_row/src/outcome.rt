//! What a put is answered.

/// What a put is answered.
#[derive(Clone, Copy, Debug, PartialEq, Eq)]
pub enum PutOutcome {
    /// The frame was taken.
    Taken,
    /// The instant is not above the last one closed.
    Late,
    /// Some held instant is the window or more away.
    OutOfWindow,
    /// The stream was taken at the instant already, and no block that both have differs. The first stays.
    Duplicate,
    /// The stream was taken at the instant already, and a block that both have differs. The first stays.
    Conflict,
}
