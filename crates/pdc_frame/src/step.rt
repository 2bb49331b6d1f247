//! What a framer answers.

use crate::fault::FrameFault;

/// What the bytes of a stream since the end of its last frame are.
#[derive(Clone, Copy, Debug, PartialEq, Eq)]
pub enum Step {
    /// Less than a frame: more bytes are wanted.
    More,
    /// A whole frame.
    Whole,
    /// No frame begins so, as the last byte shows.
    Bad(FrameFault),
}
