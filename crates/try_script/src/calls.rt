//! Calls on a life, as scripts write them.
//!
//! | Call | Means |
//! |---|---|
//! | `arrive STREAM FRAME [LENGTH]` | a datagram for a stream: a frame by its name, or its first bytes |
//! | `tick NOW [COUNT ..]` | a tick that hands in these counts, and 0 for the columns that are left; with no count those that wait |
//! | `waiting` | the counts that wait |
//! | `pop` | the next row |
//! | `published` | the frames that are published |
//! | `layout SOC` | the frame of the layout in force |

use crate::frames::Frames;
use crate::words::counts_of;
use pdc_life::MAX_PMUS;

/// A call on a life.
#[derive(Drop)]
pub enum LifeCall<'a> {
    /// A datagram for a stream.
    Arrive {
        /// The number of the stream.
        stream: usize,
        /// Its bytes.
        bytes: &'a [u8],
    },
    /// A tick.
    Tick {
        /// The instant that is now.
        now: u64,
        /// The counts that are handed in; else those that wait.
        counts: Option<[u16; MAX_PMUS]>,
    },
    /// The counts that wait.
    Waiting,
    /// The next row.
    Pop,
    /// The frames that are published.
    Published,
    /// The frame of the layout in force.
    Layout {
        /// The second that it is dated with.
        soc: u32,
    },
}

/// The datagram for a stream, of the first bytes of the frame or all of them.
fn arrival<'a>(
    frames: &'a Frames,
    stream: &str,
    name: &str,
    len: Option<&str>,
) -> Option<LifeCall<'a>> {
    let stream = stream.parse().ok()?;
    let bytes = frames.named(name)?;
    let len = match len {
        Some(len) => len.parse().ok()?,
        None => bytes.len(),
    };
    let bytes = bytes.get(..len)?;
    Some(LifeCall::Arrive { stream, bytes })
}

/// A tick that hands in these counts, or those that wait.
fn tick<'a>(now: &str, counts: &[&str]) -> Option<LifeCall<'a>> {
    let now = now.parse().ok()?;
    let counts = if counts.is_empty() {
        None
    } else {
        Some(counts_of(counts)?)
    };
    Some(LifeCall::Tick { now, counts })
}

/// The layout, dated with this second.
fn layout<'a>(soc: &str) -> Option<LifeCall<'a>> {
    let soc = soc.parse().ok()?;
    Some(LifeCall::Layout { soc })
}

/// The call that the words are, with these frames.
pub fn life_call<'a>(frames: &'a Frames, words: &[&str]) -> Option<LifeCall<'a>> {
    match words {
        ["arrive", stream, frame] => arrival(frames, stream, frame, None),
        ["arrive", stream, frame, len] => arrival(frames, stream, frame, Some(len)),
        ["tick", now, counts @ ..] => tick(now, counts),
        ["waiting"] => Some(LifeCall::Waiting),
        ["pop"] => Some(LifeCall::Pop),
        ["published"] => Some(LifeCall::Published),
        ["layout", soc] => layout(soc),
        _ => None,
    }
}
