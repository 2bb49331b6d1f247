//! The frames that were sent last.
//!
//! | Call | Answer |
//! |---|---|
//! | `new` | `ok`; the calls below go to this ring |
//! | `push INSTANT HEX` | `ok` |
//! | `pushes FIRST LAST` | `ok`; each frame is its instant in two bytes |
//! | `after INSTANT` | the greatest instant, and the frames, one behind another |
//! | `after_in_four INSTANT` | the same into four bytes of room, or `no room` |
//!
//! What is none of these is answered `no such call`.

use crate::told::{NO_CALL, hex_of};
use arrayvec::ArrayVec;
use pdc_session::Frames;
use std::alloc::{AllocError, Global};
use try_script::Player;

/// The ring that a script plays on.
#[derive(Drop)]
pub struct RecentPlayer {
    frames: Frames,
}

impl RecentPlayer {
    /// With an empty ring.
    ///
    /// # Errors
    ///
    /// [`AllocError`] where there is no memory for it.
    pub fn new(alloc: Global) -> Result<RecentPlayer, AllocError> {
        Ok(RecentPlayer {
            frames: Frames::new(alloc)?,
        })
    }

    /// Begins another ring.
    fn begin(&mut self, alloc: Global) -> Result<&'static str, AllocError> {
        self.frames = Frames::new(alloc)?;
        Ok("ok")
    }

    /// Pushes one frame.
    fn push(
        &mut self,
        alloc: Global,
        instant: &str,
        digits: &str,
    ) -> Result<&'static str, AllocError> {
        let (Ok(instant), Ok(bytes)) = (instant.parse::<u64>(), hex::decode(alloc, digits)) else {
            return Ok(NO_CALL);
        };
        self.frames.push(alloc, instant, &bytes)?;
        Ok("ok")
    }

    /// Pushes a frame of each instant.
    fn push_all(
        &mut self,
        alloc: Global,
        first: &str,
        last: &str,
    ) -> Result<&'static str, AllocError> {
        let (Ok(first), Ok(last)) = (first.parse::<u16>(), last.parse::<u16>()) else {
            return Ok(NO_CALL);
        };
        for instant in first..=last {
            self.frames
                .push(alloc, u64::from(instant), &instant.to_be_bytes())?;
        }
        Ok("ok")
    }

    /// The frames above an instant.
    fn after(&self, alloc: Global, instant: &str) -> Result<String, AllocError> {
        let Ok(instant) = instant.parse::<u64>() else {
            return NO_CALL.to_string(alloc);
        };
        let mut out = Vec::new(alloc);
        let greatest = self.frames.after(instant, &mut out)?;
        let bytes = hex_of(alloc, &out)?;
        format!(in alloc; "{greatest} {bytes}")
    }

    /// The frames above an instant, where little room is.
    fn after_in_four(&self, alloc: Global, instant: &str) -> Result<String, AllocError> {
        let Ok(instant) = instant.parse::<u64>() else {
            return NO_CALL.to_string(alloc);
        };
        let mut out: ArrayVec<u8, 4> = ArrayVec::new();
        match self.frames.after(instant, &mut out) {
            Ok(greatest) => {
                let bytes = hex_of(alloc, out.as_slice())?;
                format!(in alloc; "{greatest} {bytes}")
            }
            Err(_) if out.is_empty() => "no room".to_string(alloc),
            Err(_) => "no room, and some bytes".to_string(alloc),
        }
    }
}

impl Player for RecentPlayer {
    fn play(&mut self, alloc: Global, call: &str) -> Result<String, AllocError> {
        let (word, rest) = call.split_once(' ').unwrap_or((call, ""));
        let (first, second) = rest.split_once(' ').unwrap_or((rest, ""));
        match word {
            "new" => self.begin(alloc)?.to_string(alloc),
            "push" => self.push(alloc, first, second)?.to_string(alloc),
            "pushes" => self.push_all(alloc, first, second)?.to_string(alloc),
            "after" => self.after(alloc, first),
            "after_in_four" => self.after_in_four(alloc, first),
            _ => NO_CALL.to_string(alloc),
        }
    }
}
