//! What the PMUs 11 and 12 sent.
//!
//! | Call | Answer |
//! |---|---|
//! | `new` | `ok`; nothing was sent |
//! | `send FRAME` | `ok`, or why no PMU sends it |
//! | `others FRAME` | `ok`; a frame of no PMU was sent |
//! | `has FRAME` | `yes` or `no` |
//! | `len` | how many frames were sent |
//! | `get NUMBER` | the frame, in hexadecimal, or `none` |
//!
//! A frame is one of the names. What is none of these is answered `no such call`.

use crate::told::{NO_CALL, done};
use pdc_frame::MAX_SIZE;
use pdc_history::Sent;
use std::alloc::{AllocError, Global};
use try_script::{Frames, PLAIN_TIMING, Player, node};

/// The bytes of a frame, if there is one.
fn bytes_text(alloc: Global, bytes: Option<&[u8]>) -> Result<String, AllocError> {
    match bytes {
        Some(bytes) => hex::encode_upper(alloc, bytes),
        None => "none".to_string(alloc),
    }
}

/// All that was sent.
#[derive(Drop)]
pub struct SentPlayer<'a> {
    sent: Sent,
    frames: &'a Frames,
}

impl<'a> SentPlayer<'a> {
    /// Nothing.
    ///
    /// # Errors
    ///
    /// [`AllocError`] where there is no room and none is got.
    pub fn new(alloc: Global, frames: &'a Frames) -> Result<SentPlayer<'a>, AllocError> {
        Ok(SentPlayer {
            sent: Sent::new(alloc, node(PLAIN_TIMING, false))?,
            frames,
        })
    }

    /// Begins anew.
    fn begin(&mut self, alloc: Global) -> Result<&'static str, AllocError> {
        self.sent = Sent::new(alloc, node(PLAIN_TIMING, false))?;
        Ok("ok")
    }

    /// Another one sends them.
    fn send_of_others(&mut self, alloc: Global, bytes: &[u8]) -> Result<String, AllocError> {
        self.sent.reserve()?;
        if bytes.len() <= MAX_SIZE && self.sent.is_of_no_pmu(bytes) {
            self.sent.push_reserved(bytes);
            return "ok".to_string(alloc);
        }
        NO_CALL.to_string(alloc)
    }

    /// The frame with this number.
    fn frame_text(&self, alloc: Global, number: &str) -> Result<String, AllocError> {
        match number.parse::<usize>() {
            Ok(number) => bytes_text(alloc, self.sent.get(number)),
            Err(_) => NO_CALL.to_string(alloc),
        }
    }

    /// Plays a call that names a frame.
    fn play_frame(&mut self, alloc: Global, word: &str, name: &str) -> Result<String, AllocError> {
        let Some(bytes) = self.frames.named(name) else {
            return NO_CALL.to_string(alloc);
        };
        match word {
            "send" => done(alloc, self.sent.send(bytes)),
            "others" => self.send_of_others(alloc, bytes),
            "has" if self.sent.has(bytes) => "yes".to_string(alloc),
            "has" => "no".to_string(alloc),
            _ => NO_CALL.to_string(alloc),
        }
    }
}

impl Player for SentPlayer<'_> {
    fn play(&mut self, alloc: Global, call: &str) -> Result<String, AllocError> {
        let (word, rest) = call.split_once(' ').unwrap_or((call, ""));
        match word {
            "new" => self.begin(alloc)?.to_string(alloc),
            "len" => self.sent.len().to_string(alloc),
            "get" => self.frame_text(alloc, rest),
            _ => self.play_frame(alloc, word, rest),
        }
    }
}
