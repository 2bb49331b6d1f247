//! The ring of the frames that were sent last.

use crate::trial::{DONE, NO_MEMORY, State, Trial, make, of_memory, state_of};
use crate::vectors::{BEFORE, CONFIG_11};
use arrayvec::ArrayVec;
use pdc_session::Frames;
use std::alloc::{AllocError, Global};
use std::io;

/// A ring, and what it appends its frames to.
#[derive(Drop)]
struct RingTrial {
    alloc: Global,
    is_push: bool,
    frames: Frames,
    out: Vec<u8>,
}

impl RingTrial {
    /// The greatest instant that it holds; 0 where it holds none.
    fn greatest(&self) -> u64 {
        let mut all: ArrayVec<u8, 256> = ArrayVec::new();
        self.frames.after(0, &mut all).unwrap_or(u64::MAX)
    }
}

impl Trial for RingTrial {
    fn name(&self) -> &'static str {
        if self.is_push {
            "Frames::push"
        } else {
            "Frames::after"
        }
    }

    fn state(&self) -> State {
        state_of(&self.out, self.greatest())
    }

    fn call(&mut self) -> &'static str {
        if self.is_push {
            return of_memory(self.frames.push(self.alloc, 5, &CONFIG_11));
        }
        match self.frames.after(0, &mut self.out) {
            Ok(5) => DONE,
            Ok(_) => "another instant",
            Err(_) => NO_MEMORY,
        }
    }

    fn renew(&mut self) -> Result<(), AllocError> {
        Ok(())
    }
}

/// A frame is pushed, and then asked for.
pub fn play<R: Print>(rt: &R, alloc: Global) -> io::Result<()> {
    let mut trial = RingTrial {
        alloc,
        is_push: true,
        frames: Frames::new(alloc)?,
        out: Vec::from_slice(alloc, &BEFORE)?,
    };
    make(rt, &mut trial)?;
    trial.is_push = false;
    make(rt, &mut trial)
}
