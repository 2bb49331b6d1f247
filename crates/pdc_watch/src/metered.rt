//! What a concentrator counts itself, of the last minute.

use crate::within::Lateness;
use std::alloc::{AllocError, Global};

/// How many readings are kept: at one in five seconds, those of a minute.
const READINGS: usize = 13;

/// What a concentrator counted itself, of how late it published: the last readings of its counters, the oldest first.
#[derive(Drop)]
pub struct Metered {
    readings: Vec<Lateness>,
}

impl Metered {
    /// Nothing was read yet.
    pub fn new(alloc: Global) -> Metered {
        Metered {
            readings: Vec::new(alloc),
        }
    }

    /// Its counters were read. Where they began anew, what was read before is left out.
    ///
    /// # Errors
    ///
    /// [`AllocError`] where there is no memory for it.
    pub fn note(&mut self, reading: &Lateness) -> Result<(), AllocError> {
        if let Some(last) = self.readings.as_slice().last()
            && !reading.goes_on(last)
        {
            self.readings.clear();
        }
        if self.readings.len() >= READINGS {
            self.readings.remove(0);
        }
        self.readings.push(*reading)?;
        Ok(())
    }

    /// Its counters cannot be read.
    pub fn forget(&mut self) {
        self.readings.clear();
    }

    /// What it counted between the oldest reading and the newest one; none where there is one at most.
    pub fn last_minute(&self) -> Option<Lateness> {
        let (first, last) = (
            self.readings.as_slice().first()?,
            self.readings.as_slice().last()?,
        );
        Some(last.since(first))
    }
}
