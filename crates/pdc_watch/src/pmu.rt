//! What is known of a PMU.

use crate::now::Now;
use crate::presence::Presence;
use crate::strip::{Point, Strip};
use crate::who::{Three, Who};
use pdc_block::{Block, is_absent};
use std::alloc::{AllocError, Global};

/// The instant of a frame.
#[derive(Clone, Copy)]
pub struct Moment {
    /// Its number.
    pub instant: u64,
    /// When it was, in ms since 1970.
    pub ms: u64,
    /// When the frame came.
    pub came: Now,
}

/// What is known of a PMU: what came of it on each stream, and its newest data.
#[derive(Drop)]
pub struct Pmu {
    /// The id of its data's source.
    pub source: u16,
    /// Its data on each stream.
    pub presence: Three<Presence>,
    /// Frequency and its change.
    pub strip: Strip,
    /// The instant of its newest data, and when that was, in ms since 1970; 0 where none came.
    pub instant: u64,
    pub ms: u64,
    /// When the first frame with it came.
    pub came: Option<Now>,
    /// Its words.
    pub words: Vec<u16>,
}

impl Pmu {
    /// A PMU of which nothing came.
    ///
    /// # Errors
    ///
    /// [`AllocError`] where there is no memory for its rings.
    pub fn new(alloc: Global, source: u16) -> Result<Pmu, AllocError> {
        Ok(Pmu {
            source,
            presence: Three {
                a: Presence::new(alloc)?,
                b: Presence::new(alloc)?,
                m: Presence::new(alloc)?,
            },
            strip: Strip::new(alloc)?,
            instant: 0,
            ms: 0,
            came: None,
            words: Vec::new(alloc),
        })
    }

    /// Takes its block of a frame. It is present exactly where it has other words than an absent one of its shape.
    ///
    /// # Errors
    ///
    /// [`AllocError`] where there is no memory for its words.
    pub fn take(&mut self, who: Who, moment: Moment, block: &Block) -> Result<bool, AllocError> {
        if is_absent(block) {
            return Ok(false);
        }
        let words = block.words();
        let stat = words.first().copied().unwrap_or(0);
        self.presence.of_mut(who).note(moment.ms / 100, stat);
        if moment.instant > self.instant {
            self.instant = moment.instant;
            self.ms = moment.ms;
            self.came = Some(moment.came);
            self.words.clear();
            self.words.extend_from_slice(words)?;
            self.keep_point(block);
        }
        Ok(true)
    }

    /// Keeps frequency and its change.
    fn keep_point(&mut self, block: &Block) {
        let freq = 1 + 2 * usize::from(block.shape.phasors);
        let words = block.words();
        self.strip.keep(Point {
            fifth: self.ms / 200,
            freq: words.get(freq).copied().unwrap_or(0).cast_signed(),
            dfreq: words.get(freq + 1).copied().unwrap_or(0).cast_signed(),
        });
    }
}
