//! The instants that are followed.
ghost use Rattle.std.specs.Prelude.{◌≡◌, ◌<◌, length};

use crate::gap::Gap;
use crate::sections::InForce;
use crate::story::{Adopted, Story};
use pdc_life::MAX_PMUS;
use std::alloc::{AllocError, Global};
use std::mem;

/// How many instants are followed at once: data that comes later than that is not told of.
const SPAN: u64 = 2048;

/// The instants that are followed, each at the remainder of its number.
#[derive(Drop)]
pub struct Stories {
    alloc: Global,
    streams: usize,
    /// The only instant that is asked for; none where all are.
    wanted: Option<u64>,
    slots: Vec<Option<Story>>,
    /// The lowest instant that has a place.
    low: Option<u64>,
    /// Those that are followed no more, in rising order.
    finished: Vec<Story>,
    /// For each stream the last instant of them of which data came, and when.
    last: [Option<(u64, u64)>; MAX_PMUS],
    /// The last steps that are not in the record,
    gap: Option<Gap>,
    /// and the highest instant of which data may be among them, once it is known.
    reach: Option<u64>,
    /// A file behind them carries over what was taken of instants above this one.
    carried: Option<u64>,
}

impl Stories {
    /// None is followed.
    ///
    /// # Errors
    ///
    /// [`AllocError`] where there is no memory.
    pub fn new(alloc: Global, streams: usize, wanted: Option<u64>) -> Result<Stories, AllocError> {
        let mut slots = Vec::new(alloc);
        for _ in 0..SPAN {
            slots.push(None)?;
        }
        Ok(Stories {
            alloc,
            streams,
            wanted,
            slots,
            low: None,
            finished: Vec::new(alloc),
            last: [None; MAX_PMUS],
            gap: None,
            reach: None,
            carried: None,
        })
    }

    /// Whether the instant is to be followed, where `now` is about the time.
    fn is_followed(&self, instant: u64, now: u64) -> bool {
        match self.wanted {
            Some(wanted) => instant == wanted || instant.saturating_add(1) == wanted,
            None => instant <= now.saturating_add(SPAN / 2),
        }
    }

    /// Notes when data came of an instant that is not followed.
    pub fn pass(&mut self, stream: usize, instant: u64, time: u64) {
        let Some(wanted) = self.wanted else {
            return;
        };
        if let Some(place) = self.last.get_mut(stream) {
            let is_later = match place {
                Some((old, _)) => *old < instant,
                None => true,
            };
            if instant < wanted && is_later {
                *place = Some((instant, time));
            }
        }
    }

    /// An instant is followed no more.
    fn finish(&mut self, instant: u64) -> Result<(), AllocError> {
        let Some(slot) = self.slots.get_mut((instant % SPAN) as usize) else {
            return Ok(());
        };
        let Some(story) = mem::replace(slot, None) else {
            return Ok(());
        };
        let mut story = story;
        for (came, last) in story
            .came
            .as_mut_slice()
            .iter_mut()
            .zip(self.last.as_mut_slice())
        {
            came.before = *last;
            if let Some(arrived) = came.arrivals.as_slice().first() {
                *last = Some((story.instant, arrived.time));
            }
        }
        self.finished.push(story)?;
        Ok(())
    }

    /// The instants below this one are followed no more.
    fn finish_below(&mut self, low: u64) -> Result<(), AllocError> {
        if let Some(old) = self.low {
            let count = low.saturating_sub(old).min(SPAN);
            for step in 0..count {
                self.finish(old.saturating_add(step))?;
            }
        }
        self.low = Some(low);
        Ok(())
    }

    /// The story of an instant, where it is to be followed and `now` is about the time.
    ///
    /// # Errors
    ///
    /// [`AllocError`] where there is no memory.
    pub fn at(&mut self, instant: u64, now: u64) -> Result<Option<&mut Story>, AllocError> {
        if !self.is_followed(instant, now) {
            return Ok(None);
        }
        let low = match self.low {
            Some(low) => low,
            None => {
                let low = instant.saturating_sub(SPAN / 2);
                self.low = Some(low);
                low
            }
        };
        if instant < low {
            return Ok(None);
        }
        if instant - low >= SPAN {
            self.finish_below(instant - (SPAN - 1))?;
        }
        let Some(slot) = self.slots.get_mut((instant % SPAN) as usize) else {
            return Ok(None);
        };
        if slot.is_none() {
            let mut story = Story::new(self.alloc, instant, self.streams)?;
            story.gap = match self.reach {
                Some(reach) if reach < instant => None,
                _ => self.gap,
            };
            story.is_carried = match self.carried {
                Some(floor) => instant > floor,
                None => false,
            };
            *slot = Some(story);
        }
        Ok(slot.as_mut())
    }

    /// Steps are not in the record: data of instants whose row was not popped may be among them.
    pub fn miss(&mut self, gap: Gap) {
        self.gap = Some(gap);
        self.reach = None;
        self.carried = None;
        for slot in self.slots.as_mut_slice() {
            if let Some(story) = slot {
                if story.popped.is_none() {
                    story.gap = Some(gap);
                    story.is_carried = false;
                }
            }
        }
    }

    /// A file behind the steps that are not in the record carries over what was taken of instants above this one.
    pub fn carry(&mut self, floor: u64) {
        self.carried = Some(floor);
        for slot in self.slots.as_mut_slice() {
            if let Some(story) = slot {
                if story.popped.is_none() && story.instant > floor {
                    story.is_carried = true;
                }
            }
        }
    }

    /// After a tick, data may come of instants up to this one.
    pub fn reach(&mut self, instant: u64) {
        if self.reach.is_none() {
            self.reach = Some(instant);
        }
    }

    /// Sections were adopted at the tick that so many were with it.
    pub fn adopt(&mut self, adopted: &InForce, ticks: u64) {
        for slot in self.slots.as_mut_slice() {
            if let Some(story) = slot {
                adopt_in(story, adopted, ticks);
            }
        }
    }

    /// Those that are followed no more, in rising order.
    pub fn finished(&mut self) -> Vec<Story> {
        mem::replace(&mut self.finished, Vec::new(self.alloc))
    }

    /// No instant is followed any more.
    ///
    /// # Errors
    ///
    /// [`AllocError`] where there is no memory.
    pub fn end(&mut self) -> Result<(), AllocError> {
        if let Some(low) = self.low {
            self.finish_below(low.saturating_add(SPAN))?;
        }
        self.low = None;
        Ok(())
    }
}

/// Sections were adopted at a tick.
fn adopt_in(story: &mut Story, adopted: &InForce, ticks: u64) {
    if story.popped.is_some() {
        return;
    }
    for came in story.came.as_mut_slice() {
        for held in adopted {
            if let Some(held) = held {
                let adopted = Adopted {
                    count: held.count,
                    ticks,
                };
                came.adopt(held.column, adopted);
            }
        }
    }
}
