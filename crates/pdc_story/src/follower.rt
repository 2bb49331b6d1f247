//! A record is followed, entry by entry.

use crate::about::{About, Unexplained};
use crate::followed::{Followed, Heard};
use crate::gap::{Gap, Hold};
use crate::story::Story;
use crate::wanted::Selection;
use pdc_record::{Begun, Entry, What};
use std::alloc::{AllocError, Global};

/// What stands at the front of a file, behind its first entry.
#[derive(Clone, Copy, Debug, PartialEq, Eq)]
enum Front {
    /// Steps before it that a core must know.
    Carried {
        /// The instant up to which all was published before them.
        floor: u64,
        /// One of them was there.
        is_begun: bool,
    },
    /// Steps that were followed already.
    Known,
    /// They are over.
    Past,
}

/// Follows the entries of a record, and gives the story of each instant.
#[derive(Drop)]
pub struct Follower {
    alloc: Global,
    wanted: Selection,
    life: Option<Followed>,
    gaps: Vec<Gap>,
    /// The number of the next step.
    next: u64,
    front: Front,
    /// The number of the file that is read, from 0: whoever hands on the entries of several files sets it.
    pub file: usize,
    /// The time of the last entry.
    end: u64,
}

impl Follower {
    /// Nothing was followed yet. Where one instant is wanted, it is the only one, with the one before it.
    pub fn new(alloc: Global, wanted: Selection) -> Follower {
        Follower {
            alloc,
            wanted,
            life: None,
            gaps: Vec::new(alloc),
            next: 0,
            front: Front::Past,
            file: 0,
            end: 0,
        }
    }

    /// Whether this instant is the only one that is wanted.
    pub fn is_wanted(&self, instant: u64) -> bool {
        match &self.life {
            Some(life) => self.wanted.instant(life.about.rate()) == Some(instant),
            None => false,
        }
    }

    /// Whose record it is.
    pub fn about(&self) -> Option<&About> {
        match &self.life {
            Some(life) => Some(&life.about),
            None => None,
        }
    }

    /// The steps that are not in the record.
    pub fn gaps(&self) -> &[Gap] {
        self.gaps.as_slice()
    }

    /// The times in which no tick came, of the life that is followed.
    pub fn holds(&self) -> &[Hold] {
        match &self.life {
            Some(life) => life.holds.as_slice(),
            None => &[],
        }
    }

    /// The time of the last entry, in nanoseconds since 1970.
    pub fn end_time(&self) -> u64 {
        self.end
    }

    /// Whether an entry begins another life than the one that is followed: [`Follower::end`] is to be called before it is taken.
    pub fn is_other_life(&self, entry: &Entry<'_>) -> bool {
        match (&self.life, &entry.what) {
            (Some(life), What::Begun(begun)) => {
                entry.step == 0 || begun.start != life.about.start || begun.id != life.about.id()
            }
            _ => false,
        }
    }

    /// A life begins, or a record of its later steps.
    fn begin(&mut self, step: u64, begun: &Begun<'_>) -> Result<(), Unexplained> {
        let life = Followed::new(self.alloc, begun, step, self.wanted)?;
        self.life = Some(life);
        self.next = 0;
        Ok(())
    }

    /// The steps up to the one before `until` are not in the record, where that is not the next one.
    fn miss(&mut self, until: u64, time: u64, file: Option<usize>) -> Result<(), AllocError> {
        if until == self.next {
            return Ok(());
        }
        if let Some(life) = &mut self.life {
            let gap = Gap {
                from: self.next,
                until,
                begins: self.end,
                ends: time,
                file,
                low: life.next_row(),
                high: u64::MAX,
            };
            life.miss(gap);
            self.gaps.push(gap)?;
        }
        Ok(())
    }

    /// Notes the number of a step, and the steps before it that are not in the record. One whose gap was told already may stand anywhere.
    fn count(&mut self, entry: &Entry<'_>) -> Result<(), AllocError> {
        let (until, next) = match &entry.what {
            What::Arrived { .. }
            | What::NoFrame { .. }
            | What::Ticked { .. }
            | What::FoundNone
            | What::Popped { .. } => (entry.step, entry.step.saturating_add(1)),
            What::Missing { until } => (*until, *until),
            _ => return Ok(()),
        };
        if until >= self.next {
            self.miss(until, entry.time, None)?;
            self.next = next;
        }
        if let (What::Popped { instant, .. }, Some(gap)) = (
            &entry.what,
            self.gaps.as_mut_slice().last_mut(),
        ) {
            gap.high = gap.high.min(instant.saturating_sub(1));
        }
        Ok(())
    }

    /// Takes an entry.
    ///
    /// # Errors
    ///
    /// The record does not begin as one does, or there is no memory.
    pub fn take(&mut self, entry: &Entry<'_>) -> Result<(), Unexplained> {
        if let What::Begun(begun) = &entry.what {
            if self.life.is_none() || self.is_other_life(entry) {
                self.begin(entry.step, begun)?;
            }
            self.miss(entry.step, entry.time, Some(self.file))?;
            self.next = entry.step;
            self.front = self.front_at(entry.step, begun.floor);
        } else if self.is_at_front(entry) {
            return self.carry(entry);
        }
        self.count(entry)?;
        self.end = entry.time;
        self.follow(entry)
    }

    /// What stands at the front of a file that begins with the step of this number, with this floor.
    fn front_at(&self, step: u64, floor: u64) -> Front {
        match &self.life {
            _ if step == 0 => Front::Past,
            Some(life) if !life.is_known() => Front::Carried {
                floor,
                is_begun: false,
            },
            _ => Front::Known,
        }
    }

    /// Whether an entry is a step that the file carries over; where one is not, they are over.
    fn is_at_front(&mut self, entry: &Entry<'_>) -> bool {
        if !entry.is_carried(self.next) {
            self.front = Front::Past;
        }
        self.front != Front::Past
    }

    /// Follows a step that the file carries over.
    fn carry(&mut self, entry: &Entry<'_>) -> Result<(), Unexplained> {
        let Front::Carried { floor, is_begun } = self.front else {
            return Ok(());
        };
        let Some(life) = &mut self.life else {
            return Err(Unexplained::NoBeginning);
        };
        if !is_begun {
            self.front = Front::Carried {
                floor,
                is_begun: true,
            };
            life.carry(floor);
        }
        match &entry.what {
            What::Arrived {
                stream,
                outcome,
                datagram,
            } => life.hear(&Heard {
                step: entry.step,
                time: entry.time,
                stream: usize::from(*stream),
                outcome: Some(*outcome),
                datagram,
            })?,
            What::Ticked {
                now,
                counts,
                change,
                ..
            } => life.tick_carried(entry.time, *now, counts, change.is_some()),
            _ => {}
        }
        Ok(())
    }

    /// Follows an entry.
    fn follow(&mut self, entry: &Entry<'_>) -> Result<(), Unexplained> {
        let (alloc, time) = (self.alloc, entry.time);
        let Some(life) = &mut self.life else {
            return Err(Unexplained::NoBeginning);
        };
        match &entry.what {
            What::Begun(_) | What::Missing { .. } => {}
            What::FoundNone => life.find_none(),
            What::Arrived {
                stream,
                outcome,
                datagram,
            } => life.hear(&Heard {
                step: entry.step,
                time,
                stream: usize::from(*stream),
                outcome: Some(*outcome),
                datagram,
            })?,
            What::NoFrame {
                stream,
                outcome,
                front,
                ..
            } => life.hear(&Heard {
                step: entry.step,
                time,
                stream: usize::from(*stream),
                outcome: Some(*outcome),
                datagram: front,
            })?,
            What::Unanswered { stream, datagram } => life.hear(&Heard {
                step: self.next,
                time,
                stream: usize::from(*stream),
                outcome: None,
                datagram,
            })?,
            What::Ticked {
                now,
                counts,
                closed,
                change,
                ..
            } => life.tick(time, *now, counts, *closed, change.is_some())?,
            What::Popped { instant, frame } => life.pop(alloc, time, *instant, *frame)?,
            What::Laid { frame } => life.lay(frame),
        }
        Ok(())
    }

    /// The instants that are followed no more, in rising order.
    pub fn finished(&mut self) -> Option<Vec<Story>> {
        match &mut self.life {
            Some(life) => Some(life.stories.finished()),
            None => None,
        }
    }

    /// The record is at its end, or another life begins: no instant is followed any more.
    ///
    /// # Errors
    ///
    /// [`AllocError`] where there is no memory.
    pub fn end(&mut self) -> Result<(), AllocError> {
        match &mut self.life {
            Some(life) => life.stories.end(),
            None => Ok(()),
        }
    }
}
