//! What a core must know where a file of a record begins, as steps from before it.
//!
//! A core is what its steps made of it, and most of them leave nothing. What is left of them is what these steps make of a core that begins
//! anew with the last instant that was popped as its floor: each configuration that was held, with the ticks that adopted; the data of open
//! instants, with the ticks since the first of it; and one tick before that.

use crate::carrying::{Carrying, carrying_of};
use pdc_journal::Tags;
use pdc_record::{Begun, Entry, MAX_PMUS, What, read_entry};
use std::alloc::{AllocError, Global};
use std::collections::VecDeque;

/// How many bytes the configurations and the ticks that adopted have at most,
const MOST_LASTING: usize = 8_388_608;

/// and the data of open instants with its ticks.
const MOST_RECENT: usize = 16_777_216;

/// The widest window, in instants.
const WIDEST: u64 = 256;

/// The greatest data rate, in frames a second.
const MAX_RATE: u16 = 240;

/// `TIME_BASE` and FRACSEC have 24 bits of a word.
const COUNT_LIMIT: u32 = 16_777_216;

/// Where `TIME_BASE` stands in a configuration frame (C37.118.2-2011, table 9).
const TIME_BASE: usize = 14;

/// A step that is carried over.
#[derive(Drop)]
struct Step {
    number: u64,
    /// Of data the instant; none of what is no data.
    instant: Option<u64>,
    bytes: Vec<u8>,
}

/// Steps in the order of their numbers.
#[derive(Drop)]
struct Steps {
    items: VecDeque<Step>,
    /// How many bytes they have.
    len: usize,
}

/// How much of the life is known.
#[derive(Clone, Copy, Debug, PartialEq, Eq)]
enum Knowledge {
    /// All that a core must know.
    All,
    /// Of instants that are open something may have been missed, and no data came since.
    Configurations,
    /// The same, until all is popped up to this instant.
    Until(u64),
    /// A configuration or an adoption was missed.
    Nothing,
}

/// What a core must know after the entries of a life so far.
#[derive(Drop)]
pub struct Carried {
    alloc: Global,
    rate: u16,
    /// For each stream the `TIME_BASE` of its configuration.
    bases: [u32; MAX_PMUS],
    /// The instant up to which all is popped.
    floor: u64,
    /// Configurations, and the ticks that adopted.
    lasting: Steps,
    /// Data of open instants, and the ticks since the first of it, with one before that.
    recent: Steps,
    /// A tick came.
    has_ticked: bool,
    /// No row waits to be popped.
    is_quiet: bool,
    knowledge: Knowledge,
}

impl Steps {
    fn new(alloc: Global) -> Steps {
        Steps {
            items: VecDeque::new(alloc),
            len: 0,
        }
    }

    /// Adds a step at its place, where all then have so many bytes at most.
    fn add(&mut self, step: Step, most: usize) -> Result<(), AllocError> {
        let more = step.bytes.len();
        if self.len > most || more > most - self.len {
            return Err(AllocError);
        }
        let number = step.number;
        let place = self.items.partition_point(|it| it.number < number);
        self.items.insert(place, step)?;
        self.len = self.len.saturating_add(more);
        Ok(())
    }

    /// Forgets all.
    fn clear(&mut self) {
        self.items.clear();
        self.len = 0;
    }

    /// Forgets the first step.
    fn remove_first(&mut self) {
        if let Some(step) = self.items.pop_front() {
            self.len = self.len.saturating_sub(step.bytes.len());
        }
    }

    /// Whether the step at this place is a tick.
    fn is_tick(&self, place: usize) -> bool {
        match self.items.get(place) {
            Some(step) => step.instant.is_none(),
            None => false,
        }
    }

    /// Forgets the data of instants up to the floor, and the ticks before the data that is left, but the last of them.
    fn forget(&mut self, floor: u64) {
        self.items.retain(|step| match step.instant {
            Some(instant) => instant > floor,
            None => true,
        });
        for _ in 0..self.items.len() {
            if !self.is_tick(0) || !self.is_tick(1) {
                break;
            }
            let _tick = self.items.pop_front();
        }
        self.len = self
            .items
            .iter()
            .fold(0usize, |len, step| len.saturating_add(step.bytes.len()));
    }
}

/// The bytes, kept.
fn kept(alloc: Global, bytes: &[u8]) -> Result<Vec<u8>, AllocError> {
    let mut copy = Vec::new(alloc);
    copy.extend_from_slice(bytes)?;
    Ok(copy)
}

/// The `TIME_BASE` of a configuration frame.
fn base_in(datagram: &[u8]) -> Option<u32> {
    match datagram.get(TIME_BASE..)? {
        [a, b, c, d, ..] => Some(u32::from_be_bytes([*a, *b, *c, *d])),
        _ => None,
    }
}

impl Carried {
    /// Of a life that began so, and had no step yet.
    pub fn new(alloc: Global, begun: &Begun<'_>) -> Carried {
        Carried {
            alloc,
            rate: begun.rate,
            bases: [0; MAX_PMUS],
            floor: begun.floor,
            lasting: Steps::new(alloc),
            recent: Steps::new(alloc),
            has_ticked: false,
            is_quiet: false,
            knowledge: Knowledge::All,
        }
    }

    /// Whether no row waits to be popped: a file may end here.
    pub fn is_quiet(&self) -> bool {
        self.is_quiet
    }

    /// Steps were missed, but no configuration that was held, and no tick that adopted.
    pub fn miss(&mut self) {
        self.recent.clear();
        if self.knowledge != Knowledge::Nothing {
            self.knowledge = Knowledge::Configurations;
        }
    }

    /// A configuration or an adoption was missed: nothing is carried over any more.
    pub fn give_up(&mut self) {
        self.lasting.clear();
        self.recent.clear();
        self.knowledge = Knowledge::Nothing;
    }

    /// Carries a step over for the whole life.
    fn keep(&mut self, number: u64, bytes: &[u8]) -> Result<(), AllocError> {
        let step = Step {
            number,
            instant: None,
            bytes: kept(self.alloc, bytes)?,
        };
        self.lasting.add(step, MOST_LASTING)
    }

    /// Carries data, or a tick, over for a while.
    fn keep_recent(
        &mut self,
        number: u64,
        instant: Option<u64>,
        bytes: &[u8],
    ) -> Result<(), AllocError> {
        let step = Step {
            number,
            instant,
            bytes: kept(self.alloc, bytes)?,
        };
        self.recent.add(step, MOST_RECENT)
    }

    /// The instant of data for this stream.
    fn instant_of(&self, stream: u16, datagram: &[u8]) -> Option<u64> {
        let time_base = *self.bases.get(usize::from(stream))? % COUNT_LIMIT;
        let tags = Tags {
            rate: self.rate.clamp(1, MAX_RATE),
            time_base,
        };
        tags.instant_of(datagram)
    }

    /// A configuration that is held.
    fn hold(&mut self, number: u64, stream: u16, datagram: &[u8], bytes: &[u8]) {
        if let (Some(base), Some(place)) = (
            base_in(datagram),
            self.bases.get_mut(usize::from(stream)),
        ) {
            *place = base;
        }
        if self.keep(number, bytes).is_err() {
            self.give_up();
        }
    }

    /// Data that was taken.
    fn take(&mut self, number: u64, stream: u16, datagram: &[u8], bytes: &[u8]) {
        let instant = self.instant_of(stream, datagram).unwrap_or(u64::MAX);
        if self.knowledge == Knowledge::Configurations {
            self.knowledge = Knowledge::Until(instant.saturating_add(WIDEST));
        }
        if self.keep_recent(number, Some(instant), bytes).is_err() {
            self.miss();
        }
    }

    /// A tick.
    fn tick(&mut self, number: u64, adopts: bool, bytes: &[u8]) {
        self.is_quiet = false;
        self.has_ticked = true;
        if adopts {
            if self.keep(number, bytes).is_err() {
                self.give_up();
            }
        } else if self.keep_recent(number, None, bytes).is_err() {
            self.miss();
        }
    }

    /// No row waits.
    fn rest(&mut self) {
        self.is_quiet = true;
        self.recent.forget(self.floor);
        if let Knowledge::Until(instant) = self.knowledge {
            if self.floor >= instant {
                self.knowledge = Knowledge::All;
            }
        }
    }

    /// Follows an entry, of which these are the bytes.
    fn follow(&mut self, entry: &Entry<'_>, bytes: &[u8]) {
        match &entry.what {
            What::Arrived {
                stream,
                outcome,
                datagram,
            } => match carrying_of(*outcome) {
                Carrying::Configuration => self.hold(entry.step, *stream, datagram, bytes),
                Carrying::Data => self.take(entry.step, *stream, datagram, bytes),
                Carrying::Nothing => {}
            },
            What::Ticked { change, .. } => self.tick(entry.step, change.is_some(), bytes),
            What::Popped { instant, .. } => {
                self.is_quiet = false;
                self.floor = self.floor.max(*instant);
            }
            What::FoundNone => self.rest(),
            _ => {}
        }
    }

    /// Notes the bytes of an entry.
    pub fn note(&mut self, bytes: &[u8]) {
        if let Ok((entry, _)) = read_entry(bytes) {
            self.follow(&entry, bytes);
        }
    }

    /// Whether a core can begin with what is carried over.
    fn is_known(&self) -> bool {
        self.knowledge == Knowledge::All && self.is_quiet && self.has_ticked
    }

    /// The floor with which a file begins whose first steps are carried over: the last instant that was popped; none where nothing is.
    pub fn floor(&self) -> Option<u64> {
        if self.is_known() {
            Some(self.floor)
        } else {
            None
        }
    }

    /// Appends the steps that are carried over, in the order of their numbers; none where a core cannot begin with them.
    ///
    /// # Errors
    ///
    /// [`AllocError`] where there is no memory.
    pub fn append_to(&self, out: &mut Vec<u8>) -> Result<(), AllocError> {
        if !self.is_known() {
            return Ok(());
        }
        let mut recent = 0usize;
        for step in self.lasting.items.iter() {
            for _ in 0..self.recent.items.len() {
                match self.recent.items.get(recent) {
                    Some(other) if other.number < step.number => {
                        out.extend_from_slice(other.bytes.as_slice())?;
                        recent = recent.saturating_add(1);
                    }
                    _ => break,
                }
            }
            out.extend_from_slice(step.bytes.as_slice())?;
        }
        for place in recent..self.recent.items.len() {
            if let Some(step) = self.recent.items.get(place) {
                out.extend_from_slice(step.bytes.as_slice())?;
            }
        }
        Ok(())
    }
}
