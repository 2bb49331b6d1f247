//! What was heard on a stream.
ghost use Rattle.std.specs.Prelude.{◌<◌, ◌↔◌, IsTrue};
ghost use Rattle.pdc_watch.specs.Age.{IsOld};

use crate::age::is_old;
use crate::cell::MAX_RATE;
use crate::delays::Delays;
use crate::metered::Metered;
use crate::now::Now;
use crate::pmu::Moment;
use crate::presence::Presence;
use crate::station::Station;
use pdc_block::{Frame, read_body};
use pdc_frame::{COUNT_LIMIT, instant};
use std::alloc::{AllocError, Global};

/// What was heard on a stream.
#[derive(Drop)]
pub struct Heard {
    /// Whether there is a connection.
    pub connected: bool,
    /// What its configuration says, the concentrator itself first.
    pub stations: Vec<Station>,
    /// TIME_BASE of its configuration.
    pub time_base: u32,
    /// When the last data frame came, in ms since 1970; 0 where none did.
    pub came_ms: u64,
    /// When it came by the clock that is never set, in ms.
    pub came_steady_ms: u64,
    /// Since when frames came without a pause, in ms since 1970.
    pub since_ms: u64,
    /// How many data frames have their instants in each of the last tenths of seconds.
    pub instants: Presence,
    /// How far behind their instants they came.
    pub delays: Delays,
    /// How late it published, by its own counters.
    pub metered: Metered,
    /// How many data frames came.
    pub frames: u64,
    /// How many of them fit no configuration that came.
    pub unread: u64,
    /// The start and the change that the last one tells.
    pub start: u32,
    pub change: u32,
    /// When the instant of the last one was, in ms since 1970.
    pub last_ms: u64,
}

/// The instant of a frame that came then, under its TIME_BASE.
fn moment_of(frame: &Frame, time_base: u32, rate: u32, came: Now) -> Option<Moment> {
    if rate == 0 || rate > MAX_RATE || time_base >= COUNT_LIMIT {
        return None;
    }
    let instant = instant(frame.soc, frame.frac, time_base, rate)?;
    Some(Moment {
        instant,
        ms: instant.saturating_mul(1000).checked_div(u64::from(rate))?,
        came,
    })
}

/// The bytes of the payload that these stations send.
fn payload_len(stations: &[Station]) -> usize {
    let mut len = 0usize;
    for station in stations {
        len = len.saturating_add(2 * station.shape.word_count());
    }
    len
}

/// A word of the block, or 0.
fn word_at(words: &[u16], place: usize) -> u32 {
    words.get(place).copied().map_or(0, u32::from)
}

/// What the own block tells, the first of the payload.
#[derive(Clone, Copy)]
struct Stamp {
    start: u32,
    change: u32,
}

/// The start and the change that the own block of this station tells.
fn stamp_of(own: &Station, payload: &[u8]) -> Option<Stamp> {
    let bytes = payload.get(..2 * own.shape.word_count())?;
    let block = read_body(own.shape, bytes).ok()?;
    let words = block.words();
    Some(Stamp {
        start: word_at(words, 3) << 16 | word_at(words, 4),
        change: word_at(words, 5) << 16 | word_at(words, 6),
    })
}

impl Heard {
    /// Nothing yet.
    ///
    /// # Errors
    ///
    /// [`AllocError`] where there is no memory for it.
    pub fn new(alloc: Global, now: Now) -> Result<Heard, AllocError> {
        Ok(Heard {
            connected: false,
            stations: Vec::new(alloc),
            time_base: 0,
            came_ms: 0,
            came_steady_ms: 0,
            since_ms: now.utc_ms,
            instants: Presence::new(alloc)?,
            delays: Delays::new(alloc)?,
            metered: Metered::new(alloc),
            frames: 0,
            unread: 0,
            start: 0,
            change: 0,
            last_ms: 0,
        })
    }

    /// Whether it lives: a data frame came, and the last one is not old.
    pub fn is_alive(&self, rate: u32, now: Now) -> bool
        ensures { IsTrue result ↔ (0 < self.now.frames)
            × (IsOld self.now.came_steady_ms now.steady_ms rate → ⊥) }
    {
        self.frames > 0 && !is_old(self.came_steady_ms, now.steady_ms, rate)
    }

    /// A data frame came.
    pub fn note(&mut self, rate: u32, now: Now) {
        if !self.is_alive(rate, now) {
            self.since_ms = now.utc_ms;
        }
        self.came_ms = now.utc_ms;
        self.came_steady_ms = now.steady_ms;
        self.frames = self.frames.saturating_add(1);
    }

    /// Since when it is as it is, alive or not, in ms since 1970.
    pub fn since(&self, rate: u32, now: Now) -> u64 {
        if self.frames == 0 || self.is_alive(rate, now) {
            self.since_ms
        } else {
            self.came_ms
        }
    }

    /// For how long no data frame came, in ms; nothing where none ever did.
    pub fn age(&self, now: Now) -> Option<u64> {
        if self.frames == 0 {
            return None;
        }
        Some(now.steady_ms.saturating_sub(self.came_steady_ms))
    }

    /// How many data frames have their instants in the second before that of the last one; 0 where the stream does not live.
    pub fn frames_a_second(&self, rate: u32, now: Now) -> u32 {
        if !self.is_alive(rate, now) {
            return 0;
        }
        let begin = (self.last_ms / 1000).saturating_sub(1).saturating_mul(10);
        let mut count = 0u32;
        for tenth in begin..begin.saturating_add(10) {
            count = count.saturating_add(u32::from(self.instants.came(tenth)));
        }
        count
    }

    /// The instant of a data frame that fits the configuration: by its length, by its time tag, and by the change that its own block tells.
    pub fn moment(&mut self, frame: &Frame, rate: u32, now: Now) -> Option<Moment> {
        let stations = self.stations.as_slice();
        if payload_len(stations) != frame.payload.len() {
            return None;
        }
        let own = stations.first()?;
        let stamp = stamp_of(own, frame.payload)?;
        if stamp.change % 65536 != u32::from(own.count) {
            return None;
        }
        let moment = moment_of(frame, self.time_base, rate, now)?;
        self.start = stamp.start;
        self.change = stamp.change;
        self.last_ms = moment.ms;
        self.instants.note(moment.ms / 100, 0);
        self.delays.note(self.came_ms.saturating_sub(moment.ms));
        Some(moment)
    }
}
