//! Time that a ticker waits by.
ghost use Rattle.std.specs.Prelude.{◌++◌, ◌∷◌, ◌≤◌, [], ℕ, IfNone, IfSome, List};

use crate::deadlines::Deadlines;
use std::rt::Clock;
use std::thread;
use std::time::{Duration, Instant, SystemTime};

/// What a ticker has of time. It may tell what it showed: where `showed timepiece times`, it showed exactly these times, in order, each in
/// nanoseconds since 1970. One that tells nothing says that of any.
pub trait Timepiece {
    ghost showed: { Self → List ℕ → Type 0 } = { λ timepiece times. Unit {0} };

    /// The time at the next deadline, which it waits for; none where it cannot be read.
    fn at_next_deadline(&mut self) -> Option<u128>
        ensures some { IfSome result (λ time. (times : List ℕ) → showed self.old times →
            showed self.new (times ++ time ∷ [])) }
        ensures none { IfNone result ((times : List ℕ) → showed self.old times →
            showed self.new times) };
}

/// Deadlines by one of the system's clocks.
#[derive(Drop)]
pub(crate) struct Pace<C: Clock + Drop> {
    pub(crate) clock: C,
    pub(crate) deadlines: Deadlines,
    /// When the first deadline was, by the clock that never goes back; deadlines lie behind 1970 by the system's clock where there is none.
    start: Option<Instant>,
}

/// How many nanoseconds a length has, the greatest number of 64 bits where they do not hold it.
fn nanoseconds_of(length: Duration) -> u64 {
    u64::try_from(length.as_nanos()).unwrap_or(u64::MAX)
}

/// The time since 1970 that the clock shows; none where it cannot be read. A time before 1970 is 0.
pub(crate) fn time_now<C: Clock>(clock: &C) -> Option<Duration> {
    let now = SystemTime::now(clock).ok()?;
    Some(
        now.duration_since(SystemTime::UNIX_EPOCH)
            .unwrap_or(Duration::ZERO),
    )
}

impl<C: Clock + Drop> Pace<C> {
    /// At so many frames in a second: deadlines so many milliseconds behind each instant of the system's clock, or else the length of a frame
    /// apart from now on.
    pub(crate) fn new(clock: C, rate: u16, tick_ms: Option<u16>) -> Pace<C>
        requires { 1 ≤ rate }
    {
        let start = match tick_ms {
            Some(_) => None,
            None => Instant::now(&clock).ok(),
        };
        let deadlines = match tick_ms {
            Some(milliseconds) => Deadlines::behind_instants(rate, milliseconds),
            None => Deadlines::from_start(rate),
        };
        Pace {
            clock,
            deadlines,
            start,
        }
    }

    /// Where the clock stands that deadlines lie by.
    pub(crate) fn moment(&self) -> Option<u64> {
        let gone = match self.start {
            Some(start) => start.elapsed(&self.clock).ok()?,
            None => time_now(&self.clock)?,
        };
        Some(nanoseconds_of(gone))
    }

    /// The time since 1970 in nanoseconds; none where it cannot be read.
    pub(crate) fn time(&self) -> Option<u128> {
        match time_now(&self.clock) {
            Some(now) => Some(now.as_nanos()),
            None => None,
        }
    }
}

/// The system's clocks, and the sleep to each of the deadlines that lie by one of them.
#[derive(Drop)]
pub struct Metronome<C: Clock + Drop> {
    pace: Pace<C>,
    /// The deadline that was slept to last.
    last: u64,
}

impl<C: Clock + Drop> Metronome<C> {
    /// At so many frames in a second: deadlines so many milliseconds behind each instant of the system's clock, or else the length of a frame
    /// apart from now on.
    pub fn new(clock: C, rate: u16, tick_ms: Option<u16>) -> Metronome<C>
        requires { 1 ≤ rate }
    {
        Metronome {
            pace: Pace::new(clock, rate, tick_ms),
            last: 0,
        }
    }

    /// Sleeps to the first deadline above now, and above the last one, which a clock that was set back a little shows again.
    fn sleep_to_deadline(&mut self) {
        let length = self.pace.deadlines.length();
        let Some(now) = self.pace.moment() else {
            thread::sleep(&self.pace.clock, Duration::from_nanos(length));
            return;
        };
        let from = if now < self.last && self.last - now < length {
            self.last
        } else {
            now
        };
        self.last = from.saturating_add(self.pace.deadlines.wait_at(from));
        // A clock that is being set may show less than was slept: once more, then.
        for _ in 0..2 {
            match self.pace.moment() {
                Some(now) if now < self.last => {
                    let left = (self.last - now).min(length.saturating_mul(2));
                    thread::sleep(&self.pace.clock, Duration::from_nanos(left));
                }
                _ => return,
            }
        }
    }
}

impl<C: Clock + Drop> Timepiece for Metronome<C> {
    fn at_next_deadline(&mut self) -> Option<u128> {
        self.sleep_to_deadline();
        self.pace.time()
    }
}
