//! Sources in memory and the ticker that they wait for.
ghost use Rattle.std.specs.Prelude.{◌≡◌, ◌≤◌, ℕ, length};

use crate::frames::FLOOR;
use crossbeam_utils::CachePadded;
use pdc_ports::{Next, Numbered, Outcome, Sink, SinkFault, Source, Ticker};
use pdc_service::Outlet;
use std::rt::Clock;
use std::sync::Wait;
use std::sync::atomic::{AtomicU64, Ordering};
use std::thread;
use std::time::Duration;

/// How many instants a source may be ahead of the last one that was published.
const AHEAD: u64 = 100;

/// How many microseconds a source sleeps that is as far ahead: as a receiver sleeps that waits for a datagram. A hundred instants take longer.
const NAP: u64 = 200;

/// How often the ticker looks before it gives up.
const TURNS: u64 = 1_000_000_000;

/// Gives the frames of a PMU, none before it is released.
#[derive(Drop)]
pub struct Feed<'a, R: Wait + Clock> {
    rt: &'a R,
    frames: &'a [Vec<u8>],
    given: usize,
    /// How many of its frames it has told to be delivered,
    told: usize,
    /// and where it tells it.
    delivered: &'a AtomicU64,
    /// Up to which number its frames may be given.
    released: &'a AtomicU64,
}

impl<'a, R: Wait + Clock> Feed<'a, R> {
    /// A source that has given no frame yet.
    pub fn new(
        rt: &'a R,
        frames: &'a [Vec<u8>],
        delivered: &'a AtomicU64,
        released: &'a AtomicU64,
    ) -> Feed<'a, R> {
        Feed {
            rt,
            frames,
            given: 0,
            told: 0,
            delivered,
            released,
        }
    }
}

impl<'a, R: Wait + Clock> Source for Feed<'a, R> {
    ghost use Rattle.std.specs.Prelude.{◌-◌, length};

    ghost failures_of = { λ _. 0 };

    ghost row_left = { λ s. length s.frames.now - s.given };

    fn next(&mut self, buffer: &mut [u8]) -> Next {
        // What was given before was delivered, since more is asked for.
        if self.told < self.given {
            self.delivered.store(self.given as u64, Ordering::Release);
            self.told = self.given;
        }
        let Some(frame) = self.frames.get(self.given) else {
            return Next::End;
        };
        if self.given as u64 > self.released.load(Ordering::Acquire) {
            thread::sleep(self.rt, Duration::from_micros(NAP));
            return Next::Idle;
        }
        let len = frame.len();
        if len > buffer.len() {
            return Next::End;
        }
        buffer[..len].copy_from_slice(frame);
        self.given = self.given.saturating_add(1);
        Next::Datagram(len)
    }

    fn answered(&mut self, _answer: Option<Numbered<Outcome>>) {}

    fn failures(&self) -> u64 {
        0
    }
}

/// Ticks whenever each source has delivered more, with the instant up to which all have, and releases the frames that come next. It ends
/// once all frames were delivered.
#[derive(Drop)]
pub struct Following<'a> {
    delivered: &'a [CachePadded<AtomicU64>],
    released: &'a AtomicU64,
    /// How many frames of each source there are.
    count: u64,
    /// How many of each were delivered at the last tick.
    done: u64,
}

impl<'a> Following<'a> {
    /// A ticker that has not ticked yet.
    pub fn new(
        delivered: &'a [CachePadded<AtomicU64>],
        released: &'a AtomicU64,
        count: u64,
    ) -> Following<'a> {
        Following {
            delivered,
            released,
            count,
            done: 0,
        }
    }

    /// How many frames each source has delivered at least.
    fn least(&self) -> u64 {
        let mut least = u64::MAX;
        for delivered in self.delivered {
            least = least.min(delivered.load(Ordering::Acquire));
        }
        least
    }
}

impl<'a> Ticker for Following<'a> {
    fn next(&mut self) -> Option<u64> {
        if self.done >= self.count {
            return None;
        }
        // The first tick adopts the configurations; only then the data are released.
        if self.done > 0 {
            self.released
                .store(self.done.saturating_add(AHEAD), Ordering::Release);
        }
        for _ in 0..TURNS {
            let least = self.least();
            if least > self.done {
                self.done = least;
                return FLOOR.checked_add(least - 1);
            }
            thread::yield_now();
        }
        None
    }
}

/// Takes each frame and keeps none.
#[derive(Drop)]
pub struct Discard;

/// It tells nothing of what it took.
impl Sink for Discard {
    ghost took = { λ _ _ _. Unit {0} };

    ghost nothing = { λ _. tt };

    ghost failures_of = { λ _. 0 };

    fn send(&mut self, _bytes: &[u8]) -> Result<(), SinkFault> {
        Ok(())
    }

    fn failures(&self) -> u64 {
        0
    }
}

impl Outlet for Discard {}
