//! A source that tells how much it delivered, and a ticker that waits for it.
ghost use Rattle.std.specs.Prelude.{◌≡◌, ◌≤◌, ℕ, length};

use pdc_ports::{Next, Numbered, Outcome, Source, Ticker};
use std::rt::Clock;
use std::sync::atomic::{AtomicU64, Ordering};
use std::thread;
use std::time::Duration;

/// How often a trial looks before it gives up: ten seconds long.
const TURNS: u32 = 10_000;

/// The instant of the first tick.
const FIRST: u64 = 57_478_860_000;

/// What the threads of a trial tell one another.
#[derive(Drop)]
pub struct Gauges {
    /// How many datagrams the source of each PMU delivered.
    pub first: AtomicU64,
    pub second: AtomicU64,
    /// 1 once the trial is done.
    pub done: AtomicU64,
    /// How many consumers are served.
    pub present: AtomicU64,
}

impl Gauges {
    /// Nothing happened yet.
    pub fn new() -> Gauges {
        Gauges {
            first: AtomicU64::new(0),
            second: AtomicU64::new(0),
            done: AtomicU64::new(0),
            present: AtomicU64::new(0),
        }
    }
}

/// Waits until the gauge shows so much, and answers whether it did.
pub fn wait_for<R: Clock>(rt: &R, gauge: &AtomicU64, least: u64) -> bool {
    for _ in 0..TURNS {
        if gauge.load(Ordering::SeqCst) >= least {
            return true;
        }
        thread::sleep(rt, Duration::from_millis(1));
    }
    false
}

/// A source that counts a datagram once it is asked for the next, and so has delivered it.
#[derive(Drop)]
pub struct Watched<'a, S: Source + Drop> {
    pub inner: S,
    pub delivered: &'a AtomicU64,
    pub gave: bool,
}

impl<'a, S: Source + Drop> Source for Watched<'a, S> {
    ghost told = { λ s heard. S.told s.inner heard };

    ghost failures_of = { λ s. S.failures_of s.inner };

    ghost row_left = { λ s. S.row_left s.inner };

    fn next(&mut self, buffer: &mut [u8]) -> Next {
        if self.gave {
            self.delivered.fetch_add(1, Ordering::SeqCst);
        }
        let next = self.inner.next(buffer);
        self.gave = matches!(next, Next::Datagram(_));
        next
    }

    fn answered(&mut self, answer: Option<Numbered<Outcome>>) {
        self.inner.answered(answer);
    }

    fn failures(&self) -> u64 {
        self.inner.failures()
    }
}

/// Ticks once each source delivered a datagram, again once each delivered two, and ends once the trial is done.
#[derive(Drop)]
pub struct Paced<'a, R: Clock> {
    pub rt: &'a R,
    pub gauges: &'a Gauges,
    pub given: u64,
}

impl<'a, R: Clock> Ticker for Paced<'a, R> {
    fn next(&mut self) -> Option<u64> {
        let given = self.given;
        if given >= 2 {
            wait_for(self.rt, &self.gauges.done, 1);
            return None;
        }
        self.given = given + 1;
        if wait_for(self.rt, &self.gauges.first, given + 1)
            && wait_for(self.rt, &self.gauges.second, given + 1)
        {
            return FIRST.checked_add(given);
        }
        None
    }
}
