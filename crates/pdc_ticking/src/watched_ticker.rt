//! A ticker whose ticks others wait for, and that tells of ticks that come late.
ghost use Rattle.std.specs.Prelude.{◌≡◌, ◌≤◌, ℕ, List, Some, if◌then◌else◌, nat_le};
ghost use Rattle.std.specs.Duration.{as_nanos};
ghost use Rattle.pdc_journal.specs.Moment.{is_long_ago};
ghost use Rattle.pdc_ticking.specs.Ticks.{time_since};

use crate::last_tick::LastTick;
use pdc_journal::{Journal, Moment};
use pdc_ports::{Did, Progress, Ticker};
use std::alloc::Global;
use std::rt::Clock;
use std::sync::Wait;
use std::sync::atomic::{AtomicU64, Ordering};
use std::time::Duration;

/// By how much a tick is late that is told, in milliseconds.
const LATE: u64 = 200;

/// For how long no other line is told of late ticks, in seconds.
const PAUSE: u64 = 10;

/// Ticks as the inner ticker does. Each instant that is now it notes once the tick was made, for those who wait for it. Where there was no tick for a
/// fifth of a second more than there should be, it counts that and tells how long there was none, and what was done meanwhile; once in ten
/// seconds at most.
#[derive(Drop)]
pub struct WatchedTicker<'a, K: Ticker + Drop, R: Wait + Clock> {
    rt: &'a R,
    alloc: Global,
    journal: &'a Journal,
    last_tick: &'a LastTick,
    /// How many ticks came late.
    late: &'a AtomicU64,
    /// From one tick to the next, no less is late.
    most: Duration,
    /// When the last tick was given, and when it was made.
    given: Option<Moment>,
    made: Option<Moment>,
    /// When a late tick was told last.
    told: Option<Moment>,
    inner: K,
}

/// How long ago that was; nothing where it never was, or the clock cannot be read.
fn since(moment: Option<Moment>, now: Moment) -> Duration
    ensures { as_nanos result ≡ time_since moment now }
{
    match moment {
        Some(moment) => moment.until(now).unwrap_or(Duration::ZERO),
        None => Duration::ZERO,
    }
}

/// Whether a tick is late that came so long after the one before, where no less than `most` is late.
fn is_late(gone: Duration, most: Duration) -> bool
    ensures { result ≡ nat_le (as_nanos most) (as_nanos gone) }
{
    gone.as_nanos() >= most.as_nanos()
}

/// Whether a late tick is told now, where one was told then. It counts as told now.
fn is_to_be_told(told: &mut Option<Moment>, now: Moment) -> bool
    ensures due { result ≡ is_long_ago 10 told.old now }
    ensures after { told.new ≡ (if is_long_ago 10 told.old now then Some now else told.old) }
{
    let is_due = Moment::is_long_ago(*told, PAUSE, now);
    if is_due {
        *told = Some(now);
    }
    is_due
}

impl<'a, K: Ticker + Drop, R: Wait + Clock> WatchedTicker<'a, K, R> {
    /// Ticks as this ticker, at so many frames in a second.
    pub fn new(
        rt: &'a R,
        alloc: Global,
        journal: &'a Journal,
        last_tick: &'a LastTick,
        late: &'a AtomicU64,
        rate: u16,
        inner: K,
    ) -> WatchedTicker<'a, K, R>
        requires { 1 ≤ rate }
        ensures { result.inner ≡ inner }
    {
        WatchedTicker {
            rt,
            alloc,
            journal,
            last_tick,
            late,
            most: Duration::from_millis(LATE + 1000 / u64::from(rate)),
            given: None,
            made: None,
            told: None,
            inner,
        }
    }

    /// Tells that there was no tick for so long, of which it was so long until it was made, and so long until the next was asked for.
    fn tell_late(&self, gone: Duration, making: Duration, asked: Duration) {
        let publishing = asked.saturating_sub(making);
        let waiting = gone.saturating_sub(asked);
        let (longest, doing) = if making >= publishing && making >= waiting {
            (making, "while the mark's counts were stored")
        } else if publishing >= waiting {
            (
                publishing,
                "while rows were published: the run stored the mark, or waited for the sender",
            )
        } else {
            (
                waiting,
                "while it slept until the tick: the machine was busy, or stood still",
            )
        };
        let (gone, longest) = (gone.as_millis(), longest.as_millis());
        self.journal.tell(
            self.rt,
            format!(in self.alloc; "no tick for {gone} ms, {longest} of them {doing}"),
        );
    }
}

impl<'a, K: Ticker + Drop, R: Wait + Clock> Ticker for WatchedTicker<'a, K, R> {
    ghost gave = { λ s nows. K.gave s.inner nows };

    fn next(&mut self) -> Option<u64> {
        let now = Moment::now(self.rt);
        let asked = since(self.given, now);
        let making = asked.saturating_sub(since(self.made, now));
        let next = self.inner.next();
        let gone = since(self.given, Moment::now(self.rt));
        if is_late(gone, self.most) {
            self.late.fetch_add(1, Ordering::Relaxed);
            if is_to_be_told(&mut self.told, Moment::now(self.rt)) {
                self.tell_late(gone, making, asked);
            }
        }
        self.given = Some(Moment::now(self.rt));
        if next.is_none() {
            self.last_tick.end(self.rt);
        }
        next
    }

    fn note(&mut self, step: u64, did: &Did<'_>) {
        self.inner.note(step, did);
        if let Did::Ticked { now, .. } = did {
            self.last_tick.note(self.rt, *now);
            self.made = Some(Moment::now(self.rt));
        }
    }

    fn wants_counts(&self) -> bool {
        self.inner.wants_counts()
    }

    fn tell(&mut self, told: &Progress) {
        self.inner.tell(told);
    }
}
