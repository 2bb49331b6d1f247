//! A source that waits for a tick that is late.
ghost use Rattle.std.specs.Prelude.{◌≡◌, ◌≤◌, ◌<◌, ℕ, length};
ghost use Rattle.pdc_ticking.specs.Ticks.{awaited};

use crate::clock::instant_at;
use crate::last_tick::{LastTick, is_reached};
use crate::metronome::time_now;
use crate::wake::Wake;
use pdc_journal::Tags;
use pdc_ports::{Next, Numbered, Outcome, Source};
use std::rt::Clock;
use std::sync::Wait;
use std::time::Duration;

/// How long a datagram is held back at most, in milliseconds.
const LONGEST_HOLD: u64 = 1000;

/// When a stream's data is held back.
#[derive(Drop)]
pub struct Patience<'a> {
    /// What was now at the last tick.
    pub last_tick: &'a LastTick,
    /// How the stream's time tags are read.
    pub tags: Tags,
    /// By how many instants data may lie above the last tick's now.
    pub ahead: u64,
}

impl<'a> Patience<'a> {
    /// Which now is waited for after a tick with this now: the least that takes these bytes as data, where the tick would refuse them as
    /// ahead. None where they are no data of an instant, or are not ahead.
    pub fn awaited(&self, bytes: &[u8], last: u64) -> Option<u64>
        ensures { result ≡ awaited self.now.tags.rate self.now.tags.time_base self.now.ahead
            bytes.now last }
    {
        let instant = self.tags.instant_of_data(bytes)?;
        let least = instant.saturating_sub(self.ahead);
        if is_reached(least, last) {
            None
        } else {
            Some(least)
        }
    }

    /// Waits for the next ticks where these bytes are data that the last tick would refuse as ahead, and a tick by the system's clock would not:
    /// so this concentrator is late, and not the PMU's clock ahead. A second at most.
    fn hold<R: Wait + Clock>(&self, rt: &R, bytes: &[u8]) {
        let Some(least) = self.awaited(bytes, self.last_tick.seen()) else {
            return;
        };
        let Some(now) = time_now(rt) else {
            return;
        };
        if is_reached(least, instant_at(now.as_nanos(), self.tags.rate)) {
            let most = Duration::from_millis(LONGEST_HOLD);
            self.last_tick.wait_for(rt, least, most);
        }
    }
}

/// Gives what the inner source gives, and as the inner source does. Data that only a tick which is late would refuse it gives once that tick has
/// come; meanwhile the inner source is not read, and what comes waits at its port. Where the lowest open row has come whole by its datagram, it
/// calls the ticker, if there is a wake.
#[derive(Drop)]
pub struct HoldingSource<'a, S: Source + Drop, R: Wait + Clock> {
    rt: &'a R,
    patience: Option<Patience<'a>>,
    wake: Option<&'a Wake>,
    inner: S,
}

impl<'a, S: Source + Drop, R: Wait + Clock> HoldingSource<'a, S, R> {
    /// Holds back by this patience, or nothing; and calls by this wake, or nobody.
    pub fn new(
        rt: &'a R,
        patience: Option<Patience<'a>>,
        wake: Option<&'a Wake>,
        inner: S,
    ) -> HoldingSource<'a, S, R>
        ensures { result.inner ≡ inner }
    {
        HoldingSource {
            rt,
            patience,
            wake,
            inner,
        }
    }
}

impl<'a, S: Source + Drop, R: Wait + Clock> Source for HoldingSource<'a, S, R> {
    ghost told = { λ s heard. S.told s.inner heard };

    ghost was_answered = { λ s answers. S.was_answered s.inner answers };

    ghost failures_of = { λ s. S.failures_of s.inner };

    ghost row_left = { λ s. S.row_left s.inner };

    fn next(&mut self, buffer: &mut [u8]) -> Next {
        let next = self.inner.next(buffer);
        if let (Next::Datagram(len), Some(patience)) = (next, &self.patience) {
            patience.hold(self.rt, &buffer[..len]);
        }
        next
    }

    fn answered(&mut self, answer: Option<Numbered<Outcome>>) {
        self.inner.answered(answer);
    }

    fn failures(&self) -> u64 {
        self.inner.failures()
    }

    fn wants_whole(&self) -> bool {
        self.wake.is_some()
    }

    fn whole(&mut self) {
        if let Some(wake) = self.wake {
            wake.call(self.rt);
        }
    }
}
