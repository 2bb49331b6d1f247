//! A ticker whose ticks, and what the aligner does at them, are recorded.
ghost use Rattle.std.specs.Prelude.{◌≡◌, ℕ, List};

use crate::recording::Recording;
use crate::time::nanoseconds_now;
use pdc_ports::{Did, Progress, Ticker};
use pdc_record::{Entry, What};
use std::rt::Clock;
use std::sync::Wait;

/// Ticks as the inner ticker does. Where the life is recorded, it notes what the aligner does.
#[derive(Drop)]
pub struct RecordedTicker<'a, K: Ticker + Drop, R: Wait + Clock> {
    rt: &'a R,
    recording: Option<&'a Recording>,
    inner: K,
}

impl<'a, K: Ticker + Drop, R: Wait + Clock> RecordedTicker<'a, K, R> {
    /// Records what the aligner does, where the life is recorded.
    pub fn new(rt: &'a R, recording: Option<&'a Recording>, inner: K) -> RecordedTicker<'a, K, R>
        ensures { result.inner ≡ inner }
    {
        RecordedTicker {
            rt,
            recording,
            inner,
        }
    }
}

/// What the record says of it.
fn what_of<'d>(did: &Did<'d>) -> What<'d> {
    match *did {
        Did::Ticked {
            now,
            counts,
            closed,
            change,
            used_up,
        } => What::Ticked {
            now,
            counts: *counts,
            closed,
            change,
            used_up,
        },
        Did::FoundNone => What::FoundNone,
        Did::Popped { instant, frame } => What::Popped { instant, frame },
        Did::Laid(frame) => What::Laid { frame },
    }
}

impl<'a, K: Ticker + Drop, R: Wait + Clock> Ticker for RecordedTicker<'a, K, R> {
    ghost gave = { λ s nows. K.gave s.inner nows };

    fn next(&mut self) -> Option<u64> {
        self.inner.next()
    }

    fn note(&mut self, step: u64, did: &Did<'_>) {
        self.inner.note(step, did);
        if let Some(recording) = self.recording {
            let entry = Entry {
                step,
                time: nanoseconds_now(self.rt),
                what: what_of(did),
            };
            recording.note(self.rt, &entry);
        }
    }

    fn wants_counts(&self) -> bool {
        self.inner.wants_counts()
    }

    fn tell(&mut self, told: &Progress) {
        self.inner.tell(told);
    }
}
