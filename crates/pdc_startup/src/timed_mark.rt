//! A mark whose stores are timed.
ghost use Rattle.std.specs.Prelude.{◌≡◌};

use pdc_journal::Moment;
use pdc_mark::{COUNTS, Mark, MarkFault};
use pdc_metrics::Stores;
use std::rt::Clock;
use std::sync::Wait;

/// Stores what the inner mark stores, as it does. How long each store took that was done is counted, and when it was.
#[derive(Drop)]
pub struct TimedMark<'a, M: Mark + Drop, R: Wait + Clock> {
    rt: &'a R,
    stores: &'a Stores,
    pub inner: M,
}

impl<'a, M: Mark + Drop, R: Wait + Clock> TimedMark<'a, M, R> {
    /// Counts the stores of this mark here.
    pub fn new(rt: &'a R, stores: &'a Stores, inner: M) -> TimedMark<'a, M, R>
        ensures { result.inner ≡ inner }
    {
        TimedMark { rt, stores, inner }
    }
}

impl<'a, M: Mark + Drop, R: Wait + Clock> Mark for TimedMark<'a, M, R> {
    ghost stored = { λ mark. M.stored mark.inner };

    ghost is_broken = { λ mark. M.is_broken mark.inner };

    ghost failures = { λ mark. M.failures mark.inner };

    ghost is_safe = { M.is_safe };

    fn stored(&self) -> (u32, u64) {
        self.inner.stored()
    }

    fn counts(&self) -> [u16; COUNTS] {
        self.inner.counts()
    }

    fn begin(&mut self) -> Result<u32, MarkFault> {
        let begun = Moment::now(self.rt);
        let stored = self.inner.begin();
        if stored.is_ok() {
            self.stores.count(self.rt, begun);
        }
        stored
    }

    fn reserve(&mut self, floor: u64) -> Result<(), MarkFault> {
        let begun = Moment::now(self.rt);
        let stored = self.inner.reserve(floor);
        if stored.is_ok() {
            self.stores.count(self.rt, begun);
        }
        stored
    }

    fn raise(&mut self, counts: &[u16; COUNTS]) -> Result<(), MarkFault> {
        let begun = Moment::now(self.rt);
        let stored = self.inner.raise(counts);
        if stored.is_ok() {
            self.stores.count(self.rt, begun);
        }
        stored
    }

    fn failures(&self) -> u64 {
        self.inner.failures()
    }
}
