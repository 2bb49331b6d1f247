//! A ticker that ends where the run is to stop, and answers how it stands.
ghost use Rattle.std.specs.Prelude.{◌≡◌, ◌++◌, ◌∷◌, [], ℕ, List, true, IfNone, IfSome, None};

use crate::control::Control;
use crate::json::status_object;
use crate::lines::status_lines;
use crate::request::Form;
use pdc_journal::RunCounters;
use pdc_ports::{Did, Progress, Ticker};
use std::alloc::Global;
use std::sync::Wait;

/// The next tick of the inner ticker. Where the run is to stop there is none, and the inner one is not asked.
pub fn next_unless<K: Ticker>(is_stopped: bool, inner: &mut K) -> Option<u64>
    ensures stopped { is_stopped ≡ true → (result ≡ None) × (inner.new ≡ inner.old) }
    ensures some { IfSome result (λ now. (nows : List ℕ) → K.gave inner.old nows →
        K.gave inner.new (nows ++ now ∷ [])) }
    ensures none { IfNone result ((nows : List ℕ) → K.gave inner.old nows → K.gave inner.new nows) }
{
    if is_stopped {
        return None;
    }
    inner.next()
}

/// Ticks as the inner ticker does, until the run is to stop: then it gives no other tick. Where somebody waits for it, it gives how the run
/// stands after a tick.
#[derive(Drop)]
pub struct ControlledTicker<'a, K: Ticker + Drop, R: Wait> {
    rt: &'a R,
    alloc: Global,
    control: Option<&'a Control>,
    counters: RunCounters<'a>,
    inner: K,
}

impl<'a, K: Ticker + Drop, R: Wait> ControlledTicker<'a, K, R> {
    /// Ticks as this ticker, until the control stops it, where there is one.
    pub fn new(
        rt: &'a R,
        alloc: Global,
        control: Option<&'a Control>,
        counters: RunCounters<'a>,
        inner: K,
    ) -> ControlledTicker<'a, K, R>
        ensures { result.inner ≡ inner }
    {
        ControlledTicker {
            rt,
            alloc,
            control,
            counters,
            inner,
        }
    }

    /// Gives how the run stands to who waits for it, if anybody does.
    fn give(&self, told: &Progress) {
        let Some(control) = self.control else {
            return;
        };
        match control.wanted() {
            Some(Form::Lines) => {
                let lines = status_lines(self.rt, self.alloc, told, &self.counters);
                control.give(self.rt, lines);
            }
            Some(Form::Json) => {
                let object = status_object(self.rt, self.alloc, told, &self.counters);
                control.give(self.rt, object);
            }
            None => {}
        }
    }
}

/// It gave what the inner ticker gave.
impl<'a, K: Ticker + Drop, R: Wait> Ticker for ControlledTicker<'a, K, R> {
    ghost gave = { λ s nows. K.gave s.inner nows };

    fn next(&mut self) -> Option<u64> {
        let is_stopped = match self.control {
            Some(control) => control.is_stopped(),
            None => false,
        };
        next_unless(is_stopped, &mut self.inner)
    }

    fn note(&mut self, step: u64, did: &Did<'_>) {
        self.inner.note(step, did);
    }

    fn wants_counts(&self) -> bool {
        let is_asked = match self.control {
            Some(control) => control.wanted().is_some(),
            None => false,
        };
        is_asked || self.inner.wants_counts()
    }

    fn tell(&mut self, told: &Progress) {
        if self.inner.wants_counts() {
            self.inner.tell(told);
        }
        self.give(told);
    }
}
