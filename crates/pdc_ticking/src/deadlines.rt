//! When ticks are due.
ghost use Rattle.std.specs.Prelude.{◌≡◌, ◌+◌, ◌-◌, ◌*◌, ◌/◌, ◌^◌, ◌≤◌, ◌<◌, ◌↔◌, IsTrue, Some};
ghost use Rattle.std.specs.Prelude.{min, if◌then◌else◌};
ghost use Rattle.pdc_ticking.specs.declared.deadlines.TheConstants.{NANOSECONDS};
ghost use Rattle.pdc_ticking.specs.Deadlines.{IsNextDeadline};
ghost use Rattle.pdc_ticking.specs.Waiting.{IsEarly, IsWaiting, leaves};

use crate::found::{Found, Given};
use crate::waiting::Waiting;

/// The nanoseconds in a second.
pub(crate) const NANOSECONDS: u64 = 1_000_000_000;

/// The nanoseconds in a millisecond.
const MILLISECOND: u64 = 1_000_000;

/// How much more late calls would wait than one that is left, before it is.
const WORTH: u128 = 10;

/// The moments at which a tick is due, in nanoseconds: the first one, and others `span / parts` apart. What is done at one of them moves none.
#[derive(Clone, Copy, Debug)]
pub struct Deadlines {
    first: u64,
    span: u64,
    parts: u16,
    pub ghost some_span: { 1 ≤ span },
    pub ghost a_second: { span ≤ NANOSECONDS },
    pub ghost some_parts: { 1 ≤ parts },
}

impl Deadlines {
    ghost use Rattle.pdc_ticking.specs.Paces.{first_of, parts_of, span_of};

    /// Deadlines the length of a frame apart, in whole nanoseconds, from the start on; at so many frames in a second.
    pub fn from_start(rate: u16) -> Deadlines
        requires { 1 ≤ rate }
        ensures first { first_of result ≡ 0 }
        ensures span { span_of result ≡ 1_000_000_000 / rate }
        ensures parts { parts_of result ≡ 1 }
    {
        Deadlines {
            first: 0,
            span: NANOSECONDS / u64::from(rate),
            parts: 1,
        }
    }

    /// Deadlines so many milliseconds behind each instant, at so many frames in a second.
    pub fn behind_instants(rate: u16, milliseconds: u16) -> Deadlines
        requires { 1 ≤ rate }
        ensures first { first_of result ≡ milliseconds * 1_000_000 }
        ensures span { span_of result ≡ 1_000_000_000 }
        ensures parts { parts_of result ≡ rate }
    {
        Deadlines {
            first: u64::from(milliseconds) * MILLISECOND,
            span: NANOSECONDS,
            parts: rate,
        }
    }

    /// How many nanoseconds it is from a moment to the first deadline above it. One that was missed is left out so.
    pub fn wait_at(&self, moment: u64) -> u64
        ensures { IsNextDeadline (first_of self.now) (span_of self.now) (parts_of self.now) moment
            (moment + result) }
    {
        if moment < self.first {
            return self.first - moment;
        }
        let parts = u64::from(self.parts);
        let gone = u128::from(moment - self.first) * u128::from(self.parts);
        let over = (gone % u128::from(self.span)) as u64;
        (self.span - over + (parts - 1)) / parts
    }

    /// Whether the tick of the deadline `given` was given before it: it lies above the moment, no later than the second deadline above it.
    fn is_early(&self, moment: u64, given: u64) -> bool
        ensures { IsTrue result ↔ IsEarly (first_of self.now) (span_of self.now)
            (parts_of self.now) moment given }
    {
        if given <= moment {
            return false;
        }
        let wait = self.wait_at(moment);
        if given - moment <= wait {
            return true;
        }
        let next = moment + wait;
        given - next <= self.wait_at(next)
    }

    /// How a ticker waits at a moment that may be woken before its deadline, where the last tick that it gave was that of the deadline
    /// `given`: so it gives one tick between two deadlines, and a clock that was set back a little changes nothing of that.
    pub fn waiting_at(&self, moment: u64, given: u64) -> Waiting
        ensures { IsWaiting (first_of self.now) (span_of self.now) (parts_of self.now) moment given
            result }
    {
        if self.is_early(moment, given) {
            Waiting::Sleep(given - moment)
        } else {
            Waiting::ForWake(self.wait_at(moment))
        }
    }

    /// Whether a late call is left for the one after it, where one was left last at `left`. Then what it called for goes out by the next call, one
    /// length from a deadline to the next later; and ticks come at calls again, where they came behind them. Each call since then
    /// would have waited ten times as long together, had all been as late as this one.
    pub fn leaves(&self, found: Found, left: Option<u64>) -> bool
        ensures { result ≡ leaves (span_of self.now / parts_of self.now) found.moment found.late
            left }
    {
        let Some(left) = left else {
            return found.late >= 1;
        };
        let length = u128::from(self.length());
        u128::from(found.moment.abs_diff(left)) * u128::from(found.late)
            >= WORTH * (length * length)
    }

    /// What a ticker notes that found this, and had noted that: it gives the tick of the next deadline, and may leave a late call.
    pub fn noted(&self, found: Found, given: Given) -> Given
        ensures deadline { result.deadline ≡ min (found.moment + found.wait) (2 ^ 64 - 1) }
        ensures left { result.left ≡ (if leaves (span_of self.now / parts_of self.now) found.moment
            found.late given.left then Some found.moment else given.left) }
    {
        let left = if self.leaves(found, given.left) {
            Some(found.moment)
        } else {
            given.left
        };
        Given {
            deadline: found.moment.saturating_add(found.wait),
            left,
        }
    }

    /// The length from one to the next, in whole nanoseconds.
    pub fn length(&self) -> u64
        ensures { result ≡ span_of self.now / parts_of self.now }
    {
        self.span / u64::from(self.parts)
    }
}
