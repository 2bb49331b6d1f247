//! Time of a ticker that may be woken before its deadline.
ghost use Rattle.std.specs.Prelude.{◌≡◌, ◌++◌, ◌∷◌, ◌-◌, ◌≤◌, [], ℕ, IfNone, IfSome, List};
ghost use Rattle.pdc_ticking.specs.Woken.{IsFound, IsLater, IsNoted, WaitsBy};

use crate::found::{Found, Given};
use crate::metronome::{Pace, Timepiece};
use crate::waiting::Waiting;
use crate::wake::Wake;
use std::rt::Clock;
use std::sync::Wait;
use std::thread;
use std::time::Duration;

/// How often it sleeps to one deadline at most, where the clock is being set meanwhile.
const MOST_SLEEPS: u32 = 5;

/// How many calls of one instant it waits for at most.
const MOST_CALLS: u32 = 64;

/// The system's clocks, and deadlines by one of them, before each of which a call may wake it once. Between two deadlines it shows one
/// time: at the call, or else at the second of them. A call that comes in the rest of that time is late, and found behind the deadline. Where it is
/// left then, the next call is waited for: so a ticker does not stay behind by a deadline that it was late once.
#[derive(Drop)]
pub struct WokenTimepiece<'a, R: Wait + Clock> {
    rt: &'a R,
    wake: &'a Wake,
    pace: Pace<&'a R>,
    given: Given,
}

/// How long ago a call was, in nanoseconds; 0 where there was none.
fn late(called: Option<u64>, moment: u64) -> u64
    ensures none { IfNone called (result ≡ 0) }
    ensures some { IfSome called (λ then. result ≡ moment - then) }
{
    match called {
        Some(called) => moment.saturating_sub(called),
        None => 0,
    }
}

impl<'a, R: Wait + Clock> WokenTimepiece<'a, R> {
    /// Woken by this call, and at so many frames in a second: deadlines so many milliseconds behind each instant of the system's clock, or
    /// else the length of a frame apart from now on.
    pub fn new(rt: &'a R, wake: &'a Wake, rate: u16, tick_ms: Option<u16>) -> WokenTimepiece<'a, R>
        requires { 1 ≤ rate }
    {
        WokenTimepiece {
            rt,
            wake,
            pace: Pace::new(rt, rate, tick_ms),
            given: Given {
                deadline: 0,
                left: None,
            },
        }
    }

    /// How it waits now; none where the clock cannot be read.
    fn waiting(&self) -> Option<(u64, Waiting)>
        ensures { IfSome result (λ found. WaitsBy self.now.pace.deadlines found.0
            self.now.given.deadline found.1) }
    {
        let moment = self.pace.moment()?;
        let waiting = self.pace.deadlines.waiting_at(moment, self.given.deadline);
        Some((moment, waiting))
    }

    /// Sleeps for so many nanoseconds.
    fn sleep(&self, nanoseconds: u64) {
        thread::sleep(self.rt, Duration::from_nanos(nanoseconds));
    }

    /// Waits to be woken, for at most so many nanoseconds. Whether it was.
    fn wait(&self, nanoseconds: u64) -> bool {
        self.wake
            .wait_called(self.rt, Duration::from_nanos(nanoseconds))
    }

    /// Waits to be woken by a late call, for at most so many nanoseconds. When it was; none where it was not, or the clock cannot be read.
    fn late_call(&self, nanoseconds: u64) -> Option<u64> {
        if self.wait(nanoseconds) {
            self.pace.moment()
        } else {
            None
        }
    }

    /// Waits up to the deadline whose tick was given early, if it was. What it found then; none where the clock cannot be read, or does not go
    /// on.
    fn behind_given(&self) -> Option<Found>
        ensures { IfSome result (λ found. IsFound self.now.pace.deadlines self.now.given.deadline
            found) }
    {
        let mut called = None;
        for _ in 0..MOST_SLEEPS {
            let (moment, waiting) = self.waiting()?;
            match waiting {
                Waiting::Sleep(nanoseconds) if called.is_some() => self.sleep(nanoseconds),
                Waiting::Sleep(nanoseconds) => called = self.late_call(nanoseconds),
                Waiting::ForWake(wait) => {
                    let late = late(called, moment);
                    return Some(Found { moment, wait, late });
                }
            }
        }
        None
    }

    /// Waits until the next tick is due. What was found, by which it is noted; none where the clock cannot be read, or does not go on.
    fn wait_for_tick(&mut self) -> Option<Found>
        ensures some { IfSome result (λ found. IsFound self.old.pace.deadlines
            self.old.given.deadline found) }
        ensures noted { IfSome result (λ found. IsNoted self.old.pace.deadlines found
            self.old.given self.new.given) }
        ensures later { IfSome result (λ found. IsLater found self.old.given self.new.given) }
        ensures none { IfNone result (self.new.given ≡ self.old.given) }
        ensures same { self.new.pace ≡ self.old.pace }
    {
        let Some(found) = self.behind_given() else {
            self.wait(self.pace.deadlines.length());
            return None;
        };
        let is_left = self.pace.deadlines.leaves(found, self.given.left);
        self.given = self.pace.deadlines.noted(found, self.given);
        if found.late == 0 || is_left {
            self.wait_to(self.given.deadline, found.wait);
        }
        if is_left {
            self.wait_for_rest(self.given.deadline);
        }
        Some(found)
    }

    /// Waits until no call came for half the time between two deadlines, and at most to this one. The instant that was left is whole, so that each
    /// datagram of the next one calls, the first of them too.
    fn wait_for_rest(&self, deadline: u64) {
        let pause = self.pace.deadlines.length() / 2;
        for _ in 0..MOST_CALLS {
            let left = match self.pace.moment() {
                Some(now) if now < deadline => (deadline - now).min(pause),
                _ => return,
            };
            if !self.wait(left) {
                return;
            }
        }
    }

    /// Waits to be woken, and at most to this deadline, which is so many nanoseconds ahead.
    fn wait_to(&self, deadline: u64, nanoseconds: u64) {
        let mut left = nanoseconds;
        // A clock that is being set may show less than was waited: once more, then.
        for _ in 0..2 {
            if self.wait(left) {
                return;
            }
            match self.pace.moment() {
                Some(now) if now < deadline => left = (deadline - now).min(nanoseconds),
                _ => return,
            }
        }
    }
}

impl<'a, R: Wait + Clock> Timepiece for WokenTimepiece<'a, R> {
    fn at_next_deadline(&mut self) -> Option<u128> {
        // What was called for before is done: its rows are out.
        self.wake.forget(self.rt);
        self.wait_for_tick();
        self.pace.time()
    }
}
