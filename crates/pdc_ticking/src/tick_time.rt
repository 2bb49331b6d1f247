//! By what a concentrator waits for its ticks.
ghost use Rattle.std.specs.Prelude.{◌++◌, ◌∷◌, ◌≤◌, [], ℕ, IfNone, IfSome, List};

use crate::metronome::{Metronome, Timepiece};
use crate::wake::Wake;
use crate::woken_timepiece::WokenTimepiece;
use std::rt::Clock;
use std::sync::Wait;

/// By what a concentrator waits for its ticks: deadlines alone, or deadlines before each of which it may be woken once.
#[derive(Drop)]
pub enum TickTime<'a, R: Wait + Clock> {
    /// Deadlines alone.
    Deadlines(Metronome<&'a R>),
    /// Deadlines, and a call before them.
    Woken(WokenTimepiece<'a, R>),
}

impl<'a, R: Wait + Clock> TickTime<'a, R> {
    /// At so many frames in a second: deadlines so many milliseconds behind each instant of the system's clock, or else the length of a frame
    /// apart from now on; and woken by this call, where there is one.
    pub fn new(
        rt: &'a R,
        rate: u16,
        tick_ms: Option<u16>,
        wake: Option<&'a Wake>,
    ) -> TickTime<'a, R>
        requires { 1 ≤ rate }
    {
        match wake {
            Some(wake) => TickTime::Woken(WokenTimepiece::new(rt, wake, rate, tick_ms)),
            None => TickTime::Deadlines(Metronome::new(rt, rate, tick_ms)),
        }
    }
}

impl<'a, R: Wait + Clock> Timepiece for TickTime<'a, R> {
    fn at_next_deadline(&mut self) -> Option<u128> {
        match self {
            TickTime::Deadlines(time) => time.at_next_deadline(),
            TickTime::Woken(time) => time.at_next_deadline(),
        }
    }
}
