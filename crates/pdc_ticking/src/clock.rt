//! Ticks by a clock.
ghost use Rattle.std.specs.Prelude.{◌≡◌, ℕ, List, map};
ghost use Rattle.pdc_ticking.specs.Instants.{instant_of};

use crate::deadlines::NANOSECONDS;
use crate::metronome::Timepiece;
use crate::rated::Rated;
use pdc_ports::Ticker;
use std::marker::PhantomData;
use std::sync::atomic::{AtomicBool, Ordering};

/// Waits for the next deadline, and then gives the instant that the clock shows. It ends after a number of ticks, where one is given, and
/// where the clock cannot be read; then it sets a flag.
#[derive(Drop)]
pub struct ClockTicker<'a, T: Timepiece + Drop, N: Rated> {
    time: T,
    rate: u16,
    /// How many ticks are left; without end where there is none.
    left: Option<u32>,
    is_unreadable: &'a AtomicBool,
    of: PhantomData<N>,
    pub ghost rate_is: { rate ≡ N.rate },
}

impl<'a, T: Timepiece + Drop, N: Rated> ClockTicker<'a, T, N> {
    /// So many ticks by this clock, at so many frames in a second, or ticks without end. The flag is set where the clock cannot be read.
    pub fn new(
        time: T,
        rate: u16,
        ticks: Option<u32>,
        is_unreadable: &'a AtomicBool,
    ) -> ClockTicker<'a, T, N>
        requires { rate ≡ N.rate }
        ensures { result.time ≡ time }
    {
        ClockTicker {
            time,
            rate,
            left: ticks,
            is_unreadable,
            of: PhantomData,
        }
    }
}

/// The instant so many nanoseconds after 1970, at so many frames in a second: the last one that was reached, or the greatest of 64 bits
/// where they do not hold it.
pub fn instant_at(nanoseconds: u128, rate: u16) -> u64
    ensures { result ≡ instant_of rate nanoseconds }
{
    let instant = nanoseconds.saturating_mul(u128::from(rate)) / u128::from(NANOSECONDS);
    u64::try_from(instant).unwrap_or(u64::MAX)
}

/// It gave the instants, at its rate, of the times that the clock showed.
impl<'a, T: Timepiece + Drop, N: Rated> Ticker for ClockTicker<'a, T, N> {
    ghost gave = { λ s nows. (times : List ℕ) × T.showed s.time times
        × (nows ≡ map (instant_of N.rate) times) };

    fn next(&mut self) -> Option<u64> {
        if let Some(left) = self.left {
            if left == 0 {
                return None;
            }
            self.left = Some(left - 1);
        }
        match self.time.at_next_deadline() {
            Some(nanoseconds) => Some(instant_at(nanoseconds, self.rate)),
            None => {
                self.is_unreadable.store(true, Ordering::Relaxed);
                None
            }
        }
    }
}
