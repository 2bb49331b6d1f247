//! Tags of the instants of one second.
ghost use Rattle.std.specs.Prelude.{◌≡◌, ◌+◌, ◌-◌, ◌*◌, ◌<◌, ◌≤◌, true};
ghost use Rattle.pdc_frame.specs.Nearest.{nearest_of};
ghost use Rattle.pdc_frame.specs.Tag.{tag_of};
ghost use Rattle.pdc_frame.specs.declared.tag_limits.TheConstants.{COUNT_LIMIT, MAX_RATE};

use crate::nearest::nearest;
use crate::tag_limits::{COUNT_LIMIT, MAX_RATE, SECONDS};

/// A second, of whose instants the tags follow with no division. The frames that a concentrator publishes follow one another, so that all but one
/// in a second find theirs.
#[derive(Clone, Copy, Debug)]
pub struct Second {
    /// The first instant in it.
    first: u64,
    /// SOC of its instants.
    soc: u32,
    /// The instants in it.
    rate: u32,
    /// The counts in it.
    time_base: u32,
    /// The counts from an instant to the next one, 0 where these are no whole number.
    step: u32,
    pub ghost rate_low: { 1 ≤ rate },
    pub ghost rate_high: { rate ≤ MAX_RATE },
    pub ghost time_base_low: { rate ≤ time_base },
    pub ghost time_base_high: { time_base < COUNT_LIMIT },
    pub ghost place: { first ≡ soc * rate },
    pub ghost steps: { 0 < step → step * rate ≡ time_base },
}

impl Second {
    /// Second 0, at one frame a second.
    pub fn new() -> Second {
        Second::with(0, 1, 1)
    }

    /// As [`tag_of`](crate::tag_of): the tag of an instant at `rate` frames a second. Where it lies in another second, at another rate or at
    /// another TIME_BASE, this becomes that second.
    #[inline(always)]
    pub fn tag_of(&mut self, instant: u64, time_base: u32, rate: u32) -> (u32, u32)
        requires rate { 1 ≤ rate }
        requires max_rate { rate ≤ MAX_RATE }
        requires time_base { rate ≤ time_base }
        requires max_time_base { time_base < COUNT_LIMIT }
        requires instant { instant < SECONDS * rate }
        ensures value { result ≡ tag_of instant time_base rate }
        ensures count { result.1 < time_base }
    {
        if !self.has(instant, time_base, rate) {
            *self = Second::with(instant, time_base, rate);
        }
        (self.soc, self.count((instant - self.first) as u32))
    }

    /// The second in which an instant lies, by divisions. A call of its own, since it is seldom.
    #[inline(never)]
    fn with(instant: u64, time_base: u32, rate: u32) -> Second
        requires rate { 1 ≤ rate }
        requires max_rate { rate ≤ MAX_RATE }
        requires time_base { rate ≤ time_base }
        requires max_time_base { time_base < COUNT_LIMIT }
        requires instant { instant < SECONDS * rate }
        ensures first { result.first ≤ instant }
        ensures last { instant - result.first < rate }
        ensures rate { result.rate ≡ rate }
        ensures time_base { result.time_base ≡ time_base }
    {
        let wide = u64::from(rate);
        let soc = instant / wide;
        let is_whole = time_base % rate == 0;
        Second {
            first: soc * wide,
            soc: soc as u32,
            rate,
            time_base,
            step: if is_whole { time_base / rate } else { 0 },
        }
    }

    /// Whether an instant lies in it, at the same rate and with the same counts.
    #[inline(always)]
    fn has(&self, instant: u64, time_base: u32, rate: u32) -> bool
        ensures first { result ≡ true → self.now.first ≤ instant }
        ensures last { result ≡ true → instant - self.now.first < rate }
        ensures rate { result ≡ true → rate ≡ self.now.rate }
        ensures time_base { result ≡ true → time_base ≡ self.now.time_base }
    {
        rate == self.rate
            && time_base == self.time_base
            && instant >= self.first
            && instant - self.first < u64::from(rate)
    }

    /// The count nearest to an instant of it.
    #[inline(always)]
    fn count(&self, slot: u32) -> u32
        requires { slot < self.now.rate }
        ensures { result ≡ nearest_of (slot * self.now.time_base) self.now.rate }
    {
        if self.step > 0 {
            return slot * self.step;
        }
        nearest(
            u64::from(slot) * u64::from(self.time_base),
            u64::from(self.rate),
        ) as u32
    }
}
