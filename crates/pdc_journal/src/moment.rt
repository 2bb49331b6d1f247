//! When something was.
ghost use Rattle.std.specs.Prelude.{◌≡◌, MatchOption, None, Some};
ghost use Rattle.std.specs.Duration.{as_nanos};
ghost use Rattle.pdc_journal.specs.Moment.{gap, is_long_ago, is_past};

use std::rt::Clock;
use std::time::{Duration, Instant};

/// A moment by the clock that never goes back; unknown where the clock could not be read.
#[derive(Clone, Copy, Debug)]
pub struct Moment {
    at: Option<Instant>,
}

impl Moment {
    /// The moment that is now.
    pub fn now<R: Clock>(rt: &R) -> Moment {
        Moment {
            at: Instant::now(rt).ok(),
        }
    }

    /// How long it is from here to a later moment, and zero to an earlier one; none where either is unknown.
    pub fn until(self, later: Moment) -> Option<Duration>
        ensures { MatchOption result (gap self later ≡ None) (λ length. gap self later ≡
            Some (as_nanos length)) }
    {
        match (self.at, later.at) {
            (Some(at), Some(later)) => Some(later.duration_since(at)),
            _ => None,
        }
    }

    /// Whether so many seconds lie between it and a later moment; not where either is unknown.
    pub fn is_past(self, seconds: u64, now: Moment) -> bool
        ensures { result ≡ is_past seconds self now }
    {
        match self.until(now) {
            Some(gone) => gone.as_secs() >= seconds,
            None => false,
        }
    }

    /// Whether what was done last at a moment, if ever, was not done within so many seconds before now. It was where either is unknown.
    pub fn is_long_ago(last: Option<Moment>, seconds: u64, now: Moment) -> bool
        ensures { result ≡ is_long_ago seconds last now }
    {
        match last {
            Some(last) => last.is_past(seconds, now),
            None => true,
        }
    }
}
