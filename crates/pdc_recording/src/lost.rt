//! A record that could not be written.
ghost use Rattle.std.specs.Prelude.{◌≡◌};
ghost use Rattle.pdc_recording.specs.Lost.{gap_between, is_tried};

use pdc_journal::Moment;

/// How long no new file is tried, in seconds.
pub const PAUSE: u64 = 5;

/// Whether a new file is tried now, where that or the writing failed last at this moment.
pub fn is_tried(last: Moment, now: Moment) -> bool
    ensures { result ≡ is_tried last now }
{
    last.is_past(PAUSE, now)
}

/// Up to which step, the first that is there again, steps are lacking, where this was the first that was not written and that is the next one.
pub fn gap_between(first: u64, next: u64) -> Option<u64>
    ensures { result ≡ gap_between first next }
{
    if first < next { Some(next) } else { None }
}
