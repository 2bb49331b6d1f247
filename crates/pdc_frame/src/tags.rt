//! From instants to tags.
ghost use Rattle.std.specs.Prelude.{◌≡◌, ◌*◌, ◌<◌, ◌≤◌};
ghost use Rattle.pdc_frame.specs.Instant.{instant_of};
ghost use Rattle.pdc_frame.specs.Tag.{IsTag, tag_of};

use crate::nearest::nearest;
use crate::tag_limits::{COUNT_LIMIT, MAX_RATE, SECONDS};

/// The tag of an instant at `rate` frames a second: its second (SOC), and the count of `time_base` parts nearest to
/// its slot, the upper of two equally near (C37.118.2-2011, 6.2).
///
/// The count lies below `time_base`, and [`instant`](crate::instant) of the tag is the instant.
pub fn tag_of(instant: u64, time_base: u32, rate: u32) -> (u32, u32)
    requires rate { 1 ≤ rate }
    requires max_rate { rate ≤ MAX_RATE }
    requires time_base { rate ≤ time_base }
    requires max_time_base { time_base < COUNT_LIMIT }
    requires instant { instant < SECONDS * rate }
    ensures tag { IsTag instant time_base rate result.0 result.1 }
    ensures count { result.1 < time_base }
    ensures comes_back { instant_of result.0 result.1 time_base rate ≡ Some instant }
    ensures value { result ≡ tag_of instant time_base rate }
{
    let wide = u64::from(rate);
    let count = nearest(instant % wide * u64::from(time_base), wide);
    ((instant / wide) as u32, count as u32)
}
