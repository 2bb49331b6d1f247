//! The time, in microseconds.

use std::rt::Clock;
use std::time::SystemTime;

/// The microseconds of a second.
const MICROSECONDS: i64 = 1_000_000;

/// Microseconds since 1970; none where the clock cannot be read.
pub fn now_micros(clock: &impl Clock) -> Option<i64> {
    let now = SystemTime::now(clock).ok()?;
    let since = now.duration_since(SystemTime::UNIX_EPOCH).ok()?;
    i64::try_from(since.as_micros()).ok()
}

/// The microseconds since 1970 of a tag: a second, and counts of FRACSEC of which so many are a second. No count is in a second that has none.
pub fn tag_micros(tag: (u32, u32), time_base: u32) -> i64 {
    let (soc, frac) = tag;
    let parts = (u64::from(frac) * 1_000_000)
        .checked_div(u64::from(time_base))
        .unwrap_or(0);
    i64::from(soc) * MICROSECONDS + parts as i64
}
