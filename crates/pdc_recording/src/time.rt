//! The time of an entry.

use std::rt::Clock;
use std::time::{Duration, SystemTime};

/// The nanoseconds since 1970; 0 where the clock cannot be read or shows a time before it.
pub fn nanoseconds_now<C: Clock>(clock: &C) -> u64 {
    let Ok(now) = SystemTime::now(clock) else {
        return 0;
    };
    let since = now
        .duration_since(SystemTime::UNIX_EPOCH)
        .unwrap_or(Duration::ZERO);
    u64::try_from(since.as_nanos()).unwrap_or(u64::MAX)
}
