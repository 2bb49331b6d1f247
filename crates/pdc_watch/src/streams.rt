//! What is shown of a stream.

use crate::delays::percentile;
use crate::heard::Heard;
use crate::now::Now;
use crate::origin::Origin;
use crate::shown::ShownStream;
use crate::within::{Lateness, bound_ms};
use std::alloc::{AllocError, Global};

/// By how many ms the instant of the last frame lay behind the clock when it came; below zero, before it.
fn behind(heard: &Heard) -> i64 {
    heard
        .came_ms
        .cast_signed()
        .saturating_sub(heard.last_ms.cast_signed())
}

/// Within how many ms so many of a hundred were published, behind the last data that was taken for them, or behind their instants.
fn within(metered: Option<Lateness>, is_behind_data: bool, share: u8) -> Option<u16> {
    let lateness = metered?;
    if is_behind_data {
        bound_ms(&lateness.behind_data, share)
    } else {
        bound_ms(&lateness.behind_instant, share)
    }
}

/// What is shown of a stream.
pub fn stream_shown<'a>(
    alloc: Global,
    heard: &Heard,
    name: &'static str,
    origin: &'a Origin,
    rate: u32,
    now: Now,
) -> Result<ShownStream<'a>, AllocError> {
    let told = heard.last_ms > 0;
    let delays = heard.delays.sorted(alloc)?;
    let metered = heard.metered.last_minute();
    Ok(ShownStream {
        name,
        address: origin.address.as_str(),
        wait: origin.wait,
        wait_kind: origin.wait_kind.as_str(),
        connected: heard.connected,
        alive: heard.is_alive(rate, now),
        since_ms: heard.since(rate, now),
        age_ms: heard.age(now),
        start: heard.start,
        change: heard.change,
        last_ms: if told { Some(heard.last_ms) } else { None },
        behind_ms: if told { Some(behind(heard)) } else { None },
        behind_median_ms: percentile(delays.as_slice(), 50),
        behind_p99_ms: percentile(delays.as_slice(), 99),
        published_median_ms: within(metered, false, 50),
        published_p99_ms: within(metered, false, 99),
        after_data_median_ms: within(metered, true, 50),
        after_data_p99_ms: within(metered, true, 99),
        frames_a_second: heard.frames_a_second(rate, now),
        frames: heard.frames,
        unread: heard.unread,
    })
}
