//! The run of a node with a thread for each of sixteen sources.
ghost use Rattle.std.specs.Prelude.{◌≡◌, vec_len, IfSome};

use crate::feed::{Discard, Feed, Following};
use crate::frames::{FLOOR, Frames};
use crossbeam_utils::CachePadded;
use pdc_life::Settings;
use pdc_mark::ModelMark;
use pdc_service::{Begun, MAX_LIMIT, Plan, Totals, hand_over, run_node};
use std::alloc::Global;
use std::rt::Clock;
use std::sync::Wait;
use std::sync::atomic::AtomicU64;
use std::thread::Threads;

/// How a run is paced.
fn plan() -> Plan {
    Plan {
        lead: 0,
        layout_every: 1000,
        limit: MAX_LIMIT,
    }
}

/// A counter for each stream, which has a line of the processor's cache for itself: else threads that count apart would wait for each other.
fn counters(alloc: Global, count: usize) -> Option<Vec<CachePadded<AtomicU64>>> {
    let mut counters = Vec::new(alloc);
    for _ in 0..count {
        if counters.push(CachePadded::new(AtomicU64::new(0))).is_err() {
            return None;
        }
    }
    Some(counters)
}

/// A source for each stream.
fn feeds<'a, R: Wait + Clock>(
    rt: &'a R,
    alloc: Global,
    frames: &'a Frames,
    delivered: &'a [CachePadded<AtomicU64>],
    released: &'a AtomicU64,
) -> Option<Vec<Feed<'a, R>>> {
    let mut feeds = Vec::new(alloc);
    for (stream, counter) in frames.streams.iter().zip(delivered) {
        if feeds
            .push(Feed::new(rt, stream, counter, released))
            .is_err()
        {
            return None;
        }
    }
    Some(feeds)
}

/// Runs the node over all frames, and answers its totals; none where it ended early.
pub fn run_side_by_side<R: Threads + Wait + Clock + Sync>(
    rt: &R,
    alloc: Global,
    settings: &Settings,
    frames: &Frames,
) -> Option<Totals> {
    let delivered = counters(alloc, frames.streams.len())?;
    let released = CachePadded::new(AtomicU64::new(0));
    let sources = feeds(rt, alloc, frames, &delivered, &released)?;
    if sources.len() != settings.pmus.len() {
        return None;
    }
    let Ok(mark) = Begun::new(ModelMark::new(0, FLOOR)) else {
        return None;
    };
    let ticker = Following::new(&delivered, &released, u64::from(frames.count) + 1);
    let handed = hand_over(mark, sources, ticker, Discard);
    let ran = run_node(rt, alloc, settings, &plan(), handed);
    match ran.outcome {
        Ok(totals) => Some(totals),
        Err(_) => None,
    }
}
