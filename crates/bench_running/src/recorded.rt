//! What a hub does for each datagram, on one thread: it is read, and then, under the lock, taken by the core and recorded.
ghost use Rattle.std.specs.Prelude.{◌≡◌, ◌<◌, Some, [], length};
ghost use Rattle.pdc_life.specs.CoreKind.{given_of, OfNode};
ghost use Rattle.pdc_node.specs.Node.{StandsFor};

use crate::frames::{FLOOR, Frames};
use pdc_core::{KeptArrival, Reads};
use pdc_hub::{Naming, Replayed};
use pdc_life::{MAX_PMUS, Settings};
use pdc_log::{Front, Log};
use pdc_node::{Node, copy_of};
use pdc_service::MAX_LIMIT;
use pdc_table::{DueRow, HeldBox, RingTable, spare_row};
use std::alloc::Global;
use std::marker::Brand;
use std::rt::Clock;
use std::sync::Wait;
use std::time::{Duration, Instant};

/// All counts may be adopted.
const CLEARED: [u16; MAX_PMUS] = [u16::MAX; MAX_PMUS];

/// Reads each frame, and answers how many there were.
fn read_all(alloc: Global, settings: &Settings, frames: &Frames) -> u64 {
    let mut kept = KeptArrival::blank();
    let mut count = 0u64;
    for number in 0..=frames.count as usize {
        for (stream, list) in frames.streams.iter().enumerate() {
            if stream < settings.pmus.len() && number < list.len() {
                let bytes = &list[number];
                if settings.lend(alloc, stream, bytes, &mut kept).is_ok() {
                    count = count.saturating_add(1);
                }
            }
        }
    }
    count
}

/// Reads one frame, takes and records it; false where memory runs out.
fn take_one<N: Naming<Settings>, R: Wait>(
    rt: &R,
    alloc: Global,
    settings: &Settings,
    core: &mut Replayed<Node<RingTable>, N>,
    front: &mut Front<N>,
    kept: &mut KeptArrival,
    stream: usize,
    bytes: &[u8],
) -> bool
    requires named { N.settings ≡ Some settings.now }
    requires stream { stream < length settings.now.pmus.items }
{
    match settings.lend(alloc, stream, bytes, kept) {
        Ok(lent) => {
            core.arrive(rt, front, stream, bytes, &lent, kept);
            true
        }
        Err(_) => false,
    }
}

/// Takes the frame with this number of each PMU, ticks, and pops into this row; false where memory runs out.
fn take_instant<N: Naming<Settings>, R: Wait>(
    rt: &R,
    alloc: Global,
    settings: &Settings,
    core: &mut Replayed<Node<RingTable>, N>,
    front: &mut Front<N>,
    kept: &mut KeptArrival,
    row: &mut HeldBox<DueRow>,
    frames: &Frames,
    number: u32,
) -> bool
    requires { N.settings ≡ Some settings.now }
{
    for (stream, list) in frames.streams.iter().enumerate() {
        if stream < settings.pmus.len() && (number as usize) < list.len() {
            let bytes = &list[number as usize];
            if !take_one(rt, alloc, settings, core, front, kept, stream, bytes) {
                return false;
            }
        }
    }
    let now = FLOOR.saturating_add(u64::from(number));
    core.tick(rt, front, now, &CLEARED);
    core.pop_into(rt, front, row);
    true
}

/// The same over two nodes that were opened alike: one is the base, the other the state. False where memory runs out.
fn record_all<N: Naming<Settings>, R: Wait>(
    rt: &R,
    alloc: Global,
    settings: &Settings,
    counts: &[u16; MAX_PMUS],
    base: Node<RingTable>,
    state: Node<RingTable>,
    log: Log,
    frames: &Frames,
) -> bool
    requires given { N.given ≡ Some (given_of (OfNode settings.now) 1 FLOOR counts.now 0) }
    requires alike { StandsFor (given_of (OfNode settings.now) 1 FLOOR counts.now 0) [] base × StandsFor (given_of (OfNode settings.now) 1 FLOOR counts.now 0) [] state }
    requires settings { (N.settings ≡ Some settings.now) × (base.settings ≡ settings.now) × (state.settings ≡ settings.now) }
    requires log { (log.seen.book ≡ N.book) × (log.seen.log ≡ []) }
{
    let mut front = log.front::<N>();
    let Ok(mut core) = Replayed::<Node<RingTable>, N>::new(alloc, base, state, MAX_LIMIT, log)
    else {
        return false;
    };
    let mut kept = KeptArrival::blank();
    let Ok(mut row) = spare_row(alloc) else {
        return false;
    };
    for number in 0..=frames.count {
        if !take_instant(
            rt, alloc, settings, &mut core, &mut front, &mut kept, &mut row, frames, number,
        ) {
            return false;
        }
    }
    true
}

/// The same over a node of these settings; false where memory runs out.
fn open_and_record<R: Wait>(rt: &R, alloc: Global, settings: &Settings, frames: &Frames) -> bool {
    let counts = [0; MAX_PMUS];
    let Ok(base) = Node::open(alloc, copy_of(settings), 1, FLOOR, &counts, 0) else {
        return false;
    };
    let Ok(state) = Node::open(alloc, copy_of(settings), 1, FLOOR, &counts, 0) else {
        return false;
    };
    record_all::<Brand, R>(
        rt,
        alloc,
        settings,
        &counts,
        base,
        state,
        Log::new(),
        frames,
    )
}

/// How long it took to read all frames, and to take and record them besides; none where memory runs out or the clock cannot be read.
pub fn run_recorded<R: Clock + Wait>(
    rt: &R,
    alloc: Global,
    settings: &Settings,
    frames: &Frames,
) -> Option<(Duration, Duration)> {
    let begun = Instant::now(rt).ok()?;
    let read = read_all(alloc, settings, frames);
    let reading = begun.elapsed(rt).ok()?;
    let begun = Instant::now(rt).ok()?;
    let is_whole = open_and_record(rt, alloc, settings, frames);
    let recording = begun.elapsed(rt).ok()?;
    if read > 0 && is_whole {
        Some((reading, recording))
    } else {
        None
    }
}
