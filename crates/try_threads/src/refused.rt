//! The run that `tests/memory` refuses memory: how it ended, what was counted, and each frame that the sink took. With ample memory it is made
//! once; where it is refused, it is made again, with all that it is given made anew.

use crate::node_a::{TWICE_11, TWICE_12, settings_of};
use crate::scene::{Played, Scene, run_scene};
use crate::scripted::Shown;
use pdc_frame::{Kind, instant, read_frame};
use pdc_mark::{Mark, ModelMark};
use pdc_threads::Ran;
use std::alloc::Global;
use std::io;
use std::sync::Wait;
use std::thread::Threads;

/// The time base and the rate of node A.
const TIME_BASE: u32 = 1_000_000;

const RATE: u32 = 50;

/// The instant of a data frame; 0 of a frame of another kind.
fn instant_of(bytes: &[u8]) -> u64 {
    let Ok(frame) = read_frame(bytes) else {
        return 0;
    };
    if frame.kind != Kind::DataFrame {
        return 0;
    }
    instant(frame.soc, frame.frac, TIME_BASE, RATE).unwrap_or(0)
}

/// A number that tells bytes apart: 31 times that of the bytes before the last one, and the last one, modulo 2^32. (A check word would not
/// do: behind equal bytes, all whole frames of one length have the same.)
fn digest(bytes: &[u8]) -> u32 {
    bytes.iter().fold(0, |sum: u32, byte| {
        sum.wrapping_mul(31).wrapping_add(u32::from(*byte))
    })
}

/// Whether the instants of the data frames strictly rise, from above the floor that was stored before to at most the one that is stored then.
fn are_rising(frames: &[Vec<u8>], before: u64, then: u64) -> bool {
    let mut last = before;
    for frame in frames {
        let instant = instant_of(frame);
        if instant > 0 {
            if instant <= last || instant > then {
                return false;
            }
            last = instant;
        }
    }
    true
}

/// Prints how a run ended, what was counted, and what the ticker was told last.
fn print_counts<M: Mark, R: Print>(rt: &R, played: &Played<M>) -> io::Result<()> {
    match &played.ran.outcome {
        Ok(totals) => {
            println!(rt; "  Ok")?;
            let (taken, refused, published) = (totals.taken, totals.refused, totals.published);
            println!(rt; "  totals: taken={taken} refused={refused} published={published}")?;
            for counted in &totals.receivers {
                let (taken, refused) = (counted.taken, counted.refused);
                println!(rt; "  receiver: taken={taken} refused={refused}")?;
            }
        }
        Err(fault) => println!(rt; "  {fault}")?,
    }
    let taken = played.taken;
    println!(rt; "  core: taken={taken}")?;
    let (published, last) = (played.published, played.last);
    println!(rt; "  told: published={published} last={last}")
}

/// Prints each frame that the sink took: its length, its digest, and its instant, 0 where it is a layout.
fn print_frames<R: Print>(rt: &R, frames: &[Vec<u8>]) -> io::Result<()> {
    for frame in frames {
        let (len, digest, instant) = (frame.len(), digest(frame), instant_of(frame));
        println!(rt; "  frame: {len} {digest} {instant}")?;
    }
    Ok(())
}

/// Prints what came of a run that began with floor 0. Whether it was answered `Ok`.
fn print_played<M: Mark + Drop, R: Print>(rt: &R, played: Played<M>) -> io::Result<bool> {
    print_counts(rt, &played)?;
    let Ran {
        outcome,
        publisher,
        sink,
        ..
    } = played.ran;
    let (_, floor) = publisher.into_mark().stored();
    print_frames(rt, &sink.inner.frames)?;
    let count = sink.inner.frames.len();
    let rising = are_rising(&sink.inner.frames, 0, floor);
    println!(rt; "  sent: {count} frames, rising={rising}")?;
    Ok(outcome.is_ok())
}

/// Runs it, and prints what came of it. Whether it was answered `Ok`.
fn attempt<R: Threads + Wait + Sync + Print>(rt: &R, alloc: Global) -> io::Result<bool> {
    let shown = Shown::new();
    let scene = Scene {
        name: "call run",
        limit: 4,
        layout_every: 2,
        first: TWICE_11,
        second: TWICE_12,
        taken: 4,
        shown: &shown,
        sink_fails_at: u32::MAX,
    };
    let Some(settings) = settings_of(alloc) else {
        println!(rt; "the settings are refused")?;
        return Ok(false);
    };
    let life = settings.life;
    if life.pmus.len() != 2 {
        println!(rt; "no such run")?;
        return Ok(false);
    }
    match run_scene(rt, alloc, &life, ModelMark::new(1, 0), &scene)? {
        Some(played) => print_played(rt, played),
        None => {
            println!(rt; "out of memory")?;
            Ok(false)
        }
    }
}

/// Makes the run, and again where it is refused.
pub fn play<R: Threads + Wait + Sync + Print>(rt: &R, alloc: Global) -> io::Result<()> {
    if !attempt(rt, alloc)? {
        attempt(rt, alloc)?;
    }
    println!(rt; "through")
}
