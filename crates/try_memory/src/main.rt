//! Makes each call that may want memory, and prints a line before it and its answer behind it, each with what stands. With ample memory no
//! call is refused. `tests/memory` refuses each request in turn, and compares.
//!
//! The words on the command line say which calls: `frames` those of frames, sessions, clients and simulated PMUs, `cores` those of settings,
//! tables, arrivals, cores, publishers and what was sent last, `runs` a world, each event in it, and a hub.
#![tactic(auto)]

mod cores;
mod frames;
mod runs;
mod trial;
mod vectors;

use std::alloc::Global;
use std::io;
use std::process::ExitCode;
use std::sync::Wait;

/// Makes the calls that the word says.
fn play<R: Wait + Print>(rt: &R, alloc: Global, word: &str) -> io::Result<()> {
    match word {
        "frames" => frames::play(rt, alloc)?,
        "cores" => cores::play(rt, alloc)?,
        "runs" => runs::play(rt, alloc)?,
        _ => println!(rt; "no such calls")?,
    }
    println!(rt; "through")
}

fn main(rt: HostRuntime) -> io::Result<ExitCode> {
    let alloc = rt.alloc();
    let words: Vec<String> = std::env::args(&rt)?.collect(alloc)?;
    for word in words.as_slice().get(1..).unwrap_or(&[]) {
        play(&rt, alloc, word)?;
    }
    Ok(ExitCode::SUCCESS)
}
