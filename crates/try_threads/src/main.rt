//! Runs nodes with receivers, aligner and sender in threads, over sources and a sink in memory, and prints how each run ended and what the
//! sink took; and plays sessions in memory.
//!
//! The words on the command line say what: `scenes` runs that end well or by a fault, `sessions` the sessions, `refused` a run whose requests
//! for memory `tests/memory` refuses in turn. Sources and ticker wait for what the core shows, so that a run goes the same way whatever
//! thread comes first; and none of them asks for memory.
#![tactic(auto)]

mod node_a;
mod refused;
mod scene;
mod scenes;
mod scripted;
mod sessions;
mod sinks;

use std::io;
use std::process::ExitCode;

fn main(rt: HostRuntime) -> io::Result<ExitCode> {
    let alloc = rt.alloc();
    let words: Vec<String> = std::env::args(&rt)?.collect(alloc)?;
    for word in words.as_slice().get(1..).unwrap_or(&[]) {
        match word.as_str() {
            "scenes" => scenes::play(&rt, alloc)?,
            "sessions" => sessions::play(&rt, alloc)?,
            "refused" => refused::play(&rt, alloc)?,
            _ => println!(&rt; "no such runs")?,
        }
    }
    Ok(ExitCode::SUCCESS)
}
