//! Plays a node with its PMUs and its consumers over the loopback, a simulated PMU, and the faults that end a node before it runs, and
//! prints what came of each.
#![tactic(auto)]

mod driving;
mod files;
mod network;
mod node;
mod pmu;
mod scripted;

use std::process::ExitCode;
use std::{io, process};

/// The first of the ports of this process, of which each has ten. They lie below those that the system gives out by itself.
fn first_port(process: u32) -> u16 {
    20000 + (process % 1200) as u16 * 10
}

fn main(rt: HostRuntime) -> io::Result<ExitCode> {
    let alloc = rt.alloc();
    let process = process::id(rt.process());
    let port = first_port(process);
    node::play(&rt, alloc, port)?;
    let socket = network::listen(&rt, port)?;
    pmu::play(&rt, alloc, port, &socket)?;
    drop(socket);
    files::play(&rt, alloc, process, port)?;
    Ok(ExitCode::SUCCESS)
}
