//! Makes calls through a hub: a thousand whose answers, counts and layouts are compared with those of the bare core, and two lives that are
//! recorded and replayed.
#![tactic(auto)]

mod alike;
mod life;
mod listed;
mod marks;
mod recorded;
mod rounds;
mod streams;
mod two;

use std::process::ExitCode;
use std::{io, process};

fn main(rt: HostRuntime) -> io::Result<ExitCode> {
    let alloc = rt.alloc();
    alike::play(&rt, alloc)?;
    recorded::play(&rt, alloc, process::id(rt.process()))?;
    Ok(ExitCode::SUCCESS)
}
