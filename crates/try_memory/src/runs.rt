//! A world that is made, each event in it, and each call of a hub.

mod hubs;
mod opening;
mod settings;
mod steps;

use std::alloc::Global;
use std::io;
use std::sync::Wait;

/// Makes them.
pub fn play<R: Wait + Print>(rt: &R, alloc: Global) -> io::Result<()> {
    opening::play(rt, alloc)?;
    steps::play(rt, alloc)?;
    hubs::play(rt, alloc)
}
