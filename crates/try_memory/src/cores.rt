//! Each call of settings, tables, arrivals, cores, publishers and what was sent last.

mod arrivals;
mod documents;
mod layouts;
mod opens;
mod publishes;
mod recents;
mod settings;
mod silent;
mod tables;

use std::alloc::Global;
use std::io;
use std::sync::Wait;

/// Makes them.
pub fn play<R: Wait + Print>(rt: &R, alloc: Global) -> io::Result<()> {
    documents::play(rt, alloc)?;
    tables::play(rt, alloc)?;
    arrivals::play(rt, alloc)?;
    opens::play(rt, alloc)?;
    layouts::play(rt, alloc)?;
    publishes::play(rt, alloc)?;
    recents::play(rt, alloc)
}
