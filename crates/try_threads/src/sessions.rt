//! Sessions in memory, and the frames that are kept for them.

mod consumers;
mod data;
mod line;
mod recents;

use std::alloc::Global;
use std::io;
use std::sync::Wait;

/// Plays them, and prints what came of each.
pub fn play<R: Wait + Print>(rt: &R, alloc: Global) -> io::Result<()> {
    recents::play(rt, alloc)?;
    consumers::play(rt, alloc)
}
