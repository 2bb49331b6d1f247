//! Each call of frames, sessions, clients and simulated PMUs.

mod answers;
mod clients;
mod line;
mod makers;
mod pmus;
mod recents;
mod sessions;
mod writers;

use std::alloc::Global;
use std::io;

/// Makes them.
pub fn play<R: Print>(rt: &R, alloc: Global) -> io::Result<()> {
    writers::play(rt, alloc)?;
    makers::play(rt, alloc)?;
    sessions::play(rt, alloc)?;
    recents::play(rt, alloc)?;
    clients::play(rt, alloc)?;
    pmus::play(rt, alloc)
}
