//! A core that is handed its steps: what bytes say is kept, and arrives as a step.
ghost use Rattle.std.specs.Prelude.{◌≡◌, ◌<◌};

use pdc_core::{Core, CoreStep, Reads, Reply, Ticked};
use pdc_life::{MAX_PMUS, Outcome};
use pdc_row::DueRow;
use std::alloc::{AllocError, Global};

/// How the bytes of a datagram are answered, kept and handed in.
pub fn arrive<C: Core>(
    alloc: Global,
    core: &mut C,
    stream: usize,
    bytes: &[u8],
) -> Result<Outcome, AllocError>
    requires { stream < C.Settings.streams (C.settings_of core.old) }
{
    let taken = core.settings().read_kept(alloc, stream, bytes)?;
    match core.apply(&CoreStep::Arrive { stream, taken }) {
        Reply::Arrived(outcome) => Ok(outcome),
        _ => unreachable!(),
    }
}

/// What a tick does that is handed in.
pub fn tick<C: Core>(core: &mut C, now: u64, counts: [u16; MAX_PMUS]) -> Ticked {
    match core.apply(&CoreStep::Tick { now, counts }) {
        Reply::Closed(ticked) => ticked,
        _ => unreachable!(),
    }
}

/// The row that a pop gives that is handed in.
pub fn pop<C: Core>(core: &mut C) -> Option<DueRow> {
    match core.apply(&CoreStep::Pop) {
        Reply::Popped(due) => due,
        _ => unreachable!(),
    }
}
