//! The command over the standard streams.

use crate::{ShowFault, Shown, run_show};
use std::alloc::Global;
use std::io;

/// The exit statuses.
const DONE: u8 = 0;

const REFUSED: u8 = 1;

const FAILED: u8 = 3;

fn show_streams(alloc: Global, rt: &(impl Input + Print)) -> Result<Shown, ShowFault> {
    let mut reader = rt.reader();
    let mut writer = io::writer(rt);
    run_show(alloc, &mut reader, &mut writer)
}

/// Shows what comes on standard input. The exit status is 0, 1 where a line was refused, and 3 where a stream or memory failed, of which
/// standard error then tells. Where whoever reads standard output has closed it, it ends in silence with 0.
///
/// # Errors
///
/// Standard error cannot be written.
pub fn run_show_command(rt: &(impl Input + Print + Eprint), alloc: Global) -> io::Result<u8> {
    match show_streams(alloc, rt) {
        Ok(Shown::All) => Ok(DONE),
        Ok(Shown::SomeRefused) => Ok(REFUSED),
        // Whoever reads has read enough.
        Err(ShowFault::Write(fault)) if fault.kind() == io::ErrorKind::BrokenPipe => Ok(DONE),
        Err(fault) => {
            eprintln!(rt; "pdc show: {fault}")?;
            Ok(FAILED)
        }
    }
}
