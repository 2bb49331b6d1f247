//! The command over the standard streams.

use crate::export::run_export;
use crate::exporter::Format;
use crate::fault::ExportFault;
use pdc_show::Shown;
use std::alloc::Global;
use std::io;

/// The exit statuses.
const DONE: u8 = 0;

const REFUSED: u8 = 1;

const FAILED: u8 = 3;

fn export_streams(
    rt: &(impl Input + Print + Eprint),
    alloc: Global,
    format: Format,
) -> Result<Shown, ExportFault> {
    let mut reader = rt.reader();
    let mut writer = io::writer(rt);
    run_export(rt, alloc, format, &mut reader, &mut writer)
}

/// Writes what comes on standard input as JSON or CSV. The exit status is 0, 1 where a line was refused, and 3 where a stream or memory failed, of
/// which standard error then tells. Where whoever reads standard output has closed it, it ends in silence with 0.
///
/// # Errors
///
/// Standard error cannot be written.
pub fn run_export_command(
    rt: &(impl Input + Print + Eprint),
    alloc: Global,
    format: Format,
) -> io::Result<u8> {
    match export_streams(rt, alloc, format) {
        Ok(Shown::All) => Ok(DONE),
        Ok(Shown::SomeRefused) => Ok(REFUSED),
        // Whoever reads has read enough.
        Err(ExportFault::Write(fault)) if fault.kind() == io::ErrorKind::BrokenPipe => Ok(DONE),
        Err(fault) => {
            eprintln!(rt; "pdc show: {fault}")?;
            Ok(FAILED)
        }
    }
}
