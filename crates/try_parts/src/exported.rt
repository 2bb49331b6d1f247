//! Captured frames through the export.

use pdc_export::{Format, run_export};
use std::alloc::Global;
use std::rt::Files;
use std::{fs, io};

/// Exports the frames in this form; tells whether the export came to its end.
pub fn play(
    rt: &(impl Files + AllocGlobal + Eprint + Print),
    alloc: Global,
    file: &str,
    format: Format,
) -> io::Result<bool> {
    let lines = fs::read(rt, file)?;
    let mut writer = io::writer(rt);
    match run_export(rt, alloc, format, &mut lines.as_slice(), &mut writer) {
        Ok(_) => Ok(true),
        Err(fault) => {
            eprintln!(rt; "{file}: {fault}")?;
            Ok(false)
        }
    }
}
