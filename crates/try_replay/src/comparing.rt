//! Records that are compared.

use crate::tellers::line_of;
use pdc_compare::{Comparison, Grouped, Opens, group_files};
use std::alloc::{AllocError, Global};
use std::io;
use std::io::{ErrorKind, Write};

/// The names of the records, in the order in which they were kept.
const NAMES: [&str; 3] = ["first", "second", "third"];

/// The records that are kept.
#[derive(Clone, Copy)]
struct Kept<'a> {
    alloc: Global,
    records: &'a [Vec<u8>],
}

impl Opens for Kept<'_> {
    fn open(&mut self, file: &str) -> io::Result<Vec<u8>> {
        for (name, record) in NAMES.iter().zip(self.records) {
            if *name == file {
                let mut copy = Vec::new(self.alloc);
                copy.extend_from_slice(record)?;
                return Ok(copy);
            }
        }
        Err(io::Error::from(ErrorKind::NotFound))
    }
}

/// Writes what is told of records that are compared, what is wrong with them, and what that is.
fn write_compared(
    kept: &mut Kept<'_>,
    comparison: &mut Comparison<'_>,
    out: &mut Vec<u8>,
) -> io::Result<()> {
    for _ in 0..u64::MAX {
        let goes_on = comparison.tell_next(kept, out)?;
        if !goes_on {
            break;
        }
    }
    let verdict = comparison.tell_end(out)?;
    for faults in &comparison.faults() {
        for fault in *faults {
            writeln!(out, "{fault}")?;
        }
    }
    writeln!(out, "{verdict:?}")
}

/// Writes what is told where the records of these names are compared.
fn write_grouped(kept: &mut Kept<'_>, names: &[&str], out: &mut Vec<u8>) -> io::Result<()> {
    match group_files(kept.alloc, kept, names)? {
        Grouped::One => write!(out, "of one concentrator"),
        Grouped::Misfit(name, cause) => write!(out, "{name}: {cause}"),
        Grouped::Several(mut comparison) => write_compared(kept, &mut comparison, out),
    }
}

/// A line of what is told where these records are compared.
pub fn compared_line(alloc: Global, records: &[Vec<u8>], line: &str) -> Result<String, AllocError> {
    let mut kept = Kept { alloc, records };
    let names = NAMES.get(..records.len()).unwrap_or(&NAMES);
    let mut out = Vec::new(alloc);
    match write_grouped(&mut kept, names, &mut out) {
        Ok(()) => line_of(alloc, &out, line),
        Err(_) => Err(AllocError),
    }
}
