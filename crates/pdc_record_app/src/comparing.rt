//! Records of more than one concentrator.

use crate::printing::{Disk, PIECE, print, status_of, tell_faults};
use pdc_compare::Comparison;
use std::io;

/// Tells of all instants.
fn tell_instants(
    rt: &HostRuntime,
    comparison: &mut Comparison<'_>,
    out: &mut Vec<u8>,
) -> io::Result<()> {
    let mut disk = Disk { rt };
    for _ in 0..u64::MAX {
        if !comparison.tell_next(&mut disk, out)? {
            break;
        }
        if out.len() > PIECE {
            print(rt, out)?;
        }
    }
    Ok(())
}

/// Tells what is wrong with the files.
fn tell_all_faults(rt: &HostRuntime, comparison: &Comparison<'_>) -> io::Result<()> {
    for faults in &comparison.faults() {
        tell_faults(rt, faults)?;
    }
    Ok(())
}

/// Compares records, and answers the exit status.
///
/// # Errors
///
/// A standard stream cannot be written, or there is no memory.
pub fn compare(rt: &HostRuntime, comparison: &mut Comparison<'_>) -> io::Result<u8> {
    let mut out = Vec::new(rt.alloc());
    tell_instants(rt, comparison, &mut out)?;
    let verdict = comparison.tell_end(&mut out)?;
    print(rt, &mut out)?;
    tell_all_faults(rt, comparison)?;
    Ok(status_of(verdict))
}
