//! What is read and printed.

use crate::{DONE, FAILED, REFUSED};
use pdc_compare::{Fault, Files, Opens, Takes, Verdict, Walked, Wrong};
use std::{fs, io, str};

/// How many bytes are gathered before they are printed.
pub const PIECE: usize = 32768;

/// The files of the system.
#[derive(Drop)]
pub struct Disk<'a> {
    pub rt: &'a HostRuntime,
}

/// What takes entries and writes about them.
pub trait Tells: Takes {
    /// What is to be printed.
    fn out(&mut self) -> &mut Vec<u8>;

    /// It takes no more entries.
    fn is_done(&self) -> bool;
}

impl Opens for Disk<'_> {
    fn open(&mut self, file: &str) -> io::Result<Vec<u8>> {
        fs::read(self.rt, file)
    }
}

/// Prints what is to be printed.
///
/// # Errors
///
/// Standard output cannot be written.
pub fn print(rt: &HostRuntime, out: &mut Vec<u8>) -> io::Result<()> {
    let text = str::from_utf8(out).unwrap_or("");
    print!(rt; "{text}")?;
    out.clear();
    Ok(())
}

/// Tells what is wrong with files.
///
/// # Errors
///
/// Standard error cannot be written.
pub fn tell_faults(rt: &HostRuntime, faults: &[Fault<'_>]) -> io::Result<()> {
    for fault in faults {
        if matches!(fault.wrong, Wrong::Unread(_)) {
            eprintln!(rt; "device fault")?;
        }
        eprintln!(rt; "{fault}")?;
    }
    Ok(())
}

/// Hands the entries of files on, prints what is written about them, and tells what is wrong with the files.
///
/// # Errors
///
/// A standard stream cannot be written, or there is no memory.
pub fn walk<T: Tells>(rt: &HostRuntime, files: &mut Files<'_>, taker: &mut T) -> io::Result<()> {
    let mut disk = Disk { rt };
    for _ in 0..u64::MAX {
        let walked = files.walk(&mut disk, taker)?;
        print(rt, taker.out())?;
        if walked != Walked::Stopped || taker.is_done() {
            break;
        }
    }
    tell_faults(rt, files.faults())
}

/// The exit status of what became of records.
pub fn status_of(verdict: Verdict) -> u8 {
    match verdict {
        Verdict::AsRecorded => DONE,
        Verdict::Refused => REFUSED,
        Verdict::Failed => FAILED,
    }
}
