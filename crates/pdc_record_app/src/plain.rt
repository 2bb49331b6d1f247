//! A record on the plain program of a life.

use crate::{DONE, FAILED, REFUSED};
use pdc_compare::Entries;
use pdc_record::{Entry, What};
use pdc_replay::{MOST_STEPS, NotPlayed, play_plain};
use std::alloc::{AllocError, Global};
use std::{fs, io};

/// Adds the entries of a file, up to what is none, without the steps that it carries over.
fn add_entries<'a>(bytes: &'a [u8], to: &mut Vec<Entry<'a>>) -> Result<(), AllocError> {
    let mut entries = Entries::from(bytes, 0);
    let mut first = 0u64;
    for _ in 0..=bytes.len() {
        let Ok(Some(entry)) = entries.next_entry() else {
            return Ok(());
        };
        if matches!(entry.what, What::Begun(_)) {
            first = entry.step;
        }
        if !entry.is_carried(first) {
            to.push(entry)?;
        }
    }
    Ok(())
}

/// The entries of all files.
fn entries_of<'a>(alloc: Global, files: &'a [Vec<u8>]) -> Result<Vec<Entry<'a>>, AllocError> {
    let mut entries = Vec::new(alloc);
    for bytes in files {
        add_entries(bytes, &mut entries)?;
    }
    Ok(entries)
}

/// What these files have.
fn read_all(rt: &HostRuntime, names: &[&str]) -> io::Result<Vec<Vec<u8>>> {
    let mut files = Vec::new(rt.alloc());
    for name in names {
        files.push(fs::read(rt, name)?)?;
    }
    Ok(files)
}

/// What came of a record on the plain program: the number of its steps, or of the first step that differs.
type Played = Result<Result<u64, u64>, NotPlayed>;

/// Plays the record in these files, which has so many steps.
fn played(rt: &HostRuntime, names: &[&str], steps: u64) -> io::Result<Played> {
    if steps > MOST_STEPS as u64 {
        return Ok(Err(NotPlayed::TooLong));
    }
    let alloc = rt.alloc();
    let files = read_all(rt, names)?;
    let entries = entries_of(alloc, &files)?;
    Ok(play_plain(alloc, &entries))
}

/// What is told of it.
fn text_of(alloc: Global, played: &Played) -> Result<String, AllocError> {
    match played {
        Ok(Ok(steps)) => format!(in alloc; "{steps} steps on the plain program: as recorded"),
        Ok(Err(step)) => format!(in alloc; "step {step} differs on the plain program"),
        Err(cause) => format!(in alloc; "not played on the plain program: {cause}"),
    }
}

/// The exit status that it gives.
fn status_of(played: &Played) -> u8 {
    match played {
        Ok(Ok(_)) => DONE,
        Err(NotPlayed::Memory) => FAILED,
        _ => REFUSED,
    }
}

/// Plays the record in these files, which has so many steps, on the plain program of a life; gives what is told of it, and the exit status.
///
/// # Errors
///
/// A file cannot be read, or there is no memory.
pub fn played_plainly(rt: &HostRuntime, names: &[&str], steps: u64) -> io::Result<(String, u8)> {
    let played = played(rt, names, steps)?;
    Ok((text_of(rt.alloc(), &played)?, status_of(&played)))
}
