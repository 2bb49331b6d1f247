//! What is printed of a script, over marks of either kind.

use crate::scenario::Three;
use pdc_disk::MemoryDisk;
use pdc_mark::DiskMark;
use pdc_play::{CountedReader, Ending, PlayFault, Roles, play_over, play_settings, roles_of_three};
use pdc_row::Output;
use std::alloc::{AllocError, Global};
use std::io;

/// What was printed, and then a line of the exit status.
fn with_status(
    alloc: Global,
    printed: Vec<u8>,
    ending: Result<Ending, PlayFault>,
) -> io::Result<Vec<u8>> {
    let mut printed = printed;
    let line = match ending {
        Ok(ending) => format!(in alloc; "status {}\n", ending.status())?,
        Err(fault) => format!(in alloc; "{fault}\n")?,
    };
    printed.extend_from_slice(line.as_bytes())?;
    Ok(printed)
}

/// What is printed of the script on a world over new marks in memory, with the exit status.
///
/// # Errors
///
/// Want of memory.
pub fn over_memory(alloc: Global, three: Three, script: &[u8]) -> io::Result<Vec<u8>> {
    let Three { a, b, m } = three;
    let mut reader = CountedReader::new(script);
    let mut printed = Vec::new(alloc);
    let ending = play_settings(alloc, a, b, m, &mut reader, &mut printed);
    with_status(alloc, printed, ending)
}

/// A new mark on a disk in memory.
fn new_mark(output: &Output) -> io::Result<DiskMark<MemoryDisk>> {
    DiskMark::init(MemoryDisk::new(&[]), output.id.value, output.rate).map_err(|_| io::Error::other(
        "a mark is not made",
    ))
}

/// The new marks of a world.
fn new_marks(
    roles: &Roles,
) -> io::Result<
    (
        DiskMark<MemoryDisk>,
        DiskMark<MemoryDisk>,
        DiskMark<MemoryDisk>,
    ),
> {
    Ok((
        new_mark(&roles.a.life.output)?,
        new_mark(&roles.b.life.output)?,
        new_mark(&roles.m.life.output)?,
    ))
}

/// The same over new marks on disks; `None` where the settings are not those of two nodes and the merger.
///
/// # Errors
///
/// A mark that is not made, or want of memory.
pub fn over_disks(alloc: Global, three: Three, script: &[u8]) -> io::Result<Option<Vec<u8>>> {
    let Three { a, b, m } = three;
    let Some(roles) = roles_of_three(a, b, m) else {
        return Ok(None);
    };
    let marks = new_marks(&roles)?;
    let mut reader = CountedReader::new(script);
    let mut printed = Vec::new(alloc);
    let ending = play_over(alloc, roles, marks, &mut reader, &mut printed);
    Ok(Some(with_status(alloc, printed, ending)?))
}
