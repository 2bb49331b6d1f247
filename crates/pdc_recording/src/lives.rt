//! Records of lives that are over.
ghost use Rattle.std.specs.Prelude.{◌≡◌, ◌≤◌, length};
ghost use Rattle.pdc_recording.specs.Lives.{is_removed, newer_than};

use crate::files::{FileNumber, is_over, remove_file};
use crate::series::{Series, name_of};
use crate::shelf::Shelf;
use pdc_journal::Journal;
use pdc_record::{Begun, Role, What, read_entry};
use std::alloc::{AllocError, Global};
use std::rt::Clock;
use std::sync::Wait;
use std::{io, str};

/// How many bytes of a file tell how long its first entry is.
const LEN: u64 = 4;

/// The longest entry.
const MOST: u64 = 1_048_664;

/// Whose records are looked for: what their names begin with, and what the life begins with that is to go on.
#[derive(Clone, Copy)]
struct Sought<'a> {
    name: &'a str,
    role: Role,
    id: u16,
    start: u32,
    /// The number of the file that is written.
    number: u32,
}

impl Sought<'_> {
    /// The file that is written.
    fn written(&self) -> FileNumber
        ensures start { result.start ≡ self.now.start }
        ensures number { result.number ≡ self.now.number }
    {
        FileNumber {
            start: self.start,
            number: self.number,
        }
    }
}

/// How many of these starts, which stand with the greatest first, are greater than this one.
fn newer_than(starts: &[u32], start: u32) -> usize
    ensures newer { result ≡ newer_than starts.now start }
    ensures most { result ≤ length starts.now }
{
    starts.iter().take_while(|other| start < **other).count()
}

/// Whether the life with this start is removed of those with these starts, which are over and stand with the greatest first, where so many
/// lives are kept: the one that begins is the first of them, and then those with greater starts.
pub fn is_removed(kept: u32, starts: &[u32], start: u32) -> bool
    ensures { result ≡ is_removed kept starts.now start }
{
    let newer = newer_than(starts, start) as u64;
    u64::from(kept) <= newer.saturating_add(1)
}

/// The folder of a name, and what stands behind it.
fn folder_of(name: &str) -> (&str, &str) {
    match name.rsplit_once('/') {
        Some(("", last)) => ("/", last),
        Some((folder, last)) => (folder, last),
        None => (".", name),
    }
}

/// The file of a record with this name, where it is one of those that begin so.
fn found_in(alloc: Global, last: &str, sought: &str) -> Option<FileNumber> {
    let numbers = last.strip_prefix(sought)?.strip_prefix('.')?;
    let (start, number) = numbers.split_once('.')?;
    let found = FileNumber {
        start: start.parse::<u32>().ok()?,
        number: number.parse::<u32>().ok()?,
    };
    match name_of(alloc, sought, found.start, found.number) {
        Ok(name) if name.as_str() == last => Some(found),
        _ => None,
    }
}

/// Whether a file begins as one of this owner's life with that start.
fn is_of(begun: &Begun<'_>, sought: &Sought<'_>, start: u32) -> bool {
    begun.role == sought.role && begun.id == sought.id && begun.start == start
}

/// How many bytes the first entry of a file has, as its first bytes say.
fn first_len(front: &[u8]) -> u64 {
    match front.first_chunk::<4>() {
        Some(bytes) => u64::from(u32::from_be_bytes(*bytes)),
        None => 0,
    }
}

/// Whether the file with this path begins as one of this owner's life with that start; not where it cannot be read.
fn is_own_file<R: Shelf>(
    rt: &R,
    alloc: Global,
    path: &str,
    sought: &Sought<'_>,
    start: u32,
) -> io::Result<bool> {
    let len = first_len(rt.front(alloc, path, LEN)?.as_slice());
    if len > MOST {
        return Ok(false);
    }
    let front = rt.front(alloc, path, len)?;
    match read_entry(front.as_slice()) {
        Ok((entry, _)) => match entry.what {
            What::Begun(begun) => Ok(is_of(&begun, sought, start)),
            _ => Ok(false),
        },
        Err(_) => Ok(false),
    }
}

/// The files of records of this owner's lives before this one.
fn found_by<R: Shelf>(rt: &R, alloc: Global, sought: &Sought<'_>) -> io::Result<Vec<FileNumber>> {
    let (folder, begins) = folder_of(sought.name);
    let names = rt.names(alloc, folder)?;
    let mut files = Vec::new(alloc);
    for name in names.as_slice().split(|byte| *byte == 0) {
        let Ok(last) = str::from_utf8(name) else {
            continue;
        };
        let Some(found) = found_in(alloc, last, begins) else {
            continue;
        };
        if found.start >= sought.start {
            continue;
        }
        let path = name_of(alloc, sought.name, found.start, found.number)?;
        if is_own_file(rt, alloc, path.as_str(), sought, found.start).unwrap_or(false) {
            files.push(found)?;
        }
    }
    Ok(files)
}

/// The starts of these files' lives, each once, the greatest first.
fn starts_of(alloc: Global, files: &[FileNumber]) -> Result<Vec<u32>, AllocError> {
    let mut starts: Vec<u32> = Vec::new(alloc);
    for file in files {
        if !starts.contains(&file.start) {
            starts.push(file.start)?;
        }
    }
    starts.sort_unstable();
    starts.reverse();
    Ok(starts)
}

/// The line about records that were removed.
fn removed_text(alloc: Global, name: &str, files: u64, kept: u32) -> Result<String, AllocError> {
    format!(in alloc;
        "{name}: {files} record files of lives that are over were removed; those of {kept} lives are kept, with this one"
    )
}

/// Tells that a file was not removed.
fn tell_kept<R: Wait + Clock>(
    rt: &R,
    alloc: Global,
    journal: &Journal,
    path: &str,
    error: &io::Error,
) {
    journal.tell(
        rt,
        format!(in alloc;
            "{path}: {error}: this record file of a life that is over was not removed"
        ),
    );
}

/// Removes those of these files that are not to stay, and answers how many that were.
fn remove_files<R: Wait + Clock + Shelf>(
    rt: &R,
    alloc: Global,
    sought: &Sought<'_>,
    files: &[FileNumber],
    kept: u32,
    journal: &Journal,
) -> Result<u64, AllocError> {
    let starts = starts_of(alloc, files)?;
    let mut removed = 0u64;
    for file in files {
        if is_over(kept, starts.as_slice(), file.start, sought.start) {
            match remove_file(rt, alloc, sought.name, *file, Some(sought.written())) {
                Ok(()) => removed = removed.saturating_add(1),
                Err(error) => {
                    let path = name_of(alloc, sought.name, file.start, file.number)?;
                    tell_kept(rt, alloc, journal, path.as_str(), &error);
                }
            }
        }
    }
    Ok(removed)
}

/// Removes the files of lives that are over and are not to stay, of which there are so many, and answers how many were removed.
fn remove_sought<R: Wait + Clock + Shelf>(
    rt: &R,
    alloc: Global,
    sought: &Sought<'_>,
    kept: u32,
    journal: &Journal,
) -> io::Result<u64> {
    let files = found_by(rt, alloc, sought)?;
    Ok(remove_files(rt, alloc, sought, files.as_slice(), kept, journal)?)
}

/// Removes the files of lives that are over and are not to stay, where that is asked for: those that have the name of this record's files, and
/// begin as files of this owner's lives with lower starts. It tells how many were removed, and each that could not be.
pub fn remove_over<R: Wait + Clock + Shelf>(
    rt: &R,
    alloc: Global,
    series: &Series<'_>,
    journal: &Journal,
) {
    let Some(kept) = series.limits().lives else {
        return;
    };
    let begun = series.begun();
    let sought = Sought {
        name: series.name(),
        role: begun.role,
        id: begun.id,
        start: begun.start,
        number: series.number(),
    };
    match remove_sought(rt, alloc, &sought, kept, journal) {
        Ok(0) => {}
        Ok(files) => journal.note(rt, removed_text(alloc, sought.name, files, kept)),
        Err(error) => journal.tell(
            rt,
            format!(in alloc; "{error}: record files of lives that are over were not looked for"),
        ),
    }
}
