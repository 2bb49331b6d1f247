//! Which files of a record are removed.
ghost use Rattle.std.specs.Prelude.{◌≡◌, ◌<◌, IfSome, true};
ghost use Rattle.pdc_recording.specs.Files.{is_other, is_over, old_of};

use crate::lives::is_removed;
use crate::series::name_of;
use crate::shelf::Shelf;
use std::alloc::Global;
use std::io;
use std::io::ErrorKind;

/// A file among the records of one name: the number of its life's start, and its own.
#[derive(Clone, Copy, Debug, PartialEq, Eq)]
pub struct FileNumber {
    /// The number of its life's start.
    pub start: u32,
    /// Its own.
    pub number: u32,
}

/// Where so many files of a life stay, with the one that begins with this number: the one that does not, if there is one.
pub fn old_of(keep: Option<u32>, number: u32) -> Option<u32>
    ensures value { result ≡ old_of keep number }
    ensures before { IfSome result (λ old. old < number) }
{
    match keep {
        Some(keep) if 0 < keep && keep < number => Some(number - keep),
        _ => None,
    }
}

/// Whether the files of a life with this start go, where the life with the other start is recorded: it is over, and not to stay.
pub fn is_over(kept: u32, starts: &[u32], gone: u32, start: u32) -> bool
    ensures { result ≡ is_over kept starts.now gone start }
{
    gone < start && is_removed(kept, starts, gone)
}

/// Removes a file that is not the one that is written, if one is. No other call in this crate removes a file.
///
/// # Errors
///
/// It cannot be removed, or there is no memory.
pub fn remove_file<R: Shelf>(
    rt: &R,
    alloc: Global,
    name: &str,
    gone: FileNumber,
    written: Option<FileNumber>,
) -> io::Result<()>
    requires { is_other gone written ≡ true }
{
    let is_other = written != Some(gone);
    prove!(is_other);
    match name_of(alloc, name, gone.start, gone.number) {
        Ok(path) => rt.remove(path.as_str()),
        Err(_) => Err(io::Error::from(ErrorKind::OutOfMemory)),
    }
}
