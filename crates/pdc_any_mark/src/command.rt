//! The commands `mark-show` and `mark-forget`.
ghost use Rattle.std.specs.Prelude.{◌≡◌, [], IfOk};
ghost use Rattle.pdc_disk.specs.FileDisk.{seen_of};

use crate::any_mark::AnyMark;
use pdc_disk::FileDisk;
use pdc_mark::MarkFault;
use std::fmt::{Display, Formatter};
use std::fs::File;
use std::io::ErrorKind;
use std::rt::Files;
use std::{fmt, fs, io};
use thiserror::Error;

/// The exit statuses.
const DONE: u8 = 0;

const REFUSED: u8 = 1;

const FAILED: u8 = 3;

/// What is given up by a mark without counts, and when that is safe.
const GIVEN_UP: &str =
    "The new mark has the same id, rate, start and floor, and its counts are 0. This gives up one promise, this once: that the
configuration count adopted from a PMU never falls. If a frame of an older configuration of a PMU arrives, it is adopted again, and
data is read with it. This is safe once no such frame is on its way any more, and each PMU sends the configuration that it has now.";

/// Why a mark file is not read, or was not made. It prints as the first line of a command that ends by it; [`MarkFileFault::reason`] says more.
#[derive(Debug, Drop, Error)]
pub enum MarkFileFault {
    /// There is a file of the new name.
    #[error("mark exists")]
    Exists,
    /// A file can't be opened, looked for or made.
    #[error("device fault")]
    Unopened(io::Error),
    /// It is no mark, or a device failed.
    #[error("{0}")]
    Refused(MarkFault),
}

impl MarkFileFault {
    /// The reason, in words that may follow the name of the file.
    pub fn reason(&self) -> Reason<'_> {
        Reason { fault: self }
    }
}

/// Why a mark file is not read, or was not made, in words.
#[derive(Clone, Copy, Debug)]
pub struct Reason<'a> {
    fault: &'a MarkFileFault,
}

impl Display for Reason<'_> {
    fn fmt<W: fmt::Write>(&self, f: &mut Formatter<W>) -> fmt::Result {
        match self.fault {
            MarkFileFault::Exists => f.write_str("it is left as it is"),
            MarkFileFault::Unopened(error) if error.kind() == ErrorKind::WouldBlock => {
                f.write_str("in use by another process")
            }
            MarkFileFault::Unopened(error) => write!(f, "{error}"),
            MarkFileFault::Refused(MarkFault::NoMark) => {
                f.write_str("it does not have the 256 bytes of a mark")
            }
            MarkFileFault::Refused(MarkFault::OldMark) => {
                f.write_str("it is a mark of version 1: run pdc mark-convert")
            }
            MarkFileFault::Refused(MarkFault::Damaged) => {
                f.write_str("neither of its two slots is valid")
            }
            MarkFileFault::Refused(_) => f.write_str("the device failed"),
        }
    }
}

/// A fault, and the file that it is of.
type RefusalOf<'a> = (&'a str, MarkFileFault);

/// Reads the mark in this file, whoever owns it. The file is locked meanwhile, as a run locks it.
///
/// # Errors
///
/// The file cannot be opened, or another process has it; it is no mark, or the device failed.
pub fn read_mark_file<R: Files<File = File>>(
    files: &R,
    file: &str,
) -> Result<AnyMark, MarkFileFault> {
    let disk = FileDisk::open(files, file).map_err(MarkFileFault::Unopened)?;
    match AnyMark::read(disk) {
        Ok(mark) => Ok(mark),
        Err(refused) => Err(MarkFileFault::Refused(refused.fault)),
    }
}

/// A new file of this name, which is empty.
fn new_file<R: Files<File = File>>(files: &R, file: &str) -> Result<FileDisk, MarkFileFault>
    ensures { IfOk result (λ disk. seen_of disk ≡ []) }
{
    match FileDisk::create(files, file) {
        Ok(disk) => Ok(disk),
        Err(error) if error.kind() == ErrorKind::AlreadyExists => Err(MarkFileFault::Exists),
        Err(error) => Err(MarkFileFault::Unopened(error)),
    }
}

/// Makes the file of this mark without its counts. One that could not be filled is taken away again, if the device still can.
fn make<R: Files<File = File>>(files: &R, file: &str, mark: &AnyMark) -> Result<(), MarkFileFault> {
    let disk = new_file(files, file)?;
    match mark.forget_counts(disk) {
        Ok(_) => Ok(()),
        Err(fault) => {
            let _ = fs::remove_file(files, file);
            Err(MarkFileFault::Refused(fault))
        }
    }
}

/// Makes the mark file `new` of the mark in `old`, without its counts, and answers the mark of `old`. The new file is looked at first, and the old
/// one is read before the new one is made. A fault comes with the file that it is of.
fn forget<'a, R: Files<File = File>>(
    files: &R,
    old: &'a str,
    new: &'a str,
) -> Result<AnyMark, RefusalOf<'a>> {
    match fs::exists(files, new) {
        Ok(false) => {}
        Ok(true) => return Err((new, MarkFileFault::Exists)),
        Err(error) => return Err((new, MarkFileFault::Unopened(error))),
    }
    let mark = read_mark_file(files, old).map_err(|refusal| (old, refusal))?;
    match make(files, new, &mark) {
        Ok(()) => Ok(mark),
        Err(refusal) => Err((new, refusal)),
    }
}

/// Tells why a command ended, its fault in a first line and the file and the reason in a second one, and answers the exit status.
fn refuse(rt: &impl Eprint, command: &str, of: &RefusalOf<'_>) -> io::Result<u8> {
    let (file, refusal) = of;
    eprintln!(rt; "{refusal}\npdc {command}: {file}: {}", refusal.reason())?;
    Ok(match refusal {
        MarkFileFault::Exists
        | MarkFileFault::Refused(MarkFault::NoMark | MarkFault::Damaged | MarkFault::OldMark) =>
            REFUSED,
        _ => FAILED,
    })
}

/// Shows the mark in a file, and answers the exit status.
pub fn run_mark_show_command<R: Files<File = File> + Print + Eprint>(
    rt: &R,
    file: &str,
) -> io::Result<u8> {
    match read_mark_file(rt, file) {
        Ok(mark) => {
            println!(rt; "{mark}")?;
            Ok(DONE)
        }
        Err(refusal) => refuse(rt, "mark-show", &(file, refusal)),
    }
}

/// Makes the mark file `new` of the mark in `old`, without its counts. Prints the mark of `old` and what is given up by it, and answers the exit status.
pub fn run_mark_forget_command<R: Files<File = File> + Print + Eprint>(
    rt: &R,
    old: &str,
    new: &str,
) -> io::Result<u8> {
    match forget(rt, old, new) {
        Ok(mark) => {
            println!(rt; "{mark}\n{GIVEN_UP}")?;
            Ok(DONE)
        }
        Err((file, refusal)) => refuse(rt, "mark-forget", &(file, refusal)),
    }
}
