//! A mark file of version 2 out of one of version 1.
ghost use Rattle.std.specs.Prelude.{◌≡◌, [], IfOk};
ghost use Rattle.pdc_disk.specs.FileDisk.{seen_of};

use crate::fault::MarkFault;
use crate::version_1::OldMark;
use pdc_disk::FileDisk;
use std::fs::File;
use std::io::ErrorKind;
use std::rt::Files;
use std::{fs, io};
use thiserror::Error;

/// Why a mark file was not converted. Where a file was made that could not be filled, it is taken away again, if the
/// device still can.
#[derive(Debug, Drop, Error)]
pub enum MarkConvertFault {
    /// There is a file of the new name, which is left as it is.
    #[error("mark exists")]
    Exists,
    /// The old file can't be opened.
    #[error("device fault")]
    NotRead(io::Error),
    /// The new file can't be looked for or made.
    #[error("device fault")]
    NotMade(io::Error),
    /// The old file is no mark of version 1, or a device failed.
    #[error("{0}")]
    Refused(MarkFault),
}

/// A new file of this name, which is empty.
fn new_file<R: Files<File = File>>(files: &R, name: &str) -> Result<FileDisk, MarkConvertFault>
    ensures { IfOk result (λ disk. seen_of disk ≡ []) }
{
    match FileDisk::create(files, name) {
        Ok(disk) => Ok(disk),
        Err(error) if error.kind() == ErrorKind::AlreadyExists => Err(MarkConvertFault::Exists),
        Err(error) => Err(MarkConvertFault::NotMade(error)),
    }
}

/// Converts the mark file `old` to `new`, and returns its start number and floor. The new file is looked at first, and the
/// old one is read before the new one is made.
///
/// # Errors
///
/// The first whose cause holds: the new file exists, the old one can't be read, it is no mark of version 1, the new one
/// can't be made or written.
pub fn convert_mark<R: Files<File = File>>(
    files: &R,
    old: &str,
    new: &str,
) -> Result<(u32, u64), MarkConvertFault> {
    if fs::exists(files, new).map_err(MarkConvertFault::NotMade)? {
        return Err(MarkConvertFault::Exists);
    }
    let mut old_disk = FileDisk::open(files, old).map_err(MarkConvertFault::NotRead)?;
    let mark = OldMark::read(&mut old_disk).map_err(MarkConvertFault::Refused)?;
    let mut new_disk = new_file(files, new)?;
    if mark.write(&mut new_disk).is_err() {
        let _ = fs::remove_file(files, new);
        return Err(MarkConvertFault::Refused(MarkFault::Device));
    }
    Ok(mark.stored())
}
