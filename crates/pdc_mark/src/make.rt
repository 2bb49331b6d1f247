//! A new mark file.

use crate::disk_mark::DiskMark;
use pdc_disk::FileDisk;
use std::fs::File;
use std::io::ErrorKind;
use std::rt::Files;
use std::{fs, io};
use thiserror::Error;

/// Why a mark file was not made.
#[derive(Debug, Drop, Error)]
pub enum MarkInitFault {
    /// There is a file of this name, which is left as it is.
    #[error("mark exists")]
    Exists,
    /// No file of this name can be made.
    #[error("device fault")]
    NotMade(io::Error),
    /// The device failed while the mark was written. The file is taken away again, if the device still can.
    #[error("device fault")]
    NotWritten,
}

/// Makes a mark file of this id and rate (in frames a second), for a concentrator that has never started.
///
/// # Errors
///
/// The file exists, or the device failed.
pub fn make_mark<R: Files<File = File>>(
    files: &R,
    file: &str,
    id: u16,
    rate: u16,
) -> Result<(), MarkInitFault> {
    let disk = match FileDisk::create(files, file) {
        Ok(disk) => disk,
        Err(error) if error.kind() == ErrorKind::AlreadyExists => {
            return Err(MarkInitFault::Exists);
        }
        Err(error) => return Err(MarkInitFault::NotMade(error)),
    };
    if DiskMark::init(disk, id, rate).is_err() {
        let _ = fs::remove_file(files, file);
        return Err(MarkInitFault::NotWritten);
    }
    Ok(())
}
