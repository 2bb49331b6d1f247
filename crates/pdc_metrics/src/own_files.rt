//! What the system says of a program, in files of `/proc`.

use std::fs::File;
use std::rt::Files;
use std::{fs, io};

/// Where what the system says of this program is read.
pub trait OwnFiles {
    /// All bytes of a file.
    fn read(&self, path: &str) -> io::Result<Vec<u8>>;
}

/// The files of the system.
impl<R: Files<File = File> + AllocGlobal> OwnFiles for R {
    fn read(&self, path: &str) -> io::Result<Vec<u8>> {
        fs::read(self, path)
    }
}

/// The text of a file; none where it cannot be read, or is no text.
pub fn text_of<R: OwnFiles>(rt: &R, path: &str) -> Option<String> {
    match rt.read(path) {
        Ok(bytes) => String::from_utf8(bytes).ok(),
        Err(_) => None,
    }
}
