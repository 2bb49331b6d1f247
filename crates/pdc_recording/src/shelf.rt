//! Where the files of a record are.

use std::alloc::Global;
use std::fs::File;
use std::io::{ErrorKind, Read};
use std::rt::Files;
use std::{fs, io};

/// How many bytes of the names of a folder are read at once, and how often at most.
const NAMES: usize = 4096;

const MOST_READS: usize = 65536;

/// Where the files of a record are made, found and removed.
pub trait Shelf {
    /// Makes a new file; one that is there already is an error.
    fn make(&self, path: &str) -> io::Result<File>;

    /// Removes a file.
    fn remove(&self, path: &str) -> io::Result<()>;

    /// The names in a folder, each ended by a byte 0.
    fn names(&self, alloc: Global, folder: &str) -> io::Result<Vec<u8>>;

    /// The first bytes of a file, so many at most; what is no file is an error.
    fn front(&self, alloc: Global, path: &str, most: u64) -> io::Result<Vec<u8>>;
}

/// The files of the system.
impl<R: Files<File = File>> Shelf for R {
    fn make(&self, path: &str) -> io::Result<File> {
        File::create_new(self, path)
    }

    fn remove(&self, path: &str) -> io::Result<()> {
        fs::remove_file(self, path)
    }

    fn names(&self, alloc: Global, folder: &str) -> io::Result<Vec<u8>> {
        let mut names = Vec::new(alloc);
        let mut dir = self.open_dir(folder)?;
        let mut part = [0u8; NAMES];
        for _ in 0..MOST_READS {
            let len = dir.read(&mut part)?;
            if len == 0 {
                return Ok(names);
            }
            names.extend_from_slice(&part[..len])?;
        }
        Err(io::Error::from(ErrorKind::OutOfMemory))
    }

    fn front(&self, alloc: Global, path: &str, most: u64) -> io::Result<Vec<u8>> {
        if !self.symlink_metadata(path)?.is_file() {
            return Err(io::Error::from(ErrorKind::InvalidInput));
        }
        let mut front = Vec::new(alloc);
        File::open(self, path)?.take(most).read_to_end(&mut front)?;
        Ok(front)
    }
}
