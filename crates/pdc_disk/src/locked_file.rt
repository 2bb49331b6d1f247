//! A file that nobody else has.

use std::fs::File;
use std::io;

/// A file whose exclusive lock this handle took, and holds for as long as it lives. Whoever else asks for the lock meanwhile, in this
/// process or another, is refused. The system lets it go with the process, however that ends.
#[derive(Drop)]
pub struct LockedFile {
    file: File,
}

impl LockedFile {
    /// Takes the lock, and does not wait for it.
    ///
    /// # Errors
    ///
    /// `WouldBlock` where somebody else holds it; else the system can't lock it.
    pub fn new(file: File) -> io::Result<LockedFile> {
        file.try_lock()?;
        Ok(LockedFile { file })
    }

    /// The file.
    pub fn file(&self) -> &File {
        &self.file
    }
}
