//! Frames that scripts call by name: a line is a name and the bytes in hexadecimal.

use crate::Played;
use std::alloc::{AllocError, Global};
use std::rt::Files;
use std::{fs, io};

/// Frames, each with its name.
#[derive(Drop)]
pub struct Frames {
    named: Vec<(String, Vec<u8>)>,
}

impl Frames {
    /// No frames.
    pub fn new(alloc: Global) -> Frames {
        Frames {
            named: Vec::new(alloc),
        }
    }

    /// Adds the frame of a line, where it is one.
    fn read_line(&mut self, alloc: Global, line: &str) -> Result<bool, AllocError> {
        let Some((name, digits)) = line.split_once(' ') else {
            return Ok(false);
        };
        let Ok(bytes) = hex::decode(alloc, digits) else {
            return Ok(false);
        };
        self.named.push((name.to_string(alloc)?, bytes))?;
        Ok(true)
    }

    /// Adds the frames of the lines of this file, and tells whether each line was one, but for empty lines and those that begin
    /// with `#`.
    ///
    /// # Errors
    ///
    /// A file that cannot be read, or want of memory.
    pub fn read(
        &mut self,
        rt: &(impl Files + AllocGlobal),
        alloc: Global,
        file: &str,
    ) -> io::Result<Played> {
        let text = fs::read_to_string(rt, file)?;
        let mut all_read = true;
        for line in text.lines() {
            if !line.is_empty() && !line.starts_with('#') && !self.read_line(alloc, line)? {
                all_read = false;
            }
        }
        Ok(Played::of(all_read))
    }

    /// The bytes of the frame of this name.
    pub fn named(&self, name: &str) -> Option<&[u8]> {
        for (own, bytes) in &self.named {
            if own.as_str() == name {
                return Some(bytes);
            }
        }
        None
    }
}
