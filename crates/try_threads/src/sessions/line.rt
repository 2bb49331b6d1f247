//! A connection in memory.

use std::alloc::Global;
use std::io;
use std::io::{ErrorKind, Read, Write};

/// A consumer's end, played by a trial: what it sends next, and what was written to it.
#[derive(Drop)]
pub struct Line {
    /// What the next read gives; nothing came yet where it is empty.
    pub input: Vec<u8>,
    /// Whether the consumer has closed its end.
    pub is_ended: bool,
    /// Whether writes fail.
    pub is_closed: bool,
    /// What was written since the last look.
    pub written: Vec<u8>,
}

impl Line {
    /// Nothing was sent yet.
    pub fn new(alloc: Global) -> Line {
        Line {
            input: Vec::new(alloc),
            is_ended: false,
            is_closed: false,
            written: Vec::new(alloc),
        }
    }
}

impl Read for Line {
    fn read(&mut self, buf: &mut [u8]) -> io::Result<usize> {
        if self.is_ended {
            return Ok(0);
        }
        if self.input.is_empty() {
            return Err(io::Error::from(ErrorKind::WouldBlock));
        }
        let count = self.input.len().min(buf.len());
        buf[..count].copy_from_slice(&self.input[..count]);
        self.input.clear();
        Ok(count)
    }
}

impl Write for Line {
    fn write(&mut self, buf: &[u8]) -> io::Result<usize> {
        if self.is_closed {
            return Err(io::Error::from(ErrorKind::BrokenPipe));
        }
        self.written.extend_from_slice(buf)?;
        Ok(buf.len())
    }

    fn flush(&mut self) -> io::Result<()> {
        Ok(())
    }
}
