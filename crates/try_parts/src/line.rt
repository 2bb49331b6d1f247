//! A reader and writer over memory that can be told to fail.

use std::alloc::Global;
use std::io;
use std::io::{ErrorKind, Read, Write};

/// What a client reads from and writes to.
#[derive(Drop)]
pub struct Line {
    /// What reads give, in order, and nothing behind it.
    pub input: Vec<u8>,
    /// How many bytes of it were read.
    pub at: usize,
    /// The most bytes that one read gives.
    pub piece: usize,
    /// How many reads are interrupted before the first that is not.
    pub interruptions: u32,
    /// How many reads come before one that fails; none fails where it is `None`.
    pub reads_left: Option<u32>,
    /// Whether writes fail.
    pub is_closed: bool,
    /// What was written.
    pub written: Vec<u8>,
}

impl Line {
    /// With nothing to read.
    pub fn new(alloc: Global) -> Line {
        Line {
            input: Vec::new(alloc),
            at: 0,
            piece: usize::MAX,
            interruptions: 0,
            reads_left: None,
            is_closed: false,
            written: Vec::new(alloc),
        }
    }
}

impl Read for Line {
    fn read(&mut self, buf: &mut [u8]) -> io::Result<usize> {
        if self.interruptions > 0 {
            self.interruptions -= 1;
            return Err(io::Error::from(ErrorKind::Interrupted));
        }
        match self.reads_left {
            Some(0) => return Err(io::Error::from(ErrorKind::ConnectionReset)),
            Some(left) => self.reads_left = Some(left - 1),
            None => {}
        }
        let rest = self.input.as_slice().get(self.at..).unwrap_or(&[]);
        let count = rest.len().min(buf.len()).min(self.piece);
        buf[..count].copy_from_slice(&rest[..count]);
        self.at = self.at.saturating_add(count);
        Ok(count)
    }
}

impl Write for Line {
    fn write(&mut self, buf: &[u8]) -> io::Result<usize> {
        if self.is_closed {
            return Err(io::Error::from(ErrorKind::BrokenPipe));
        }
        self.written.extend_from_slice(buf)?;
        Ok(buf.len())
    }

    fn flush(&mut self) -> io::Result<()> {
        Ok(())
    }
}
