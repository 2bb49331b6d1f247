//! What a client reads from and writes to.

use crate::tests::vectors::DATA_11;
use std::io;
use std::io::{Read, Write};

/// Gives the data frame of PMU 11 once, and takes all that is written.
#[derive(Drop, Default)]
pub struct Line {
    at: usize,
}

impl Read for Line {
    fn read(&mut self, buf: &mut [u8]) -> io::Result<usize> {
        let rest = DATA_11.get(self.at..).unwrap_or(&[]);
        let count = rest.len().min(buf.len());
        buf[..count].copy_from_slice(&rest[..count]);
        self.at = self.at.saturating_add(count);
        Ok(count)
    }
}

impl Write for Line {
    fn write(&mut self, buf: &[u8]) -> io::Result<usize> {
        Ok(buf.len())
    }

    fn flush(&mut self) -> io::Result<()> {
        Ok(())
    }
}
