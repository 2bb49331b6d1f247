//! What a client reads from and writes to.

use crate::vectors::{CONFIG_11, PAYLOAD, SOC, STREAM, TEXT};
use arrayvec::ArrayVec;
use pdc_frame::{Buffer, Frame, Kind, write_frame, write_header};
use std::alloc::AllocError;
use std::io;
use std::io::{Read, Write};

/// The room for what it gives.
const ROOM: usize = 128;

/// Gives a configuration, a header and data of stream 11, once, and takes all that is written. It takes no memory.
#[derive(Drop)]
pub struct Line {
    input: ArrayVec<u8, ROOM>,
    at: usize,
}

/// Appends them.
fn append(input: &mut ArrayVec<u8, ROOM>) -> Result<(), AllocError> {
    input.make_room(CONFIG_11.len())?;
    input.append_bytes(&CONFIG_11);
    write_header(STREAM, SOC, &TEXT, input)?;
    let data = Frame {
        kind: Kind::DataFrame,
        version: 2,
        id: STREAM,
        soc: SOC,
        quality: 0,
        frac: 20_000,
        payload: &PAYLOAD,
    };
    write_frame(&data, input)
}

impl Line {
    /// From its first byte on.
    pub fn new() -> Line {
        let mut input = ArrayVec::new();
        let _ = append(&mut input);
        Line { input, at: 0 }
    }
}

impl Read for Line {
    fn read(&mut self, buf: &mut [u8]) -> io::Result<usize> {
        let rest = self.input.as_slice().get(self.at..).unwrap_or(&[]);
        let count = rest.len().min(buf.len());
        buf[..count].copy_from_slice(&rest[..count]);
        self.at = self.at.saturating_add(count);
        Ok(count)
    }
}

impl Write for Line {
    fn write(&mut self, buf: &[u8]) -> io::Result<usize> {
        Ok(buf.len())
    }

    fn flush(&mut self) -> io::Result<()> {
        Ok(())
    }
}
