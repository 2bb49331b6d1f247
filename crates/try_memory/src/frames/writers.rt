//! The calls that append to a caller's bytes.

use crate::trial::{State, Trial, make, of_memory, state_of};
use crate::vectors::{BEFORE, CONFIG_11, PAYLOAD, SOC, STREAM, TEXT, WORDS};
use pdc_block::{Block, join};
use pdc_cfg::{Shape, read_config, write_config};
use pdc_frame::{Command, Frame, Kind, read_frame, write_command, write_frame, write_header};
use std::alloc::{AllocError, Global};
use std::io;

/// Which call it is.
#[derive(Clone, Copy)]
enum Writer {
    Frame,
    Config,
    Blocks,
    Command,
    Header,
}

/// All of them.
const WRITERS: [Writer; 5] = [
    Writer::Frame,
    Writer::Config,
    Writer::Blocks,
    Writer::Command,
    Writer::Header,
];

/// Appends a data frame of 26 bytes.
fn frame(out: &mut Vec<u8>) -> Result<(), AllocError> {
    let frame = Frame {
        kind: Kind::DataFrame,
        version: 2,
        id: STREAM,
        soc: SOC,
        quality: 0,
        frac: 20_000,
        payload: &PAYLOAD,
    };
    write_frame(&frame, out)
}

/// Appends the configuration again that was read.
fn config(out: &mut Vec<u8>) -> Result<(), AllocError> {
    let Ok(frame) = read_frame(&CONFIG_11) else {
        return Ok(());
    };
    let Ok(config) = read_config(&frame) else {
        return Ok(());
    };
    write_config(&config, Kind::Cfg2, frame.id, frame.soc, out)
}

/// Appends two blocks of 10 bytes.
fn blocks(out: &mut Vec<u8>) -> Result<(), AllocError> {
    let shape = Shape {
        phasors: 1,
        analogs: 0,
        digitals: 0,
    };
    let block = Block::from_words(shape, &WORDS);
    let same = Block::from_words(shape, &WORDS);
    join(&[block, same], out)
}

/// A writer, and the bytes that it appends to.
#[derive(Drop)]
struct WriterTrial {
    writer: Writer,
    out: Vec<u8>,
}

impl Trial for WriterTrial {
    fn name(&self) -> &'static str {
        match self.writer {
            Writer::Frame => "write_frame",
            Writer::Config => "write_config",
            Writer::Blocks => "join",
            Writer::Command => "write_command",
            Writer::Header => "write_header",
        }
    }

    fn state(&self) -> State {
        state_of(&self.out, 0)
    }

    fn call(&mut self) -> &'static str {
        let out = &mut self.out;
        of_memory(match self.writer {
            Writer::Frame => frame(out),
            Writer::Config => config(out),
            Writer::Blocks => blocks(out),
            Writer::Command => write_command(STREAM, SOC, Command::SendCfg2, out),
            Writer::Header => write_header(STREAM, SOC, &TEXT, out),
        })
    }

    fn renew(&mut self) -> Result<(), AllocError> {
        Ok(())
    }
}

/// Each of them, on three bytes.
pub fn play<R: Print>(rt: &R, alloc: Global) -> io::Result<()> {
    for writer in WRITERS {
        let out = Vec::from_slice(alloc, &BEFORE)?;
        make(rt, &mut WriterTrial { writer, out })?;
    }
    Ok(())
}
