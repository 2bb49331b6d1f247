//! `pdc show` over readers and writers that fail, and over lines that are longer than any frame.

use super::same::is;
use pdc_show::{ShowFault, Shown, run_show};
use std::alloc::{AllocError, Global};
use std::io;
use std::io::{ErrorKind, Read, Write};
use std::process::Abort;
use std::test::Fail;

/// CFG-2 of PMU 11: count 1, one phasor, `TIME_BASE` 1000000, 50 frames a second.
const CONFIG_11: &str =
    "AA32004A000B448527F000000000000F42400001504D5520313120202020202020202020000B000000010000000056412020202020202020202020202020000DF847000100010032C2CE";

/// Its lines.
const CONFIG_11_LINES: &str = "cfg2 id=11 time_base=1000000 rate=50 pmus=1
pmu 11 count=1 phasors=1 analogs=0 digitals=0 rectangular
";

/// Gives its bytes one at a time, is interrupted once, and then fails.
#[derive(Drop)]
struct FailsAfter<'a> {
    bytes: &'a [u8],
    interrupted: bool,
}

impl Read for FailsAfter<'_> {
    fn read(&mut self, buf: &mut [u8]) -> io::Result<usize> {
        match self.bytes {
            [first, rest @ ..] if !buf.is_empty() => {
                buf[0] = *first;
                self.bytes = rest;
                Ok(1)
            }
            _ if !self.interrupted => {
                self.interrupted = true;
                Err(io::Error::new(ErrorKind::Interrupted, "a signal"))
            }
            _ => Err(io::Error::other("pulled out")),
        }
    }
}

/// Gives one space at each read, without end. It counts its reads.
#[derive(Drop)]
struct Endless {
    reads: u32,
}

impl Read for Endless {
    fn read(&mut self, buf: &mut [u8]) -> io::Result<usize> {
        self.reads = self.reads.saturating_add(1);
        if buf.is_empty() {
            return Ok(0);
        }
        buf[0] = b' ';
        Ok(1)
    }
}

/// Takes this many bytes, and then fails. It counts how often it was flushed.
#[derive(Drop)]
struct Full {
    room: usize,
    flushes: u32,
}

impl Write for Full {
    fn write(&mut self, buf: &[u8]) -> io::Result<usize> {
        let taken = self.room.min(buf.len());
        if taken == 0 {
            return Err(io::Error::other("full"));
        }
        self.room -= taken;
        Ok(taken)
    }

    fn flush(&mut self) -> io::Result<()> {
        self.flushes = self.flushes.saturating_add(1);
        Ok(())
    }
}

/// What was whole before the reader failed is printed.
#[test]
fn a_reader_that_fails(rt: HostRuntime) {
    let alloc = rt.alloc();
    let mut input = String::from_str(alloc, CONFIG_11).expect(&rt, "memory");
    input.push_str("\nAA02").expect(&rt, "memory");
    let mut reader = FailsAfter {
        bytes: input.as_bytes(),
        interrupted: false,
    };
    let mut printed = Vec::new(alloc);
    let outcome = run_show(alloc, &mut reader, &mut printed);
    is!(&rt; printed.as_slice(), CONFIG_11_LINES.as_bytes());
    is!(&rt; matches!(outcome, Err(ShowFault::Read(_))), true);
}

#[test]
fn an_input_without_end(rt: HostRuntime) -> Result<(), Fail> {
    let mut printed = Vec::new(rt.alloc());
    let mut reader = Endless { reads: 0 };
    let outcome = run_show(rt.alloc(), &mut reader, &mut printed);
    is!(&rt; matches!(outcome, Err(ShowFault::TooLong)), true);
    is!(&rt; reader.reads, 1_000_000);
    is!(&rt; printed.len(), 0);
    Ok(())
}

/// Whether the run over this input fails at a writer with room for so many bytes.
fn fails_with_room(alloc: Global, input: &str, room: usize) -> bool {
    let mut reader = input.as_bytes();
    let mut writer = Full { room, flushes: 0 };
    matches!(
        run_show(alloc, &mut reader, &mut writer),
        Err(ShowFault::Write(_))
    )
}

/// A failed write ends the run wherever it comes.
#[test]
fn a_writer_that_fails(rt: HostRuntime) {
    let mut input = String::from_str(rt.alloc(), CONFIG_11).expect(&rt, "memory");
    input.push_str("\nxx\nAA\n").expect(&rt, "memory");
    let lines = 44 + 58 + 16 + 9;
    for room in 0..lines {
        is!(&rt; fails_with_room(rt.alloc(), &input, room), true);
    }
    is!(&rt; fails_with_room(rt.alloc(), &input, lines), false);
}

/// What was printed is flushed before each read: this reader gives a byte a read.
#[test]
fn flushed_before_each_read(rt: HostRuntime) -> Result<(), Fail> {
    let mut reader = FailsAfter {
        bytes: b"AA\nAA\n",
        interrupted: true,
    };
    let mut writer = Full {
        room: 100,
        flushes: 0,
    };
    let outcome = run_show(rt.alloc(), &mut reader, &mut writer);
    is!(&rt; matches!(outcome, Err(ShowFault::Read(_))), true);
    is!(&rt; writer.flushes, 6);
    Ok(())
}

/// A head, so many bytes 00 and an end.
fn long_line(alloc: Global, head: &str, zeros: usize, end: &str) -> Result<Vec<u8>, AllocError> {
    let mut line = Vec::from_slice(alloc, head.as_bytes())?;
    line.resize(line.len().saturating_add(zeros.saturating_mul(2)), b'0')?;
    line.extend_from_slice(end.as_bytes())?;
    Ok(line)
}

/// The line is refused so.
fn is_refused(rt: &impl Abort, alloc: Global, line: &[u8], wanted: &str) {
    let mut reader = line;
    let mut printed = Vec::new(alloc);
    let outcome = run_show(alloc, &mut reader, &mut printed);
    is!(rt; matches!(outcome, Ok(Shown::SomeRefused)), true);
    is!(rt; printed.as_slice(), wanted.as_bytes());
}

/// The longest frame has 131070 digits. A line that is longer is refused for what all of its digits would be refused for.
#[test]
fn lines_as_long_as_the_longest_frame_and_longer(rt: HostRuntime) {
    let alloc = rt.alloc();
    let cases = [
        ("AA42FFFF", 65_531, "\n", "F4 BadCheck\n"),
        ("AA42FFFF", 65_532, "\n", "F3 SizeMismatch\n"),
        ("AA42FFFF", 90_000, "\r\n", "F3 SizeMismatch\n"),
        ("AB42FFFF", 90_000, "\n", "F2 BadSync\n"),
        ("AA42FFFF", 90_000, "0\n", "line 1: not hex\n"),
        ("AA42FFFF", 90_000, "0G\n", "line 1: not hex\n"),
        ("AA42FFFG", 90_000, "\n", "line 1: not hex\n"),
        ("AA42FFFF", 90_000, "\r0\n", "line 1: not hex\n"),
    ];
    for (head, zeros, end, wanted) in cases {
        let line = long_line(alloc, head, zeros, end).expect(&rt, "memory");
        is_refused(&rt, alloc, &line, wanted);
    }
}
