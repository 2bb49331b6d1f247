//! The command: lines in, lines out.

use crate::held::Held;
use crate::line::Line;
use crate::lines::{append_data, print_command, print_config, print_header};
use crate::refusal::NotShown;
use hex::FromHexError;
use pdc_block::BodyFault;
use pdc_cfg::read_config;
use pdc_frame::{Frame, Kind, read_command, read_frame, read_header};
use std::alloc::{AllocError, AllocFailed, Allocator};
use std::io;
use std::io::{ErrorKind, Read, Write};
use thiserror::Error;

/// The most reads of a run.
pub const MAX_READS: u32 = 1_000_000;

/// The most bytes of one read.
const PIECE_LEN: usize = 65536;

/// The bytes of what is printed for which there is room from the beginning.
const FIRST_LEN: usize = 8192;

/// So many bytes are written at once, or more.
const BATCH_LEN: usize = 65536;

/// Whether each line was shown.
#[derive(Clone, Copy, Debug, PartialEq, Eq)]
pub enum Shown {
    /// Each was.
    All,
    /// Some were refused.
    SomeRefused,
}

/// Why a run ended early.
#[derive(Debug, Drop, Error)]
pub enum ShowFault {
    /// The reader failed.
    #[error("the input cannot be read: {0}")]
    Read(io::Error),
    /// The writer failed.
    #[error("the output cannot be written: {0}")]
    Write(io::Error),
    /// The input goes on after the last read.
    #[error("the input goes on after {MAX_READS} reads")]
    TooLong,
    /// No memory was left.
    #[error("out of memory")]
    Memory,
}

impl From<AllocError> for ShowFault {
    fn from(_error: AllocError) -> ShowFault {
        ShowFault::Memory
    }
}

impl<T: Drop> From<AllocFailed<T>> for ShowFault {
    fn from(_error: AllocFailed<T>) -> ShowFault {
        ShowFault::Memory
    }
}

/// What is kept from one line to the next.
#[derive(Drop)]
struct Show<A: Allocator + Copy> {
    alloc: A,
    /// The number of lines before the one that is read now.
    number: u64,
    /// What was read of it.
    line: Line<A>,
    /// The CFG-2 frame that was shown last.
    held: Option<Held>,
    /// What is printed and not written yet.
    out: Vec<u8, A>,
    /// Whether each line was shown.
    shown: Shown,
}

/// Nothing but memory can be wanting where lines are printed.
fn printed(outcome: io::Result<()>) -> Result<(), ShowFault> {
    outcome.map_err(|_| ShowFault::Memory)
}

impl<A: Allocator + Copy> Show<A> {
    fn new(alloc: A) -> Result<Show<A>, AllocError> {
        Ok(Show {
            alloc,
            number: 0,
            line: Line::new(alloc),
            held: None,
            out: Vec::with_capacity(alloc, FIRST_LEN)?,
            shown: Shown::All,
        })
    }

    /// Prints the lines of a data frame.
    fn show_data(&mut self, frame: &Frame) -> Result<(), ShowFault> {
        let refusal = match &self.held {
            Some(held) if held.id.value == frame.id.value => {
                if frame.payload.len() == held.payload_len() {
                    append_data(&mut self.out, frame, held)?;
                    return Ok(());
                }
                NotShown::Body(BodyFault::WrongLength)
            }
            _ => NotShown::NoConfig,
        };
        self.refuse(refusal)
    }

    /// Prints the lines of a configuration, and holds it where it is a CFG-2.
    fn show_config(&mut self, frame: &Frame) -> Result<(), ShowFault> {
        let config = match read_config(frame) {
            Ok(config) => config,
            Err(fault) => return self.refuse(NotShown::Config(fault)),
        };
        let name = if frame.kind == Kind::Cfg2 {
            self.held = Some(Held::new(frame.id, &config));
            "cfg2"
        } else {
            "cfg1"
        };
        printed(print_config(&mut self.out, name, frame.id, &config))
    }

    /// Prints the line of a command frame.
    fn show_command(&mut self, frame: &Frame) -> Result<(), ShowFault> {
        match read_command(frame) {
            Ok(command) => printed(print_command(&mut self.out, frame.id, command)),
            Err(fault) => self.refuse(NotShown::Command(fault)),
        }
    }

    /// Prints the line of a header frame.
    fn show_header(&mut self, frame: &Frame) -> Result<(), ShowFault> {
        match read_header(frame) {
            Ok(text) => printed(print_header(&mut self.out, frame.id, text)),
            Err(fault) => self.refuse(NotShown::Command(fault)),
        }
    }

    /// Prints the lines of the frame that the bytes are.
    fn show_frame(&mut self, bytes: &[u8]) -> Result<(), ShowFault> {
        let frame = match read_frame(bytes) {
            Ok(frame) => frame,
            Err(fault) => return self.refuse(NotShown::Frame(fault)),
        };
        match frame.kind {
            Kind::DataFrame => self.show_data(&frame),
            Kind::HeaderFrame => self.show_header(&frame),
            Kind::CommandFrame => self.show_command(&frame),
            // CFG-3 is refused as no configuration of this profile.
            Kind::Cfg1 | Kind::Cfg2 | Kind::Cfg3 => self.show_config(&frame),
        }
    }

    fn refuse(&mut self, refusal: NotShown) -> Result<(), ShowFault> {
        self.shown = Shown::SomeRefused;
        printed(writeln!(self.out, "{refusal}"))
    }

    /// Says that the line is no hexadecimal.
    fn refuse_line(&mut self) -> Result<(), ShowFault> {
        self.shown = Shown::SomeRefused;
        printed(writeln!(self.out, "line {}: not hex", self.number))
    }

    /// Prints what the line says that was read. Its end is LF, CR LF or the end of the input.
    fn show_line(&mut self) -> Result<(), ShowFault> {
        self.number = self.number.saturating_add(1);
        let decoded = self.line.bytes(self.alloc);
        self.line.clear();
        match decoded {
            Ok(None) => Ok(()),
            Ok(Some(bytes)) => self.show_frame(bytes.as_slice()),
            Err(FromHexError::OutOfMemory) => Err(ShowFault::Memory),
            Err(_) => self.refuse_line(),
        }
    }

    /// Shows the line that was read; where memory runs out, nothing of it.
    fn end_line(&mut self) -> Result<(), ShowFault> {
        let before = self.out.len();
        let shown = self.show_line();
        if shown.is_err() {
            self.out.truncate(before);
        }
        shown
    }

    /// Writes what is printed and not written yet.
    fn write_out<W: Write>(&mut self, writer: &mut W) -> Result<(), ShowFault> {
        let written = writer.write_all(self.out.as_slice());
        self.out.clear();
        written.map_err(ShowFault::Write)
    }

    /// Takes what was read, and prints what each line that it ends says.
    fn take<W: Write>(&mut self, piece: &[u8], writer: &mut W) -> Result<(), ShowFault> {
        let mut is_first = true;
        for part in piece.split(|byte| *byte == b'\n') {
            if !is_first {
                self.end_line()?;
                if self.out.len() >= BATCH_LEN {
                    self.write_out(writer)?;
                }
            }
            is_first = false;
            self.line.take(part)?;
        }
        Ok(())
    }

    /// Takes what was read, and shows each line that it ends: also those before one at which it fails.
    fn feed<W: Write>(&mut self, piece: &[u8], writer: &mut W) -> Result<(), ShowFault> {
        let taken = self.take(piece, writer);
        self.write_out(writer)?;
        taken?;
        writer.flush().map_err(ShowFault::Write)
    }

    /// Shows the last line, which the end of the input ends.
    fn end<W: Write>(&mut self, writer: &mut W) -> Result<Shown, ShowFault> {
        self.line.take_end()?;
        self.end_line()?;
        self.write_out(writer)?;
        writer.flush().map_err(ShowFault::Write)?;
        Ok(self.shown)
    }
}

/// Reads by pieces of at most this many bytes up to the end, and prints what each line says.
fn show_lines<R: Read, W: Write, A: Allocator + Copy>(
    show: &mut Show<A>,
    piece: &mut [u8],
    reader: &mut R,
    writer: &mut W,
) -> Result<Shown, ShowFault> {
    for _ in 0..MAX_READS {
        let len = match reader.read(piece) {
            Ok(len) => len,
            Err(error) if error.kind() == ErrorKind::Interrupted => continue,
            Err(error) => return Err(ShowFault::Read(error)),
        };
        if len == 0 {
            return show.end(writer);
        }
        show.feed(&piece[..len], writer)?;
    }
    Err(ShowFault::TooLong)
}

/// Reads lines of hexadecimal, one frame a line, and prints what each frame says. It holds one line at a time, and no more of
/// it than the longest frame has; it goes on after a line that is refused. What is printed is written in large pieces, and all
/// of it is flushed before each read, so that it can stand behind a live source.
///
/// # Errors
///
/// The first failure of the reader or the writer, an input that goes on after [`MAX_READS`] reads, or want of memory.
pub fn run_show<R: Read, W: Write, A: Allocator + Copy>(
    alloc: A,
    reader: &mut R,
    writer: &mut W,
) -> Result<Shown, ShowFault> {
    let mut show = Show::new(alloc)?;
    let mut piece = vec![in alloc; 0u8; PIECE_LEN]?;
    show_lines(&mut show, piece.as_mut_slice(), reader, writer)
}
