//! The command: lines in, objects or rows out.

use crate::exporter::{Exported, Exporter, Format};
use crate::fault::ExportFault;
use crate::objects::append_refusal;
use hex::FromHexError;
use memchr::memchr;
use pdc_show::{Line, Shown};
use std::alloc::{AllocError, Global};
use std::io::{ErrorKind, Read, Write};

/// The most reads of a run: at a thousand a second they last for thirty thousand years.
pub const MAX_READS: u64 = 1_000_000_000_000_000;

/// The most bytes of one read.
const PIECE_LEN: usize = 65536;

/// So many bytes are written at once, or more.
const BATCH_LEN: usize = 65536;

/// What is kept from one line to the next.
#[derive(Drop)]
struct Export {
    alloc: Global,
    /// The number of lines before the one that is read now.
    number: u64,
    /// What was read of it.
    line: Line,
    exporter: Exporter,
    /// What is not written yet.
    out: Vec<u8>,
    /// Whether each line was shown.
    shown: Shown,
}

impl Export {
    fn new(alloc: Global, format: Format) -> Result<Export, AllocError> {
        Ok(Export {
            alloc,
            number: 0,
            line: Line::new(alloc),
            exporter: Exporter::new(alloc, format)?,
            out: Vec::new(alloc),
            shown: Shown::All,
        })
    }

    /// Tells of a line that is refused: by an object, or beside a table.
    fn refuse<R: Eprint>(&mut self, rt: &R, refusal: &str) -> Result<(), ExportFault> {
        self.shown = Shown::SomeRefused;
        let number = self.number;
        match self.exporter.format() {
            Format::Json => {
                append_refusal(self.alloc, number, refusal, &mut self.out)?;
                Ok(())
            }
            Format::Csv => {
                eprintln!(rt; "pdc show: line {number}: {refusal}").map_err(ExportFault::Note)
            }
        }
    }

    /// Writes the frame that the bytes are, or tells why it is refused.
    fn write_frame<R: Eprint>(&mut self, rt: &R, bytes: &[u8]) -> Result<(), ExportFault> {
        match self.exporter.export(bytes, &mut self.out)? {
            Exported::Written { .. } => Ok(()),
            Exported::LacksColumns => self.refuse(
                rt,
                "a channel of this configuration has no column, and is left out",
            ),
            Exported::Refused(refusal) => {
                let text = format!(in self.alloc; "{refusal}")?;
                self.refuse(rt, text.as_str())
            }
        }
    }

    /// Writes the line that was read. Its end is LF, CR LF or the end of the input.
    fn end_line<R: Eprint>(&mut self, rt: &R) -> Result<(), ExportFault> {
        self.number = self.number.saturating_add(1);
        let decoded = self.line.bytes(self.alloc);
        self.line.clear();
        match decoded {
            Ok(None) => Ok(()),
            Ok(Some(bytes)) => self.write_frame(rt, bytes.as_slice()),
            Err(FromHexError::OutOfMemory) => Err(ExportFault::Memory),
            Err(_) => self.refuse(rt, "not hex"),
        }
    }

    /// Writes out what is not written yet.
    fn write_out<W: Write>(&mut self, writer: &mut W) -> Result<(), ExportFault> {
        writer
            .write_all(self.out.as_slice())
            .map_err(ExportFault::Write)?;
        self.out.clear();
        Ok(())
    }

    /// Takes what was read, and writes each line that it ends.
    fn feed<R: Eprint, W: Write>(
        &mut self,
        rt: &R,
        piece: &[u8],
        writer: &mut W,
    ) -> Result<(), ExportFault> {
        let mut rest = piece;
        while let Some(len) = memchr(b'\n', rest) {
            self.line.take(&rest[..len])?;
            self.end_line(rt)?;
            if self.out.len() >= BATCH_LEN {
                self.write_out(writer)?;
            }
            rest = &rest[len + 1..];
        }
        self.line.take(rest)?;
        self.write_out(writer)?;
        writer.flush().map_err(ExportFault::Write)
    }

    /// Writes the last line, which the end of the input ends.
    fn end<R: Eprint, W: Write>(&mut self, rt: &R, writer: &mut W) -> Result<Shown, ExportFault> {
        self.line.take_end()?;
        self.end_line(rt)?;
        self.write_out(writer)?;
        writer.flush().map_err(ExportFault::Write)?;
        Ok(self.shown)
    }
}

/// Reads by pieces of at most this many bytes up to the end, and writes what each line says.
fn export_lines<E: Eprint, R: Read, W: Write>(
    rt: &E,
    export: &mut Export,
    piece: &mut [u8],
    reader: &mut R,
    writer: &mut W,
) -> Result<Shown, ExportFault> {
    for _ in 0..MAX_READS {
        let len = match reader.read(piece) {
            Ok(len) => len,
            Err(error) if error.kind() == ErrorKind::Interrupted => continue,
            Err(error) => return Err(ExportFault::Read(error)),
        };
        if len == 0 {
            return export.end(rt, writer);
        }
        export.feed(rt, &piece[..len], writer)?;
    }
    Err(ExportFault::TooLong)
}

/// Reads lines of hexadecimal, one frame a line, and writes what each frame says as JSON or CSV. It holds one line at a time, and goes on after a
/// line that is refused. What was written is flushed before each read, so that it can stand behind a live source. Of a line that gives no
/// row it tells on standard error.
///
/// # Errors
///
/// The first failure of the reader, the writer or standard error, an input that goes on after [`MAX_READS`] reads, or want of memory.
pub fn run_export<E: Eprint, R: Read, W: Write>(
    rt: &E,
    alloc: Global,
    format: Format,
    reader: &mut R,
    writer: &mut W,
) -> Result<Shown, ExportFault> {
    let mut export = Export::new(alloc, format)?;
    let mut piece = vec![in alloc; 0u8; PIECE_LEN].map_err(|_| ExportFault::Memory)?;
    export_lines(rt, &mut export, piece.as_mut_slice(), reader, writer)
}
