//! The lines of one frame.
ghost use Rattle.std.specs.Prelude.{◌≡◌, ◌≤◌, length, sum_by};
ghost use Rattle.pdc_block.specs.Block.{body_len_of};
ghost use Rattle.pdc_cfg.specs.Shape.{word_count_of};
ghost use Rattle.pdc_show.specs.declared.held.HeldSection.{HeldSection as HeldSectionData};

use crate::held::{Held, HeldSection};
use crate::text::{
    append_count, append_hex_byte, append_hex_word, append_phasor, append_signed, append_word,
};
use pdc_block::Body;
use pdc_cfg::ConfigView;
use pdc_frame::{Command, Frame, StreamId};
use std::alloc::{AllocError, Allocator};
use std::io;
use std::io::Write;

/// Appends the words of a block from one place up to another, joined by commas, in brackets.
fn append_signed_words<A: Allocator>(
    out: &mut Vec<u8, A>,
    body: &Body,
    from: usize,
    to: usize,
) -> Result<(), AllocError>
    requires { to ≤ word_count_of body.now.shape }
{
    let mut before = b'[';
    for place in from..to {
        append_signed(out, before, body.word(place))?;
        before = b',';
    }
    out.extend_from_slice(if from < to { b"]" } else { b"[]" })
}

/// Appends the words of a block from one place up to another in hexadecimal, joined by commas, in brackets.
fn append_hex_words<A: Allocator>(
    out: &mut Vec<u8, A>,
    body: &Body,
    from: usize,
    to: usize,
) -> Result<(), AllocError>
    requires { to ≤ word_count_of body.now.shape }
{
    let mut before = b'[';
    for place in from..to {
        append_hex_word(out, before, body.word(place))?;
        before = b',';
    }
    out.extend_from_slice(if from < to { b"]" } else { b"[]" })
}

/// Appends the phasors of a block joined by semicolons, in brackets: `re,im`, or `magnitude@angle` where they are polar.
fn append_phasors<A: Allocator>(
    out: &mut Vec<u8, A>,
    body: &Body,
    polar: bool,
) -> Result<(), AllocError> {
    let mut before = b'[';
    for k in 0..usize::from(body.shape.phasors) {
        let (first, second) = (body.word(1 + 2 * k), body.word(2 + 2 * k));
        append_phasor(out, before, first, second, polar)?;
        before = b';';
    }
    out.extend_from_slice(if body.shape.phasors > 0 { b"]" } else { b"[]" })
}

/// Appends the line of one PMU's block.
fn append_block<A: Allocator>(
    out: &mut Vec<u8, A>,
    section: &HeldSection,
    body: &Body,
) -> Result<(), AllocError> {
    let freq = 1 + 2 * usize::from(body.shape.phasors);
    let analogs = freq + 2;
    let digitals = analogs + usize::from(body.shape.analogs);
    let end = digitals + usize::from(body.shape.digitals);
    out.extend_from_slice(b"pmu")?;
    append_word(out, b' ', section.source)?;
    out.extend_from_slice(b" stat")?;
    append_hex_word(out, b'=', body.word(0))?;
    out.extend_from_slice(b" phasors=")?;
    append_phasors(out, body, section.polar)?;
    out.extend_from_slice(b" freq")?;
    append_signed(out, b'=', body.word(freq))?;
    out.extend_from_slice(b" dfreq")?;
    append_signed(out, b'=', body.word(freq + 1))?;
    out.extend_from_slice(b" analogs=")?;
    append_signed_words(out, body, analogs, digitals)?;
    out.extend_from_slice(b" digitals=")?;
    append_hex_words(out, body, digitals, end)?;
    out.extend_from_slice(b"\n")
}

/// Appends a line for each block of a payload, which has one for each section.
fn append_blocks<A: Allocator>(
    out: &mut Vec<u8, A>,
    sections: &[HeldSection],
    payload: &[u8],
) -> Result<(), AllocError>
    requires { length payload.now
        ≡ sum_by (λ (section : HeldSectionData). body_len_of section.shape) sections.now }
{
    let mut place = 0;
    for section in sections {
        let end = place + 2 * section.shape.word_count();
        let body = Body {
            shape: section.shape,
            bytes: &payload[place..end],
        };
        append_block(out, section, &body)?;
        place = end;
    }
    Ok(())
}

/// Appends the line of a data frame's fields.
fn append_fields<A: Allocator>(
    out: &mut Vec<u8, A>,
    frame: &Frame,
    instant: Option<u64>,
) -> Result<(), AllocError> {
    out.extend_from_slice(b"data id")?;
    append_word(out, b'=', frame.id.value)?;
    out.extend_from_slice(b" soc=")?;
    append_count(out, u64::from(frame.soc))?;
    out.extend_from_slice(b" frac=")?;
    append_count(out, u64::from(frame.frac))?;
    out.extend_from_slice(b" quality")?;
    append_hex_byte(out, b'=', frame.quality)?;
    match instant {
        Some(instant) => {
            out.extend_from_slice(b" instant=")?;
            append_count(out, instant)?;
        }
        None => out.extend_from_slice(b" instant=none")?,
    }
    out.extend_from_slice(b"\n")
}

/// Appends the lines of a data frame: its fields, and a line for each block.
///
/// # Errors
///
/// [`AllocError`] where there is no room and none is got.
pub fn append_data<A: Allocator>(
    out: &mut Vec<u8, A>,
    frame: &Frame,
    held: &Held,
) -> Result<(), AllocError>
    requires { length frame.now.payload.now
        ≡ sum_by (λ (section : HeldSectionData). body_len_of section.shape) held.now.sections.items }
{
    append_fields(out, frame, held.instant(frame))?;
    append_blocks(out, held.sections.as_slice(), frame.payload)
}

/// The line of a header frame.
///
/// # Errors
///
/// What the writer answers.
pub fn print_header<W: Write>(writer: &mut W, id: StreamId, text: &[u8]) -> io::Result<()> {
    writeln!(writer, "header id={} bytes={}", id.value, text.len())
}

/// The line of a command frame.
///
/// # Errors
///
/// What the writer answers.
pub fn print_command<W: Write>(writer: &mut W, id: StreamId, command: Command) -> io::Result<()> {
    writeln!(writer, "command id={} cmd={}", id.value, command as u16)
}

/// The lines of a configuration: its fields, and a line for each section.
///
/// # Errors
///
/// What the writer answers.
pub fn print_config<W: Write>(
    writer: &mut W,
    name: &str,
    id: StreamId,
    config: &ConfigView,
) -> io::Result<()> {
    let (id, count) = (id.value, config.sections.len());
    let (time_base, rate) = (config.time_base, config.rate);
    writeln!(
        writer,
        "{name} id={id} time_base={time_base} rate={rate} pmus={count}"
    )?;
    for section in config.sections.as_slice() {
        let (source, count, shape) = (section.source, section.count, section.shape);
        let (phasors, analogs, digitals) = (shape.phasors, shape.analogs, shape.digitals);
        let form = if section.polar {
            "polar"
        } else {
            "rectangular"
        };
        write!(writer, "pmu {source} count={count} phasors={phasors}")?;
        writeln!(writer, " analogs={analogs} digitals={digitals} {form}")?;
    }
    Ok(())
}
