//! What is printed of replies and faults, a line each. Nothing asks for memory.
ghost use Rattle.std.specs.Prelude.{◌≡◌, ◌++◌, [], OnOk, codes};
ghost use Rattle.std.specs.Io.KnownBytes.{Appends};
ghost use Rattle.pdc_history.specs.declared.reply.Reply.TheVariants as told;
ghost use Rattle.pdc_play.specs.Printed as printed;

use crate::hexadecimal::write_upper;
use crate::texts::{name_text, premise_text};
use pdc_align::Ticked;
use pdc_history::{Fault, Published, Reply, Who};
use pdc_life::Outcome;
use std::io;
use std::io::Write;

/// What came of bytes that came to a core.
fn came_text(outcome: Option<Outcome>) -> &'static str
    ensures { result.now ≡ printed.came outcome }
{
    match outcome {
        None => "none",
        Some(outcome) => outcome.text(),
    }
}

/// Writes what a tick did.
fn write_ticked<W: Write>(ticked: Ticked, writer: &mut W) -> io::Result<()>
    ensures { OnOk result (Appends (W.contents writer.old) (W.contents writer.new)
        (printed.ticked_of ticked)) }
{
    let used_up = if ticked.used_up { " used_up" } else { "" };
    match ticked.change {
        None => write!(writer, "closed={} change=none{used_up}", ticked.closed),
        Some(change) => write!(writer, "closed={} change={change}{used_up}", ticked.closed),
    }
}

/// Writes the row that was published.
fn write_row<W: Write>(row: Option<Published>, frame: &[u8], writer: &mut W) -> io::Result<()>
    ensures { OnOk result (Appends (W.contents writer.old) (W.contents writer.new)
        (printed.row_of row frame.now)) }
{
    let Some(row) = row else {
        return write!(writer, "none");
    };
    write!(writer, "{} ", row.instant)?;
    write_upper(frame, writer)
}

/// Writes the name of a core, and a space.
fn write_name<W: Write>(who: Who, writer: &mut W) -> io::Result<()>
    ensures { OnOk result (Appends (W.contents writer.old) (W.contents writer.new)
        (printed.name_of who ++ codes " ")) }
{
    write!(writer, "{} ", name_text(who))
}

/// Writes the line of a tick.
fn write_tick<W: Write>(who: Who, ticked: Ticked, writer: &mut W) -> io::Result<()>
    ensures { OnOk result (Appends (W.contents writer.old) (W.contents writer.new)
        (printed.line_of (told.Ticked who ticked) [])) }
{
    write_name(who, writer)?;
    write_ticked(ticked, writer)?;
    write!(writer, "\n")
}

/// Writes the line of a publish.
fn write_published<W: Write>(
    who: Who,
    row: Option<Published>,
    frame: &[u8],
    writer: &mut W,
) -> io::Result<()>
    ensures { OnOk result (Appends (W.contents writer.old) (W.contents writer.new)
        (printed.line_of (told.Published who row) frame.now)) }
{
    write_name(who, writer)?;
    write_row(row, frame, writer)?;
    write!(writer, "\n")
}

/// Writes the line of a reply, with LF; `frame` is the frame that was published.
///
/// # Errors
///
/// What the writer answers.
pub fn write_reply<W: Write>(reply: &Reply, frame: &[u8], writer: &mut W) -> io::Result<()>
    ensures { OnOk result (Appends (W.contents writer.old) (W.contents writer.new)
        (printed.line_of reply.now frame.now)) }
{
    match *reply {
        Reply::Sent { number } => write!(writer, "sent {number}\n"),
        Reply::Came { who, outcome } => {
            write!(writer, "{} {}\n", name_text(who), came_text(outcome))
        }
        Reply::Ticked { who, ticked } => write_tick(who, ticked, writer),
        Reply::Published { who, published } => write_published(who, published, frame, writer),
        Reply::Stopped { who, start, floor } => {
            write!(writer, "{} start={start} floor={floor}\n", name_text(who))
        }
    }
}

/// Writes the line of a fault, with LF: `at` is the number of the event, from 1, or 0 where the world does not begin.
///
/// # Errors
///
/// What the writer answers.
pub fn write_fault<W: Write>(fault: Fault, at: u64, writer: &mut W) -> io::Result<()>
    ensures { OnOk result (Appends (W.contents writer.old) (W.contents writer.new)
        (printed.fault_line fault at)) }
{
    match fault {
        Fault::PremiseBroken(broken) => { write!(writer, "X1 {} at {at}\n", premise_text(broken)) }
        Fault::NoSuchFrame => write!(writer, "X2 at {at}\n"),
        Fault::NoMemory => write!(writer, "X3 at {at}\n"),
        Fault::StartsUsedUp => write!(writer, "X4 at {at}\n"),
    }
}

/// Writes the line of a line that is no event, with LF: `number` is its number among all lines, from 1.
///
/// # Errors
///
/// What the writer answers.
pub fn write_not_an_event<W: Write>(number: u64, writer: &mut W) -> io::Result<()>
    ensures { OnOk result (Appends (W.contents writer.old) (W.contents writer.new)
        (printed.not_an_event number)) }
{
    write!(writer, "line {number}: not an event\n")
}
