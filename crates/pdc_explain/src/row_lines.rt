//! What became of a row, in words.

use crate::texts::{node_letter, print_at, print_gap, print_ordinal, print_wait};
use pdc_life::MAX_PMUS;
use pdc_story::{About, Arrived, Closed, Gap, Opened, Story};
use std::io;
use std::io::Write;

/// Which streams a row waits for.
type Streams = [bool; MAX_PMUS];

/// The ids of these streams, joined by commas.
fn print_streams<W: Write>(writer: &mut W, about: &About, streams: &Streams) -> io::Result<()> {
    let mut separator = "";
    for stream in 0..about.streams() {
        if streams.get(stream).copied().unwrap_or(false) {
            write!(writer, "{separator}")?;
            print_stream(writer, about, stream)?;
            separator = ", ";
        }
    }
    Ok(())
}

/// The id of a stream, and which node it is.
fn print_stream<W: Write>(writer: &mut W, about: &About, stream: usize) -> io::Result<()> {
    if about.is_merger() {
        write!(
            writer,
            "node {} ({})",
            node_letter(stream),
            about.stream_id(stream)
        )
    } else {
        write!(writer, "{}", about.stream_id(stream))
    }
}

/// Whether a stream has a section in force, so that a row waits for it; of a node's stream it may be unknown.
fn is_wanted(about: &About, closed: Closed, stream: usize) -> bool {
    if about.is_merger() {
        return true;
    }
    match closed.in_force {
        Some(in_force) => match in_force.get(stream) {
            Some(held) => held.is_some(),
            None => false,
        },
        None => true,
    }
}

/// What was taken of a stream.
fn taken_of(story: &Story, stream: usize) -> Option<Arrived> {
    match story.of_stream(stream) {
        Some(came) => came.taken,
        None => None,
    }
}

/// Of which streams that were wanted nothing was taken, and which was the last that was taken, by the numbers of the steps, and when.
fn waited_for(about: &About, story: &Story, closed: Closed) -> (Streams, usize, u64) {
    let mut missing = [false; MAX_PMUS];
    let mut last = Arrived::default();
    let mut last_stream = 0;
    for stream in 0..about.streams() {
        match taken_of(story, stream) {
            Some(taken) => {
                if taken.step >= last.step {
                    last = taken;
                    last_stream = stream;
                }
            }
            None => {
                if let Some(place) = missing.get_mut(stream) {
                    *place = is_wanted(about, closed, stream);
                }
            }
        }
    }
    (missing, last_stream, last.time)
}

/// What a row waited for.
fn print_waited<W: Write>(
    writer: &mut W,
    about: &About,
    story: &Story,
    opened: Opened,
    closed: Closed,
) -> io::Result<()> {
    let (missing, last_stream, last) = waited_for(about, story, closed);
    if missing.contains(&true) {
        write!(writer, "; it waited for ")?;
        print_streams(writer, about, &missing)?;
        return Ok(());
    }
    if last_stream == opened.stream {
        return Ok(());
    }
    write!(writer, "; it waited for ")?;
    print_stream(writer, about, last_stream)?;
    print_at(writer, ", which came last, at ", last)
}

/// At which tick a row closed.
fn print_closed<W: Write>(
    writer: &mut W,
    about: &About,
    opened: Option<Opened>,
    closed: Closed,
) -> io::Result<()> {
    print_at(writer, "; it closed at ", closed.time)?;
    if let Some(opened) = opened {
        write!(writer, ", at the ")?;
        print_ordinal(writer, closed.ticks.saturating_sub(opened.ticks))?;
        write!(writer, " tick after it opened")?;
    }
    write!(writer, " (now {}, ", closed.now)?;
    print_wait(writer, about)?;
    write!(writer, ")")
}

/// When its frame went out.
fn print_popped<W: Write>(writer: &mut W, story: &Story, popped: u64) -> io::Result<()> {
    let text = match story.payload {
        Some(_) => "; its frame went out at ",
        None => "; no frame of it was published, it was popped at ",
    };
    print_at(writer, text, popped)
}

/// Tells what is known of the row where steps are not in the record, among which may be some of its own.
fn tell_row_beside<W: Write>(
    writer: &mut W,
    about: &About,
    story: &Story,
    gap: &Gap,
) -> io::Result<()> {
    write!(writer, "the row ")?;
    match story.opened {
        Some(opened) if opened.step < gap.from => print_at(writer, "opened at ", opened.time)?,
        Some(opened) => print_at(writer, "was open at ", opened.time)?,
        None => write!(writer, "has no data that was taken and is in the record")?,
    }
    if let Some(closed) = story.closed {
        print_closed(writer, about, None, closed)?;
    }
    if let Some(popped) = story.popped {
        print_popped(writer, story, popped)?;
    }
    write!(writer, "; ")?;
    print_gap(writer, gap)?;
    writeln!(writer, ", are not in the record")
}

/// Tells when the row opened, what it waited for, at which tick it closed and when its frame went out.
///
/// # Errors
///
/// What the writer answers.
pub fn tell_row<W: Write>(
    writer: &mut W,
    about: &About,
    story: &Story,
    end: u64,
) -> io::Result<()> {
    if let Some(gap) = story.row_gap() {
        return tell_row_beside(writer, about, story, gap);
    }
    write!(writer, "the row ")?;
    match (story.opened, story.popped) {
        (Some(opened), _) => {
            print_at(writer, "opened at ", opened.time)?;
            write!(writer, " with ")?;
            print_stream(writer, about, opened.stream)?;
        }
        (None, Some(_)) => write!(writer, "opened before the record begins")?,
        (None, None) => return writeln!(writer, "did not open: nothing was taken for this instant"),
    }
    let Some(popped) = story.popped else {
        print_at(writer, "; it had not closed when the record ends, at ", end)?;
        return writeln!(writer);
    };
    if let Some(closed) = story.closed {
        if let Some(opened) = story.opened {
            print_waited(writer, about, story, opened, closed)?;
        }
        print_closed(writer, about, story.opened, closed)?;
    }
    print_popped(writer, story, popped)?;
    writeln!(writer)
}
