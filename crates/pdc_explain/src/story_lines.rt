//! The story of an instant, in lines.

use crate::cause::{Fate, fate_of, is_unknown, print_fate};
use crate::lanes::{has_block, print_lanes};
use crate::row_lines::tell_row;
use crate::texts::{print_at, print_number, print_ordinal};
use pdc_life::{Outcome, Refusal};
use pdc_story::{About, Came, Cell, Story, print_time, time_of};
use std::io;
use std::io::Write;

/// Whether the frame that was published shows a column, as far as that is known.
fn is_shown(story: &Story, column: usize) -> Option<bool> {
    let cells = story.shown?;
    let cell = cells.get(column).copied()?;
    Some(matches!(cell, Cell::Present { .. }))
}

/// Whether a column's data is there, as it was answered; none where the record does not tell it.
fn is_there(about: &About, story: &Story, column: usize) -> Option<bool> {
    if about.is_merger() {
        return has_block(story, column);
    }
    let fate = fate_of(story, column, column);
    if is_unknown(fate) {
        None
    } else {
        Some(fate == Fate::Present)
    }
}

/// Whether the column is absent from the row: as the frame that was published has it, else as its data was answered. Where the record tells
/// neither, it is not called absent.
pub(crate) fn is_absent(about: &About, story: &Story, column: usize) -> bool {
    match is_shown(story, column) {
        Some(shown) => !shown,
        None => is_there(about, story, column) == Some(false),
    }
}

/// How the line of a column begins.
fn head_of(about: &About, story: &Story, column: usize) -> &'static str {
    let there = match is_there(about, story, column) {
        None => is_shown(story, column),
        there => there,
    };
    match there {
        Some(true) => "shown: ",
        Some(false) => "absent: ",
        None => "not known: ",
    }
}

/// How data was that was refused beside some that was taken.
fn refused_word(refusal: Refusal) -> &'static str {
    match refusal {
        Refusal::Duplicate => "equal",
        Refusal::Conflict => "other",
        Refusal::Late => "late",
        _ => "refused",
    }
}

/// What the other arrivals of a stream were answered.
fn outcome_words(outcome: Option<Outcome>) -> (&'static str, &'static str) {
    match outcome {
        Some(Outcome::Refused(refusal)) => (refused_word(refusal), refusal.text()),
        Some(outcome) => ("answered", outcome.text()),
        None => ("not answered", "no memory"),
    }
}

/// The place of the arrival that was taken among all of its stream, and what became of the others.
fn print_place<W: Write>(writer: &mut W, came: &Came) -> io::Result<()> {
    let mut place: u64 = 0;
    for arrived in came.arrivals.as_slice() {
        place = place.saturating_add(1);
        if arrived.outcome == Some(Outcome::Taken) {
            write!(writer, ", the ")?;
            print_ordinal(writer, place)?;
            write!(writer, " of ")?;
            print_number(writer, u64::from(came.count))?;
        }
    }
    place = 0;
    for arrived in came.arrivals.as_slice() {
        place = place.saturating_add(1);
        if arrived.outcome != Some(Outcome::Taken) {
            let (word, text) = outcome_words(arrived.outcome);
            write!(writer, ", the ")?;
            print_ordinal(writer, place)?;
            write!(writer, " {word} ({text})")?;
        }
    }
    Ok(())
}

/// Why a column of a node's row is there, or is not.
fn print_column<W: Write>(
    writer: &mut W,
    about: &About,
    story: &Story,
    column: usize,
) -> io::Result<()> {
    let fate = fate_of(story, column, column);
    let (Fate::Present, Some(came)) = (fate, story.of_stream(column)) else {
        return print_fate(writer, about, story, column, fate);
    };
    if let Some(taken) = came.taken {
        print_at(writer, "came at ", taken.time)?;
    }
    if came.count > 1 {
        print_place(writer, came)?;
    }
    Ok(())
}

/// What the frame that was published says otherwise than the answers.
fn print_disagreement<W: Write>(
    writer: &mut W,
    about: &About,
    story: &Story,
    column: usize,
) -> io::Result<()> {
    let there = is_there(about, story, column);
    match is_shown(story, column) {
        Some(true) if there == Some(false) => write!(
            writer,
            "; yet the frame that was published shows it"
        ),
        Some(false) if there == Some(true) => {
            write!(
                writer,
                "; yet the frame that was published does not show it"
            )
        }
        _ => Ok(()),
    }
}

/// Writes what became of a column.
fn print_story_of<W: Write>(
    writer: &mut W,
    about: &About,
    story: &Story,
    column: usize,
) -> io::Result<()> {
    let head = head_of(about, story, column);
    write!(writer, "{} {head}", about.column_id(column))?;
    if about.is_merger() {
        print_lanes(writer, about, story, column)?;
    } else {
        print_column(writer, about, story, column)?;
    }
    print_disagreement(writer, about, story, column)
}

/// The instant with its time.
fn print_instant<W: Write>(writer: &mut W, about: &About, story: &Story) -> io::Result<()> {
    write!(writer, "{} ", story.instant)?;
    print_time(writer, time_of(story.instant, about.rate()))
}

/// Tells what became of an instant: a line for each PMU, and what became of the row. `end` is the time of the last entry of the record.
///
/// # Errors
///
/// What the writer answers.
pub fn tell_story<W: Write>(
    writer: &mut W,
    about: &About,
    story: &Story,
    end: u64,
) -> io::Result<()> {
    print_instant(writer, about, story)?;
    let role = if about.is_merger() { "merger" } else { "node" };
    writeln!(writer, " at {role} {}", about.id())?;
    for column in 0..about.columns() {
        print_story_of(writer, about, story, column)?;
        writeln!(writer)?;
    }
    tell_row(writer, about, story, end)
}

/// Tells in a line which blocks of the instant's row are absent, and why; nothing where none is.
///
/// # Errors
///
/// What the writer answers.
pub(crate) fn tell_absent<W: Write>(
    writer: &mut W,
    about: &About,
    story: &Story,
) -> io::Result<()> {
    let mut separator = " ";
    let mut is_any = false;
    for column in 0..about.columns() {
        if is_absent(about, story, column) {
            if !is_any {
                print_instant(writer, about, story)?;
            }
            write!(writer, "{separator}")?;
            print_story_of(writer, about, story, column)?;
            separator = "; ";
            is_any = true;
        }
    }
    if is_any { writeln!(writer) } else { Ok(()) }
}
