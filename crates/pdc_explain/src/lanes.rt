//! At the merger: which node's block a column shows, and why.

use crate::cause::{Fate, fate_of, is_unknown, print_fate, print_kind};
use crate::texts::{node_letter, print_at, print_node};
use pdc_story::{About, Came, Story};
use std::io;
use std::io::Write;

/// The stream whose block a column shows: node A's where both have one; none where it is not known whether node A has one.
pub fn chosen(story: &Story, column: usize) -> Option<usize> {
    for stream in 0..2 {
        let fate = fate_of(story, stream, column);
        if fate == Fate::Present {
            return Some(stream);
        }
        if is_unknown(fate) {
            return None;
        }
    }
    None
}

/// Whether one of both nodes has a block of the column; none where the record does not tell it.
pub fn has_block(story: &Story, column: usize) -> Option<bool> {
    let (first, second) = (fate_of(story, 0, column), fate_of(story, 1, column));
    if first == Fate::Present || second == Fate::Present {
        return Some(true);
    }
    if is_unknown(first) || is_unknown(second) {
        None
    } else {
        Some(false)
    }
}

/// Whether both nodes have the same block of a column.
fn are_same(first: &Came, second: &Came, column: usize, story: &Story) -> bool {
    first.bytes(first.cell(column, story.closed)) == second.bytes(second.cell(column, story.closed))
}

/// What became of the block of the node that is not shown.
fn print_other<W: Write>(
    writer: &mut W,
    about: &About,
    story: &Story,
    stream: usize,
    column: usize,
) -> io::Result<()> {
    let fate = fate_of(story, stream, column);
    print_node(writer, about, stream)?;
    write!(writer, ": ")?;
    print_fate(writer, about, story, stream, fate)?;
    match (fate, story.came.as_slice()) {
        (Fate::Present, [first, second]) if are_same(first, second, column, story) => {
            write!(writer, ", and was equal")
        }
        (Fate::Present, _) => write!(writer, ", and was other"),
        _ => Ok(()),
    }
}

/// Writes which node's block a column shows, and why; or of both why it is not there.
///
/// # Errors
///
/// What the writer answers.
pub fn print_lanes<W: Write>(
    writer: &mut W,
    about: &About,
    story: &Story,
    column: usize,
) -> io::Result<()> {
    let Some(stream) = chosen(story, column) else {
        print_other(writer, about, story, 0, column)?;
        write!(writer, "; ")?;
        return print_other(writer, about, story, 1, column);
    };
    write!(writer, "of ")?;
    print_node(writer, about, stream)?;
    if let Some(came) = story.of_stream(stream) {
        if let Some(taken) = came.taken {
            print_at(writer, ", whose data came at ", taken.time)?;
        }
    }
    let other = if stream == 0 { 1 } else { 0 };
    if stream == 0 && fate_of(story, other, column) == Fate::Present {
        write!(writer, " and goes before node B's")?;
    }
    write!(writer, "; ")?;
    print_other(writer, about, story, other, column)
}

/// Writes the kinds of the causes of both nodes.
///
/// # Errors
///
/// What the writer answers.
pub fn print_lane_kinds<W: Write>(writer: &mut W, story: &Story, column: usize) -> io::Result<()> {
    for stream in 0..2 {
        if stream > 0 {
            write!(writer, ", ")?;
        }
        write!(writer, "node {}: ", node_letter(stream))?;
        print_kind(writer, fate_of(story, stream, column))?;
    }
    Ok(())
}
