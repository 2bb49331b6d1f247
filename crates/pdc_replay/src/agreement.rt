//! Which of the three had a block, and whether they agree.

use crate::seen::SeenRow;
use arrayvec::ArrayVec;
use pdc_row::Block;
use std::io;
use std::io::Write;

/// The rows of node A, of node B and of the merger for one instant, of each that had one.
pub type Three<'a> = [Option<SeenRow<'a>>; 3];

/// Their names.
pub const NAMES: [&str; 3] = ["A", "B", "M"];

/// The most sources of three rows.
const MOST_SOURCES: usize = 48;

/// Two that had different blocks of one source under one count.
#[derive(Clone, Copy, Debug)]
pub struct Disagreement<'a> {
    /// The source.
    pub source: u16,
    /// The count.
    pub count: u16,
    /// The first one and its block,
    pub first: (&'static str, &'a Block),
    /// and the second one and its.
    pub second: (&'static str, &'a Block),
}

/// The sources that the rows have sections of, each once.
fn sources_of(rows: &Three<'_>) -> ArrayVec<u16, MOST_SOURCES> {
    let mut sources = ArrayVec::new();
    for row in rows {
        if let Some(row) = row {
            for section in row.sections {
                if !sources.as_slice().contains(&section.source) && !sources.is_full() {
                    sources.push(section.source);
                }
            }
        }
    }
    sources
}

/// The block of a source that one of them has, with its count.
fn present<'a>(rows: &Three<'a>, place: usize, source: u16) -> Option<(u16, &'a Block)> {
    match rows.get(place) {
        Some(Some(row)) => row.present(source),
        _ => None,
    }
}

/// Whether two of them had the same block of a source, where both had one under one count.
fn disagreement_at<'a>(
    rows: &Three<'a>,
    source: u16,
    first: usize,
    second: usize,
) -> Option<Disagreement<'a>> {
    let (count, block) = present(rows, first, source)?;
    let (other_count, other) = present(rows, second, source)?;
    if count != other_count || (block.shape == other.shape && block.words() == other.words()) {
        return None;
    }
    Some(Disagreement {
        source,
        count,
        first: (NAMES.get(first).copied()?, block),
        second: (NAMES.get(second).copied()?, other),
    })
}

/// The first two of the three that had different blocks of one source under one count.
pub fn disagreement_of<'a>(rows: &Three<'a>) -> Option<Disagreement<'a>> {
    for source in sources_of(rows).as_slice() {
        for (first, second) in [(0, 1), (0, 2), (1, 2)] {
            let found = disagreement_at(rows, *source, first, second);
            if found.is_some() {
                return found;
            }
        }
    }
    None
}

/// Whether those that had a block of a source had it under different counts.
fn have_counts(rows: &Three<'_>, source: u16) -> bool {
    let mut seen: Option<u16> = None;
    for place in 0..3 {
        if let Some((count, _)) = present(rows, place, source) {
            match seen {
                Some(old) if old != count => return true,
                _ => seen = Some(count),
            }
        }
    }
    false
}

/// Writes which of them had a block of each source: its name, a point where its row has none, a dash where it has no row, each at its place;
/// and the counts where they are not the same. So `11 A B M` and `12 A(3) . M(4)`.
///
/// # Errors
///
/// What the writer answers.
pub fn print_presence<W: Write>(writer: &mut W, rows: &Three<'_>) -> io::Result<()> {
    for source in sources_of(rows).as_slice() {
        write!(writer, "  {source}")?;
        let counts = have_counts(rows, *source);
        for place in 0..3 {
            let name = NAMES.get(place).copied().unwrap_or("");
            match (present(rows, place, *source), rows.get(place)) {
                (Some((count, _)), _) if counts => write!(writer, " {name}({count})")?,
                (Some(_), _) => write!(writer, " {name}")?,
                (None, Some(Some(_))) => write!(writer, " .")?,
                _ => write!(writer, " -")?,
            }
        }
    }
    Ok(())
}
