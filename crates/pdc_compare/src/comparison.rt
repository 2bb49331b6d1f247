//! The records of node A, node B and the merger, instant by instant.

use crate::files::{Fault, Files, Opens};
use crate::record::Record;
use crate::verdict::Verdict;
use pdc_replay::{Disagreement, NAMES, SeenRow, Three, disagreement_of, print_presence};
use pdc_story::{print_time, time_of};
use std::alloc::Global;
use std::io;
use std::io::Write;

/// The greatest rate, in frames a second.
const MAX_RATE: u64 = 240;

/// The records of node A, node B and the merger; one of no file is not there.
#[derive(Drop)]
struct Sides<'a> {
    a: Record<'a>,
    b: Record<'a>,
    m: Record<'a>,
}

/// The records of node A, node B and the merger, compared from instant to instant.
#[derive(Drop)]
pub struct Comparison<'a> {
    alloc: Global,
    /// Each is at its lowest row that was not compared yet.
    sides: Sides<'a>,
    /// Their frames a second.
    rate: u64,
    /// Each of them is at its first row, or was.
    has_begun: bool,
    /// How many instants were compared.
    instants: u64,
    /// What is told of the first two blocks that differ.
    difference: Vec<u8>,
}

/// The lower of two instants.
fn lower(first: Option<u64>, second: Option<u64>) -> Option<u64> {
    match (first, second) {
        (Some(first), Some(second)) => Some(first.min(second)),
        (Some(instant), None) | (None, Some(instant)) => Some(instant),
        (None, None) => None,
    }
}

/// The row of a record for the instant.
fn row_at<'s>(record: &'s Record<'_>, instant: u64) -> Option<SeenRow<'s>> {
    let row = record.row()?;
    if row.instant == instant {
        Some(row)
    } else {
        None
    }
}

/// A record that is at the instant goes on.
fn advance_from<O: Opens>(record: &mut Record<'_>, instant: u64, opener: &mut O) -> io::Result<()> {
    if record.instant() == Some(instant) {
        record.advance(opener)?;
    }
    Ok(())
}

/// Writes a block of one of them.
fn write_words(out: &mut Vec<u8>, name: &str, words: &[u16]) -> io::Result<()> {
    write!(out, "  {name} ")?;
    for word in words {
        write!(out, "{word:04X}")?;
    }
    writeln!(out)
}

/// Writes two blocks that differ.
fn print_difference(out: &mut Vec<u8>, instant: u64, found: &Disagreement<'_>) -> io::Result<()> {
    let (source, count) = (found.source, found.count);
    writeln!(
        out,
        "instant {instant}: the blocks of {source} under count {count} differ"
    )?;
    let (name, block) = found.first;
    write_words(out, name, block.words())?;
    let (name, block) = found.second;
    write_words(out, name, block.words())
}

/// Writes which of them had which block of an instant.
fn write_instant(out: &mut Vec<u8>, instant: u64, rate: u64, rows: &Three<'_>) -> io::Result<()> {
    write!(out, "{instant} ")?;
    print_time(out, time_of(instant, rate.clamp(1, MAX_RATE)))?;
    print_presence(out, rows)?;
    writeln!(out)
}

/// Tells how a record was replayed, where it is given.
fn tell_record(
    alloc: Global,
    name: &str,
    record: &Record<'_>,
    out: &mut Vec<u8>,
) -> io::Result<Verdict> {
    if record.files().names().is_empty() {
        return Ok(Verdict::AsRecorded);
    }
    record.tell(alloc, name, out)
}

/// Writes which of them had which block of an instant, and behind `difference` the first two that differ, where it is the first time.
fn compare(
    sides: &Sides<'_>,
    instant: u64,
    rate: u64,
    out: &mut Vec<u8>,
    difference: &mut Vec<u8>,
) -> io::Result<()> {
    let rows = sides.rows(instant);
    write_instant(out, instant, rate, &rows)?;
    if difference.is_empty() {
        if let Some(found) = disagreement_of(&rows) {
            print_difference(difference, instant, &found)?;
        }
    }
    Ok(())
}

impl<'a> Sides<'a> {
    /// The lowest instant at which one of them is.
    fn lowest(&self) -> Option<u64> {
        lower(self.a.instant(), lower(self.b.instant(), self.m.instant()))
    }

    /// The rows of the instant.
    fn rows(&self, instant: u64) -> Three<'_> {
        [
            row_at(&self.a, instant),
            row_at(&self.b, instant),
            row_at(&self.m, instant),
        ]
    }

    /// Each goes to its first row.
    fn begin<O: Opens>(&mut self, opener: &mut O) -> io::Result<()> {
        self.a.advance(opener)?;
        self.b.advance(opener)?;
        self.m.advance(opener)
    }

    /// Those at the instant go on.
    fn advance<O: Opens>(&mut self, instant: u64, opener: &mut O) -> io::Result<()> {
        advance_from(&mut self.a, instant, opener)?;
        advance_from(&mut self.b, instant, opener)?;
        advance_from(&mut self.m, instant, opener)
    }
}

impl<'a> Comparison<'a> {
    /// Of the records in these files, which have so many frames a second; one of no file is not there.
    pub fn of(
        alloc: Global,
        a: Files<'a>,
        b: Files<'a>,
        m: Files<'a>,
        rate: u16,
    ) -> Comparison<'a> {
        Comparison {
            alloc,
            sides: Sides {
                a: Record::of(alloc, a),
                b: Record::of(alloc, b),
                m: Record::of(alloc, m),
            },
            rate: u64::from(rate),
            has_begun: false,
            instants: 0,
            difference: Vec::new(alloc),
        }
    }

    /// What was wrong with the files that were read, of each of the three.
    pub fn faults(&self) -> [&[Fault<'a>]; 3] {
        [
            self.sides.a.files().faults(),
            self.sides.b.files().faults(),
            self.sides.m.files().faults(),
        ]
    }

    /// Compares the next instant, and writes a line of which of them had which block; answers whether there was one.
    ///
    /// # Errors
    ///
    /// There is no memory.
    pub fn tell_next<O: Opens>(&mut self, opener: &mut O, out: &mut Vec<u8>) -> io::Result<bool> {
        if !self.has_begun {
            self.has_begun = true;
            self.sides.begin(opener)?;
        }
        let Some(instant) = self.sides.lowest() else {
            return Ok(false);
        };
        compare(&self.sides, instant, self.rate, out, &mut self.difference)?;
        self.instants = self.instants.saturating_add(1);
        self.sides.advance(instant, opener)?;
        Ok(true)
    }

    /// Writes how each was replayed, and that all agreed, or the first two that did not; answers what that is.
    ///
    /// # Errors
    ///
    /// There is no memory.
    pub fn tell_end(&self, out: &mut Vec<u8>) -> io::Result<Verdict> {
        let [a, b, m] = NAMES;
        let verdict = tell_record(self.alloc, a, &self.sides.a, out)?
            .and(tell_record(self.alloc, b, &self.sides.b, out)?)
            .and(tell_record(self.alloc, m, &self.sides.m, out)?);
        if !self.difference.is_empty() {
            out.extend_from_slice(&self.difference)?;
            return Ok(verdict.and(Verdict::Refused));
        }
        let instants = self.instants;
        writeln!(
            out,
            "{instants} instants: all agree on every block that is present under one count"
        )?;
        Ok(verdict)
    }
}
