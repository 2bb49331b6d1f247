//! Instants that follow one another, and of which the same is told.

use crate::story_lines::tell_absent;
use crate::texts::print_at;
use pdc_story::{About, Follower, Gap, Story, print_time, time_of};
use std::alloc::Global;
use std::io::Write;
use std::{io, str};

/// Instants that follow one another and have the same causes.
#[derive(Drop)]
pub(crate) struct Range {
    /// The first one,
    first: u64,
    /// and the last one.
    last: u64,
    /// The causes, in few words.
    causes: Vec<u8>,
    /// They have rows; what is told where there is one alone.
    line: Option<Vec<u8>>,
}

impl Range {
    /// That of an instant whose row has absent blocks.
    ///
    /// # Errors
    ///
    /// There is no memory.
    pub fn of_row(
        alloc: Global,
        about: &About,
        story: &Story,
        causes: Vec<u8>,
    ) -> io::Result<Range> {
        let mut line = Vec::new(alloc);
        tell_absent(&mut line, about, story)?;
        Ok(Range {
            first: story.instant,
            last: story.instant,
            causes,
            line: Some(line),
        })
    }

    /// Instants without a row.
    pub fn without_rows(first: u64, last: u64, causes: Vec<u8>) -> Range {
        Range {
            first,
            last,
            causes,
            line: None,
        }
    }

    /// Whether they have rows.
    pub fn has_rows(&self) -> bool {
        self.line.is_some()
    }

    /// How many they are.
    pub fn len(&self) -> u64 {
        self.last.saturating_sub(self.first).saturating_add(1)
    }

    /// Takes these in behind its own, where the same is told of them; answers whether it did.
    pub fn take(&mut self, next: &Range) -> bool {
        let fits = self.last.saturating_add(1) == next.first
            && self.has_rows() == next.has_rows()
            && self.causes == next.causes;
        if fits {
            self.last = next.last;
        }
        fits
    }

    /// Whether the row of one of them may be among these steps, which are not in the record.
    pub fn meets(&self, gap: &Gap) -> bool {
        gap.low <= self.last && self.first <= gap.high
    }

    /// The instants and their times.
    fn print_instants<W: Write>(&self, writer: &mut W, about: &About) -> io::Result<()> {
        let (from, until) = (
            time_of(self.first, about.rate()),
            time_of(self.last, about.rate()),
        );
        if self.first == self.last {
            write!(writer, "{} ", self.first)?;
            return print_time(writer, from);
        }
        write!(writer, "{} to {}, ", self.first, self.last)?;
        print_time(writer, from)?;
        print_at(writer, " to ", until)
    }

    /// Tells of them in a line. Of instants without a row it says when no tick came about them.
    ///
    /// # Errors
    ///
    /// What the writer answers.
    pub fn tell<W: Write>(
        &self,
        writer: &mut W,
        follower: &Follower,
        about: &About,
    ) -> io::Result<()> {
        if let (Some(line), true) = (&self.line, self.first == self.last) {
            return writer.write_all(line);
        }
        self.print_instants(writer, about)?;
        let head = if self.has_rows() {
            ": absent: "
        } else {
            ": no row: "
        };
        let causes = str::from_utf8(&self.causes).unwrap_or("");
        write!(writer, "{head}{causes}")?;
        if !self.has_rows() {
            for hold in follower.holds() {
                if hold.low <= self.last.saturating_add(about.wait()) && self.first <= hold.high {
                    print_at(writer, "; no tick from ", hold.from)?;
                    print_at(writer, " to ", hold.until)?;
                }
            }
        }
        writeln!(writer)
    }
}
