//! Which instants had absent blocks or no row, and how often each cause was.

use crate::cause::{fate_of, print_kind};
use crate::lanes::print_lane_kinds;
use crate::ranges::Range;
use crate::story_lines::is_absent;
use pdc_story::{About, Follower, Story};
use std::alloc::Global;
use std::io::Write;
use std::{io, str};

/// A cause, as it is written, and how often it was.
#[derive(Drop)]
struct Counted {
    text: Vec<u8>,
    count: u64,
}

/// Which instants had absent blocks or no row, and how often each cause was that a block is absent.
#[derive(Drop)]
pub struct Tally {
    alloc: Global,
    counted: Vec<Counted>,
    /// How many rows had an absent block.
    rows: u64,
    /// How many rows there were.
    all: u64,
    /// How many instants between rows had none.
    rowless: u64,
    /// The last instants, of which nothing was told yet.
    range: Option<Range>,
    /// Those without a row, behind the last row.
    lacking: Vec<Range>,
    /// The instant behind the last one that was added, once a row was.
    next: Option<u64>,
}

impl Tally {
    /// None was.
    pub fn new(alloc: Global) -> Tally {
        Tally {
            alloc,
            counted: Vec::new(alloc),
            rows: 0,
            all: 0,
            rowless: 0,
            range: None,
            lacking: Vec::new(alloc),
            next: None,
        }
    }

    /// Counts a cause.
    fn count(&mut self, text: Vec<u8>) -> io::Result<()> {
        for counted in self.counted.as_mut_slice() {
            if counted.text == text {
                counted.count = counted.count.saturating_add(1);
                return Ok(());
            }
        }
        self.counted.push(Counted { text, count: 1 })?;
        Ok(())
    }

    /// The cause of a column, in few words.
    fn cause(&self, about: &About, story: &Story, column: usize) -> io::Result<Vec<u8>> {
        let mut text = Vec::new(self.alloc);
        write!(text, "{} ", about.column_id(column))?;
        if about.is_merger() {
            print_lane_kinds(&mut text, story, column)?;
        } else {
            print_kind(&mut text, fate_of(story, column, column))?;
        }
        Ok(text)
    }

    /// The causes of the columns that are absent from a row, each counted; of an instant without a row those of all columns, uncounted.
    fn causes(&mut self, about: &About, story: &Story) -> io::Result<Vec<u8>> {
        let has_row = story.popped.is_some();
        let mut causes = Vec::new(self.alloc);
        for column in 0..about.columns() {
            if !has_row || is_absent(about, story, column) {
                let text = self.cause(about, story, column)?;
                if !causes.is_empty() {
                    causes.extend_from_slice(b"; ")?;
                }
                causes.extend_from_slice(&text)?;
                if has_row {
                    self.count(text)?;
                }
            }
        }
        Ok(causes)
    }

    /// Adds instants without a row.
    fn lack(&mut self, follower: &Follower, next: Range) -> io::Result<()> {
        for gap in follower.gaps() {
            if next.meets(gap) {
                return Ok(());
            }
        }
        if let Some(last) = self.lacking.as_mut_slice().last_mut() {
            if last.take(&next) {
                return Ok(());
            }
        }
        self.lacking.push(next)?;
        Ok(())
    }

    /// Tells of the instants without a row that lie before a row.
    fn tell_lacking<W: Write>(
        &mut self,
        writer: &mut W,
        follower: &Follower,
        about: &About,
    ) -> io::Result<()> {
        let mut count = self.rowless;
        for range in &self.lacking {
            count = count.saturating_add(range.len());
            range.tell(writer, follower, about)?;
        }
        self.rowless = count;
        self.lacking.clear();
        Ok(())
    }

    /// Tells of the last instants.
    fn tell_range<W: Write>(
        &mut self,
        writer: &mut W,
        follower: &Follower,
        about: &About,
    ) -> io::Result<()> {
        if let Some(range) = &self.range {
            range.tell(writer, follower, about)?;
        }
        self.range = None;
        Ok(())
    }

    /// Adds a row.
    fn add_row<W: Write>(
        &mut self,
        writer: &mut W,
        follower: &Follower,
        about: &About,
        story: &Story,
    ) -> io::Result<()> {
        self.all = self.all.saturating_add(1);
        let causes = self.causes(about, story)?;
        let next = if causes.is_empty() {
            None
        } else {
            self.rows = self.rows.saturating_add(1);
            Some(Range::of_row(self.alloc, about, story, causes)?)
        };
        if let (Some(range), Some(next)) = (&mut self.range, &next) {
            if range.take(next) {
                return Ok(());
            }
        }
        self.tell_range(writer, follower, about)?;
        self.tell_lacking(writer, follower, about)?;
        self.range = next;
        Ok(())
    }

    /// Adds an instant: those of a life come in rising order. What is told of those before it is written: which blocks of rows are absent,
    /// and why, a line for instants that follow one another and have the same causes; and which instants between rows have no row.
    ///
    /// # Errors
    ///
    /// What the writer answers, or there is no memory.
    pub fn add<W: Write>(
        &mut self,
        writer: &mut W,
        follower: &Follower,
        story: &Story,
    ) -> io::Result<()> {
        let Some(about) = follower.about() else {
            return Ok(());
        };
        let behind = Some(story.instant.saturating_add(1));
        if let Some(next) = self.next {
            if next < story.instant {
                let mut causes = Vec::new(self.alloc);
                causes.extend_from_slice(b"nothing came")?;
                self.lack(
                    follower,
                    Range::without_rows(next, story.instant - 1, causes),
                )?;
            }
            if story.popped.is_none() {
                let causes = self.causes(about, story)?;
                self.next = behind;
                return self.lack(
                    follower,
                    Range::without_rows(story.instant, story.instant, causes),
                );
            }
        }
        if story.popped.is_some() {
            self.next = behind;
            return self.add_row(writer, follower, about, story);
        }
        Ok(())
    }

    /// A life is at its end: the last of its instants are told.
    ///
    /// # Errors
    ///
    /// What the writer answers.
    pub fn end<W: Write>(&mut self, writer: &mut W, follower: &Follower) -> io::Result<()> {
        if let Some(about) = follower.about() {
            self.tell_range(writer, follower, about)?;
        }
        self.lacking.clear();
        self.next = None;
        Ok(())
    }

    /// Tells how often each cause was, a line each, the first to come first.
    ///
    /// # Errors
    ///
    /// What the writer answers.
    pub fn tell<W: Write>(&self, writer: &mut W) -> io::Result<()> {
        writeln!(
            writer,
            "{} of {} rows with an absent block",
            self.rows, self.all
        )?;
        if self.rowless > 0 {
            writeln!(writer, "{} instants without a row", self.rowless)?;
        }
        for counted in &self.counted {
            let text = str::from_utf8(&counted.text).unwrap_or("");
            writeln!(writer, "{:>10} {text}", counted.count)?;
        }
        Ok(())
    }
}
