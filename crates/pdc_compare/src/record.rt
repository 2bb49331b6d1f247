//! A record that is replayed from row to row.

use crate::files::{Files, Opens, Takes, Walked, Wrong};
use crate::verdict::Verdict;
use pdc_record::{Entry, What};
use pdc_replay::{Halt, Player, SeenRow, print_halt, print_unplayed};
use std::alloc::Global;
use std::io;
use std::io::Write;

/// What plays entries up to the next row.
#[derive(Drop)]
struct Rows {
    player: Player,
    /// The entry that was played last popped a row.
    is_at_one: bool,
    /// Why the replay halted.
    halt: Option<Halt>,
}

/// A record, at a row that was popped, or at its end.
#[derive(Drop)]
pub struct Record<'a> {
    files: Files<'a>,
    rows: Rows,
}

impl Takes for Rows {
    fn take(&mut self, entry: &Entry<'_>) -> io::Result<bool> {
        if let Err(halt) = self.player.play(entry) {
            self.halt = Some(halt);
            return Ok(false);
        }
        self.is_at_one = matches!(entry.what, What::Popped { .. });
        Ok(!self.is_at_one)
    }
}

/// The text of why a replay halted, without the end of its last line.
///
/// # Errors
///
/// There is no memory.
pub fn halt_text(alloc: Global, halt: &Halt) -> io::Result<String> {
    let mut text = Vec::new(alloc);
    print_halt(&mut text, alloc, halt)?;
    text_of(text)
}

/// The text of lines, without the end of the last one.
///
/// # Errors
///
/// It is no text.
pub fn text_of(mut lines: Vec<u8>) -> io::Result<String> {
    lines.pop();
    String::from_utf8(lines).map_err(|_| io::ErrorKind::InvalidData.into())
}

/// Tells of a record that was played with which step it begins, where that is not its first, and which steps were not compared; each line
/// begins with the name. Answers whether all were.
///
/// # Errors
///
/// There is no memory.
pub fn tell_unplayed(player: &Player, name: &str, out: &mut Vec<u8>) -> io::Result<bool> {
    if let Some(first) = player.first() {
        writeln!(
            out,
            "{name}the record begins with step {first}: it was played from what its first file carries over"
        )?;
    }
    for unplayed in player.unplayed() {
        write!(out, "{name}")?;
        print_unplayed(out, unplayed)?;
        writeln!(out)?;
    }
    Ok(player.unplayed().is_empty())
}

impl<'a> Record<'a> {
    /// That of these files, at its beginning.
    pub fn of(alloc: Global, files: Files<'a>) -> Record<'a> {
        Record {
            files,
            rows: Rows {
                player: Player::new(alloc),
                is_at_one: false,
                halt: None,
            },
        }
    }

    /// Its files.
    pub fn files(&self) -> &Files<'a> {
        &self.files
    }

    /// The row at which it is; none at its end.
    pub fn row(&self) -> Option<SeenRow<'_>> {
        if self.rows.is_at_one {
            self.rows.player.last_row()
        } else {
            None
        }
    }

    /// The instant of that row.
    pub fn instant(&self) -> Option<u64> {
        match self.row() {
            Some(row) => Some(row.instant),
            None => None,
        }
    }

    /// Plays up to the next row.
    ///
    /// # Errors
    ///
    /// There is no memory.
    pub fn advance<O: Opens>(&mut self, opener: &mut O) -> io::Result<()> {
        self.rows.is_at_one = false;
        if self.rows.halt.is_none() {
            let _walked: Walked = self.files.walk(opener, &mut self.rows)?;
        }
        Ok(())
    }

    /// Tells how it was replayed, under this name, and what that is.
    ///
    /// # Errors
    ///
    /// There is no memory.
    pub fn tell(&self, alloc: Global, name: &str, out: &mut Vec<u8>) -> io::Result<Verdict> {
        if let Some(halt) = &self.rows.halt {
            let text = halt_text(alloc, halt)?;
            writeln!(out, "{name}: {text}")?;
            return Ok(if matches!(halt, Halt::Memory) {
                Verdict::Failed
            } else {
                Verdict::Refused
            });
        }
        let player = &self.rows.player;
        let (steps, frames) = (player.steps(), player.frames());
        let before = if self.files.is_broken() {
            " before it"
        } else {
            ""
        };
        writeln!(
            out,
            "{name}: {steps} steps, {frames} frames{before}: as recorded"
        )?;
        let front = format!(in alloc; "{name}: ")?;
        if !tell_unplayed(player, front.as_str(), out)? {
            return Ok(Verdict::Refused.and(self.files.verdict()));
        }
        Ok(self.files.verdict())
    }
}
