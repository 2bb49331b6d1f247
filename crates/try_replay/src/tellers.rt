//! What is told of a record.

use pdc_explain::{Delays, Follower, Selection, Story, Tally, tell_delays, tell_story, wanted_of};
use pdc_record::{Entry, read_entry};
use std::alloc::{AllocError, Global};
use std::io::Write;
use std::{io, str};

/// What takes the entries of a record.
trait Hears {
    /// Takes an entry, and answers whether it could.
    fn hear(&mut self, entry: &Entry<'_>) -> bool;
}

impl Hears for Follower {
    fn hear(&mut self, entry: &Entry<'_>) -> bool {
        self.take(entry).is_ok()
    }
}

impl Hears for Delays {
    fn hear(&mut self, entry: &Entry<'_>) -> bool {
        self.take(entry).is_ok()
    }
}

/// Hands on the entries of a record.
fn hand_on<H: Hears>(record: &[u8], to: &mut H) -> bool {
    let mut at = 0;
    for _ in 0..=record.len() {
        let left = record.get(at..).unwrap_or(&[]);
        if left.is_empty() {
            return true;
        }
        let Ok((entry, len)) = read_entry(left) else {
            return false;
        };
        at = at.saturating_add(len);
        if !to.hear(&entry) {
            return false;
        }
    }
    true
}

/// Writes what is told of the instants that are wanted.
fn write_wanted(follower: &Follower, stories: &[Story], out: &mut Vec<u8>) -> io::Result<()> {
    let Some(about) = follower.about() else {
        return Ok(());
    };
    for story in stories {
        if follower.is_wanted(story.instant) {
            tell_story(out, about, story, follower.end_time())?;
        }
    }
    Ok(())
}

/// Writes what is told of an instant.
fn write_story(record: &[u8], follower: &mut Follower, out: &mut Vec<u8>) -> io::Result<()> {
    hand_on(record, follower);
    follower.end()?;
    match follower.finished() {
        Some(stories) => write_wanted(follower, &stories, out),
        None => Ok(()),
    }
}

/// Writes which of the instants had an absent block, and adds them.
fn add_absent(
    follower: &Follower,
    stories: &[Story],
    tally: &mut Tally,
    out: &mut Vec<u8>,
) -> io::Result<()> {
    for story in stories {
        tally.add(out, follower, story)?;
    }
    tally.end(out, follower)?;
    tally.tell(out)
}

/// Writes which instants had an absent block, and how often each cause was.
fn write_absent(
    record: &[u8],
    follower: &mut Follower,
    tally: &mut Tally,
    out: &mut Vec<u8>,
) -> io::Result<()> {
    hand_on(record, follower);
    follower.end()?;
    match follower.finished() {
        Some(stories) => add_absent(follower, &stories, tally, out),
        None => Ok(()),
    }
}

/// Writes how late data came.
fn write_delays(alloc: Global, record: &[u8], out: &mut Vec<u8>) -> io::Result<()> {
    let mut delays = Delays::new(alloc)?;
    hand_on(record, &mut delays);
    tell_delays(out, &delays)
}

/// The line with this number, from 0.
pub fn line_of(alloc: Global, out: &[u8], line: &str) -> Result<String, AllocError> {
    let number = line.parse::<usize>().unwrap_or(usize::MAX);
    let text = str::from_utf8(out).unwrap_or("");
    for (place, line) in text.lines().enumerate() {
        if place == number {
            return line.to_string(alloc);
        }
    }
    "no such line".to_string(alloc)
}

/// Writes what is told: of an instant, of all with an absent block, or of delays.
fn write_told(alloc: Global, record: &[u8], question: &str, out: &mut Vec<u8>) -> io::Result<()> {
    match (question, wanted_of(question)) {
        ("absent", _) => write_absent(
            record,
            &mut Follower::new(alloc, Selection::All),
            &mut Tally::new(alloc),
            out,
        ),
        ("delays", _) => write_delays(alloc, record, out),
        (_, Some(wanted)) => write_story(record, &mut Follower::new(alloc, wanted), out),
        _ => write!(out, "no such question"),
    }
}

/// A line of it.
pub fn told_line(
    alloc: Global,
    record: &[u8],
    question: &str,
    line: &str,
) -> Result<String, AllocError> {
    let mut out = Vec::new(alloc);
    match write_told(alloc, record, question, &mut out) {
        Ok(()) => line_of(alloc, &out, line),
        Err(_) => Err(AllocError),
    }
}
