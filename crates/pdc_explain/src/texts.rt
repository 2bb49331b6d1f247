//! Words of what is told.

use pdc_story::{About, Gap, print_time};
use std::io;
use std::io::Write;

/// The ordinal numbers that have a word.
const ORDINALS: [&str; 5] = ["first", "second", "third", "fourth", "fifth"];

/// The numbers that have a word.
const NUMBERS: [&str; 5] = ["one", "two", "three", "four", "five"];

/// The ending of an ordinal number.
fn ending(number: u64) -> &'static str {
    if number % 100 / 10 == 1 {
        return "th";
    }
    match number % 10 {
        1 => "st",
        2 => "nd",
        3 => "rd",
        _ => "th",
    }
}

/// The word at the place before this number.
fn word_of(words: &[&'static str], number: u64) -> Option<&'static str> {
    let place = usize::try_from(number.checked_sub(1)?).ok()?;
    words.get(place).copied()
}

/// `first`, `second`, and from six on `6th`.
pub(crate) fn print_ordinal<W: Write>(writer: &mut W, number: u64) -> io::Result<()> {
    match word_of(&ORDINALS, number) {
        Some(word) => write!(writer, "{word}"),
        None => write!(writer, "{number}{}", ending(number)),
    }
}

/// `two`, and from six on `6`.
pub(crate) fn print_number<W: Write>(writer: &mut W, number: u64) -> io::Result<()> {
    match word_of(&NUMBERS, number) {
        Some(word) => write!(writer, "{word}"),
        None => write!(writer, "{number}"),
    }
}

/// `wait 2 ticks`, or of an absolute wait `wait 2 instants`.
pub(crate) fn print_wait<W: Write>(writer: &mut W, about: &About) -> io::Result<()> {
    let wait = about.wait();
    let (one, more) = if about.is_relative() {
        ("tick", "ticks")
    } else {
        ("instant", "instants")
    };
    let unit = if wait == 1 { one } else { more };
    write!(writer, "wait {wait} {unit}")
}

/// `node A (201)`.
pub(crate) fn print_node<W: Write>(writer: &mut W, about: &About, stream: usize) -> io::Result<()> {
    let id = about.stream_id(stream);
    write!(writer, "node {} ({id})", node_letter(stream))
}

/// A or B.
pub(crate) fn node_letter(stream: usize) -> &'static str {
    if stream == 0 { "A" } else { "B" }
}

/// A text and a time.
pub(crate) fn print_at<W: Write>(writer: &mut W, text: &str, time: u64) -> io::Result<()> {
    write!(writer, "{text}")?;
    print_time(writer, time)
}

/// Writes the numbers of steps that are not in a record, and from when to when they were made: between the entries before and behind them.
///
/// # Errors
///
/// What the writer answers.
pub fn print_gap<W: Write>(writer: &mut W, gap: &Gap) -> io::Result<()> {
    let last = gap.until.saturating_sub(1);
    write!(writer, "steps {} to {last}", gap.from)?;
    if gap.begins > 0 {
        print_at(writer, ", from ", gap.begins)?;
    }
    print_at(writer, ", up to ", gap.ends)
}
