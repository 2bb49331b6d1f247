//! Printing what was found.

use pdc_check::Level;
use std::fmt::Display;
use std::io;

/// How many there were of each kind.
#[derive(Clone, Copy, Debug)]
pub struct Totals {
    pub errors: u64,
    pub warnings: u64,
}

impl Totals {
    /// Counts one.
    fn count(&mut self, level: Level) {
        match level {
            Level::Error => self.errors = self.errors.saturating_add(1),
            Level::Warning => self.warnings = self.warnings.saturating_add(1),
            Level::Note => {}
        }
    }
}

/// The word of a level, with the blanks behind it.
fn word_of(level: Level) -> &'static str {
    match level {
        Level::Error => "error    ",
        Level::Warning => "warning  ",
        Level::Note => "note     ",
    }
}

/// Prints what is so of a file.
pub fn tell<T: Display>(
    rt: &impl Print,
    totals: &mut Totals,
    level: Level,
    file: &str,
    text: &T,
) -> io::Result<()> {
    totals.count(level);
    println!(rt; "{}{file}: {text}", word_of(level))
}

/// Prints what of a file does not fit another one.
pub fn tell_of_two<T: Display>(
    rt: &impl Print,
    totals: &mut Totals,
    level: Level,
    file: &str,
    text: &T,
    other: &str,
) -> io::Result<()> {
    totals.count(level);
    println!(rt; "{}{file}: {text} {other}", word_of(level))
}
