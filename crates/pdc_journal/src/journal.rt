//! Lines on their way to standard error.

use crate::lines::{Lines, Turn};
use jiff::Timestamp;
use std::alloc::{AllocError, Global};
use std::rt::Clock;
use std::sync::{Mutex, Wait};
use std::thread;
use std::time::Duration;

/// How long nobody looks for a line after there was none, in milliseconds.
const PAUSE: u64 = 20;

/// The lines that a run tells of itself, each with the time at its front, as `2026-11-24T17:05:09Z PMU 12 sends again`. Whoever tells one
/// waits for nothing but a short lock: it is printed by the thread that runs [`Journal::print_all`]. At most 256 wait; what does not fit is
/// dropped and counted.
#[derive(Drop)]
pub struct Journal {
    alloc: Global,
    is_quiet: bool,
    lines: Mutex<Lines>,
}

/// The line of this text: the second that it is, in UTC, and the text.
fn line_of<R: Clock>(rt: &R, alloc: Global, text: &str) -> Result<String, AllocError> {
    let now = Timestamp::now(rt)
        .ok()
        .and_then(|now| Timestamp::from_second(now.as_second()).ok());
    match now {
        Some(now) => format!(in alloc; "{now} {text}"),
        None => format!(in alloc; "{text}"),
    }
}

impl Journal {
    /// No line yet. A quiet one passes over all that is no fault.
    ///
    /// # Errors
    ///
    /// [`AllocError`] where there is no memory for the queue.
    pub fn new(alloc: Global, is_quiet: bool) -> Result<Journal, AllocError> {
        let lines = Lines::new(alloc)?;
        Ok(Journal {
            alloc,
            is_quiet,
            lines: Mutex::new(lines),
        })
    }

    /// Tells what was asked for or is a fault. A text that is lacking for want of memory counts as dropped.
    pub fn tell<R: Wait + Clock>(&self, rt: &R, text: Result<String, AllocError>) {
        let line = text.and_then(|text| line_of(rt, self.alloc, &text));
        self.lines.lock(rt).put(line.ok());
    }

    /// Tells what is no fault, where it is not to be quiet.
    pub fn note<R: Wait + Clock>(&self, rt: &R, text: Result<String, AllocError>) {
        if !self.is_quiet {
            self.tell(rt, text);
        }
    }

    /// No more lines will be told.
    pub fn close<R: Wait>(&self, rt: &R) {
        self.lines.lock(rt).close();
    }

    /// Takes out what is to be printed next. The lock is not held while it is printed.
    fn turn<R: Wait>(&self, rt: &R) -> Turn {
        self.lines.lock(rt).turn()
    }

    /// Prints the lines on standard error as they come, until the journal is closed and all are printed. Where standard error cannot be
    /// written, they are lost.
    pub fn print_all<R: Wait + Clock + Eprint>(&self, rt: &R) {
        for _ in rt.forever() {
            match self.turn(rt) {
                Turn::Line(line) => {
                    let _printed = eprintln!(rt; "{line}");
                }
                Turn::Dropped(count) => {
                    let _printed = eprintln!(rt; "{count} lines were dropped");
                }
                Turn::Nothing => thread::sleep(rt, Duration::from_millis(PAUSE)),
                Turn::End => return,
            }
        }
        unreachable!()
    }
}
