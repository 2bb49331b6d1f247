//! The lines that wait to be printed.
ghost use Rattle.std.specs.Prelude.{◌≡◌, drop};
ghost use Rattle.pdc_journal.specs.Lines.{dropped_after, told_after, turn_of, untold_after};
ghost use Rattle.pdc_journal.specs.declared.lines.TheConstants.{MOST_WAITING};

use circular_buffer::HeapCircularBuffer;
use std::alloc::{AllocError, Global};

/// How many lines wait at most.
const MOST_WAITING: usize = 256;

/// What is to be printed next.
#[derive(Drop)]
pub enum Turn {
    /// The line that waits longest.
    Line(String),
    /// None waits, and so many were dropped since that was told last.
    Dropped(u64),
    /// None waits.
    Nothing,
    /// None waits, and none will come.
    End,
}

/// The lines that wait, in the order in which they were told.
#[derive(Drop)]
pub struct Lines {
    waiting: HeapCircularBuffer<String>,
    /// How many were dropped since that was told last.
    dropped: u64,
    is_closed: bool,
    ghost room: { waiting.capacity ≡ MOST_WAITING },
}

impl Lines {
    /// No line waits.
    ///
    /// # Errors
    ///
    /// [`AllocError`] where there is no memory.
    pub fn new(alloc: Global) -> Result<Lines, AllocError> {
        Ok(Lines {
            waiting: HeapCircularBuffer::with_capacity(alloc, MOST_WAITING)?,
            dropped: 0,
            is_closed: false,
        })
    }

    /// Puts a line behind those that wait. Where there is no room for it, or no line for want of memory, it is counted as dropped.
    pub fn put(&mut self, line: Option<String>)
        ensures items { self.new.waiting.items ≡ told_after line self.old.waiting.items }
        ensures dropped { self.new.dropped ≡
            dropped_after line self.old.waiting.items self.old.dropped }
        ensures closed { self.new.is_closed ≡ self.old.is_closed }
    {
        let is_put = match line {
            Some(line) => self.waiting.try_push_back(line).is_ok(),
            None => false,
        };
        if !is_put {
            self.dropped = self.dropped.saturating_add(1);
        }
    }

    /// No more lines will be told.
    pub fn close(&mut self) {
        self.is_closed = true;
    }

    /// Takes out what is to be printed next.
    pub fn turn(&mut self) -> Turn
        ensures answer { result ≡ turn_of Turn.Line Turn.Dropped Turn.Nothing Turn.End
            self.old.waiting.items self.old.dropped self.old.is_closed }
        ensures items { self.new.waiting.items ≡ drop 1 self.old.waiting.items }
        ensures dropped { self.new.dropped ≡ untold_after self.old.waiting.items self.old.dropped }
        ensures closed { self.new.is_closed ≡ self.old.is_closed }
    {
        if let Some(line) = self.waiting.pop_front() {
            return Turn::Line(line);
        }
        let dropped = self.dropped;
        self.dropped = 0;
        if dropped > 0 {
            return Turn::Dropped(dropped);
        }
        if self.is_closed {
            Turn::End
        } else {
            Turn::Nothing
        }
    }
}
