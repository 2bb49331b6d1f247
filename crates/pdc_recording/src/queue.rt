//! The entries that wait to be written.
ghost use Rattle.std.specs.Prelude.{◌≡◌, ◌+◌, ◌∷◌, ◌++◌, [], drop, length, if◌then◌else◌};
ghost use Rattle.pdc_recording.specs.Queue.{may_wait, turn_of};
ghost use Rattle.pdc_recording.specs.declared.queue.TheConstants.{MOST_LASTING, MOST_WAITING};

use crate::room::has_room;
use circular_buffer::HeapCircularBuffer;
use std::alloc::{AllocError, Global};

/// How many entries wait at most,
const MOST_WAITING: usize = 16384;

/// and beside them how many that are carried over for the whole life,
const MOST_LASTING: usize = 1024;

/// for which so many bytes are reserved: 8 MiB.
const RESERVED: usize = 8_388_608;

/// Where an entry belongs.
#[derive(Clone, Copy, Debug, PartialEq, Eq)]
pub enum Position {
    /// It is the step with this number.
    Step(u64),
    /// It comes behind the step with this number, and before the next one.
    Behind(u64),
    /// Anywhere.
    Anywhere,
}

/// An entry that waits to be written.
#[derive(Drop)]
pub struct Waiting {
    /// Where it belongs.
    pub place: Position,
    /// Its bytes.
    pub bytes: Vec<u8>,
}

/// What comes out of a recording next.
#[derive(Drop)]
pub enum Turn {
    /// The entry that waits longest.
    Entry(Waiting),
    /// None waits.
    Nothing,
    /// None waits, and none will come.
    End,
}

/// The entries that wait, in the order in which they came.
#[derive(Drop)]
pub struct Queue {
    waiting: HeapCircularBuffer<Waiting>,
    /// How many bytes they have.
    bytes: usize,
    is_closed: bool,
    ghost room: { waiting.capacity ≡ MOST_WAITING + MOST_LASTING },
}

impl Queue {
    /// None waits.
    ///
    /// # Errors
    ///
    /// [`AllocError`] where there is no memory.
    pub fn new(alloc: Global) -> Result<Queue, AllocError> {
        Ok(Queue {
            waiting: HeapCircularBuffer::with_capacity(alloc, MOST_WAITING + MOST_LASTING)?,
            bytes: 0,
            is_closed: false,
        })
    }

    /// Adds an entry behind those that wait, and answers whether there was room; else it is passed over.
    pub fn add(&mut self, waiting: Waiting, is_lasting: bool) -> bool
        ensures answer { result ≡ may_wait (length self.old.waiting.items) self.old.bytes
            (length waiting.bytes.items) is_lasting }
        ensures items { self.new.waiting.items ≡
            (if result then self.old.waiting.items ++ waiting ∷ [] else self.old.waiting.items) }
        ensures closed { self.new.is_closed ≡ self.old.is_closed }
    {
        let len = waiting.bytes.len();
        let has_place = is_lasting || self.waiting.len() < MOST_WAITING;
        let taken = if is_lasting {
            self.bytes
        } else {
            self.bytes.saturating_add(RESERVED)
        };
        if !has_place || !has_room(taken, len) || self.waiting.try_push_back(waiting).is_err() {
            return false;
        }
        self.bytes = self.bytes.saturating_add(len);
        true
    }

    /// No more entries will come.
    pub fn close(&mut self) {
        self.is_closed = true;
    }

    /// Takes out what comes next.
    pub fn turn(&mut self) -> Turn
        ensures answer { result ≡ turn_of self.old.waiting.items self.old.is_closed }
        ensures items { self.new.waiting.items ≡ drop 1 self.old.waiting.items }
        ensures closed { self.new.is_closed ≡ self.old.is_closed }
    {
        match self.waiting.pop_front() {
            Some(waiting) => {
                self.bytes = self.bytes.saturating_sub(waiting.bytes.len());
                Turn::Entry(waiting)
            }
            None if self.is_closed => Turn::End,
            None => Turn::Nothing,
        }
    }
}
