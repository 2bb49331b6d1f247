//! Entries on their way to a record.
ghost use Rattle.std.specs.Prelude.{◌≡◌, IfSome};
ghost use Rattle.pdc_record.specs.Entries.{spelling_of};
ghost use Rattle.pdc_record.specs.Told.{fields_of};
ghost use Rattle.pdc_recording.specs.Ordering.{place_of};

use crate::carrying::is_lasting;
use crate::queue::{Position, Queue, Turn, Waiting};
use crate::written::Written;
use pdc_record::{Entry, What, entry_len, write_entry};
use std::alloc::{AllocError, Global};
use std::sync::atomic::{AtomicBool, Ordering};
use std::sync::{Mutex, Wait};

/// The entries of a life that are to be written down. Whoever notes one waits for nothing but a short lock. At most 16384 wait, of 32 MiB at
/// most; what does not fit is lacking in the record. 1024 more may wait of configurations that were held and of ticks that adopted, and 8 MiB
/// are reserved for these, since no later file could be replayed without them.
#[derive(Drop)]
pub struct Recording {
    alloc: Global,
    /// What was written of it.
    pub written: Written,
    /// A configuration that was held, or a tick that adopted, is lacking.
    lacks_lasting: AtomicBool,
    queue: Mutex<Queue>,
}

/// Where an entry belongs.
fn place_of(entry: &Entry<'_>) -> Position
    ensures { result ≡ place_of entry.now.what entry.now.step }
{
    match entry.what {
        What::Arrived { .. }
        | What::NoFrame { .. }
        | What::Ticked { .. }
        | What::FoundNone
        | What::Popped { .. } => Position::Step(entry.step),
        What::Laid { .. } => Position::Behind(entry.step),
        What::Begun(_) | What::Unanswered { .. } | What::Missing { .. } => Position::Anywhere,
    }
}

/// The bytes of an entry; none where it is too long, or there is no memory.
fn bytes_of(alloc: Global, entry: &Entry<'_>) -> Option<Vec<u8>>
    ensures { IfSome result (λ bytes. bytes.items ≡ spelling_of (fields_of entry.now)) }
{
    let mut bytes = Vec::with_capacity(alloc, entry_len(entry)).ok()?;
    match write_entry(entry, &mut bytes) {
        Ok(()) => Some(bytes),
        Err(_) => None,
    }
}

impl Recording {
    /// No entry waits yet.
    ///
    /// # Errors
    ///
    /// [`AllocError`] where there is no memory for the queue.
    pub fn new(alloc: Global) -> Result<Recording, AllocError> {
        let queue = Queue::new(alloc)?;
        Ok(Recording {
            alloc,
            written: Written::new(),
            lacks_lasting: AtomicBool::new(false),
            queue: Mutex::new(queue),
        })
    }

    /// Adds an entry to those that wait, and answers whether there was room and memory.
    fn add<R: Wait>(&self, rt: &R, entry: &Entry<'_>, is_lasting: bool) -> bool {
        let Some(bytes) = bytes_of(self.alloc, entry) else {
            return false;
        };
        let waiting = Waiting {
            place: place_of(entry),
            bytes,
        };
        self.queue.lock(rt).add(waiting, is_lasting)
    }

    /// Notes an entry. Where the queue is full, or there is no memory, it is passed over.
    pub fn note<R: Wait>(&self, rt: &R, entry: &Entry<'_>) {
        let is_lasting = is_lasting(entry);
        if !self.add(rt, entry, is_lasting) && is_lasting {
            self.lacks_lasting.store(true, Ordering::Relaxed);
        }
    }

    /// Whether a configuration that was held, or a tick that adopted, was passed over.
    pub fn lacks_lasting(&self) -> bool {
        self.lacks_lasting.load(Ordering::Relaxed)
    }

    /// No more entries will be noted.
    pub fn close<R: Wait>(&self, rt: &R) {
        self.queue.lock(rt).close();
    }

    /// What comes out next.
    pub fn turn<R: Wait>(&self, rt: &R) -> Turn {
        self.queue.lock(rt).turn()
    }
}
