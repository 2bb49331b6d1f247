//! Entries in the order of their numbers.
ghost use Rattle.std.specs.Prelude.{◌≡◌, ◌⊎◌, None, Some, false, length, true};
ghost use Rattle.std.specs.BTreeMap.{insert_entry};
ghost use Rattle.std.specs.Ordering.{nat_cmp};
ghost use Rattle.pdc_recording.specs.Ordering.{held_behind, is_awaited, is_let_through, key_of};
ghost use Rattle.pdc_recording.specs.Ordering.{next_behind, ready_of};
ghost use Rattle.pdc_recording.specs.declared.ordering.Ready.TheVariants.{Bytes};

use crate::queue::{Position, Waiting};
use crate::room::MOST_BYTES;
use std::alloc::Global;
use std::collections::BTreeMap;

/// How many entries are held back at most for a step that is not there yet.
const MOST_HELD: usize = 8192;

/// What is to be written next.
#[derive(Drop)]
pub enum Ready {
    /// These bytes of an entry.
    Bytes(Vec<u8>),
    /// That the steps from the first number up to the one before the second are not there.
    Gap(u64, u64),
}

/// Brings entries into the order of their numbers. Receivers and aligner hand them on side by side, so that one may come a little after the
/// step that followed it. An entry whose step was given up, or which is no step, is let through at once.
#[derive(Drop)]
pub struct Ordering {
    /// The number of the step that is to be written next.
    next: u64,
    /// By twice their number, and one more for what comes behind a step.
    held: BTreeMap<u64, Vec<u8>>,
    /// How many bytes these have.
    bytes: usize,
    /// Steps are held back for one that is not there yet.
    waits: bool,
}

impl Ordering {
    /// The first step has number 0.
    pub fn new(alloc: Global) -> Ordering {
        Ordering {
            next: 0,
            held: BTreeMap::new(alloc),
            bytes: 0,
            waits: false,
        }
    }

    /// The number of the step that is to be written next.
    pub fn next(&self) -> u64 {
        self.next
    }

    /// Whether entries are held back for a step that is not there yet.
    pub fn waits(&self) -> bool {
        self.waits
    }

    /// Takes an entry, and gives it back where it is to be written at once.
    pub fn take(&mut self, waiting: Waiting) -> Option<Vec<u8>>
        ensures let_through { is_let_through waiting.place self.old.next ≡ true →
            (result ≡ Some waiting.bytes) × (self.new.held.entries ≡ self.old.held.entries) }
        // For want of memory it is lacking.
        ensures held { is_let_through waiting.place self.old.next ≡ false →
            (result ≡ None) × ((self.new.held.entries ≡ insert_entry nat_cmp self.old.held.entries
            (key_of waiting.place) waiting.bytes)
            ⊎ (self.new.held.entries ≡ self.old.held.entries)) }
        ensures next { self.new.next ≡ self.old.next }
    {
        let Waiting { place, bytes } = waiting;
        let (step, behind) = match place {
            Position::Step(step) => (step, 0),
            Position::Behind(step) => (step, 1),
            Position::Anywhere => return Some(bytes),
        };
        if step < self.next {
            return Some(bytes);
        }
        let key = step.saturating_mul(2).saturating_add(behind);
        self.bytes = self.bytes.saturating_add(bytes.len());
        let _held = self.held.insert(key, bytes);
        None
    }

    /// What is to be written next; none where it is not there yet, and is waited for. Where it is given up, or too many wait for it, the
    /// gap is told.
    pub fn ready(&mut self, gives_up: bool) -> Option<Ready>
        ensures answer { result ≡ ready_of self.old.held.entries self.old.next
            (is_awaited gives_up (length self.old.held.entries) self.old.bytes) Bytes }
        ensures held { self.new.held.entries ≡ held_behind self.old.held.entries self.old.next }
        ensures next { self.new.next ≡ next_behind self.old.held.entries self.old.next
            (is_awaited gives_up (length self.old.held.entries) self.old.bytes) }
    {
        let (first, _) = self.held.first_key_value()?;
        let step = *first / 2;
        if step > self.next {
            if !gives_up && self.held.len() < MOST_HELD && self.bytes <= MOST_BYTES {
                self.waits = true;
                return None;
            }
            let from = self.next;
            self.next = step;
            return Some(Ready::Gap(from, step));
        }
        self.waits = false;
        let (key, bytes) = self.held.pop_first()?;
        self.bytes = self.bytes.saturating_sub(bytes.len());
        if key % 2 == 0 {
            self.next = self.next.saturating_add(1);
        }
        Some(Ready::Bytes(bytes))
    }
}
