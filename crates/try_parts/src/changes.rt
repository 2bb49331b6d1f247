//! An entry written again, and with any one of its bytes changed.

use pdc_record::{Entry, Unread, read_entry, write_entry};
use std::alloc::{AllocError, Global};

/// How often each answer was given.
#[derive(Clone, Copy, Debug)]
pub struct Answers {
    pub cut: u64,
    pub no_entry: u64,
    pub bad_check: u64,
    /// It was read, as whatever entry.
    pub read: u64,
}

impl Answers {
    fn none() -> Answers {
        Answers {
            cut: 0,
            no_entry: 0,
            bad_check: 0,
            read: 0,
        }
    }

    fn count(&mut self, bytes: &[u8]) {
        match read_entry(bytes) {
            Err(Unread::Cut) => self.cut = self.cut.saturating_add(1),
            Err(Unread::NoEntry) => self.no_entry = self.no_entry.saturating_add(1),
            Err(Unread::BadCheck) => self.bad_check = self.bad_check.saturating_add(1),
            Ok(_) => self.read = self.read.saturating_add(1),
        }
    }
}

/// Whether the entry is written as these bytes.
pub fn is_written_again(alloc: Global, entry: &Entry<'_>, bytes: &[u8]) -> bool {
    let mut out = Vec::new(alloc);
    write_entry(entry, &mut out).is_ok() && out.as_slice() == bytes
}

/// What is told of the bytes with each byte changed in turn to each other value.
pub fn answers_to_changes(alloc: Global, bytes: &[u8]) -> Result<Answers, AllocError> {
    let mut changed = Vec::from_slice(alloc, bytes)?;
    let mut answers = Answers::none();
    for place in 0..changed.len() {
        let was = changed[place];
        for change in 1..=u8::MAX {
            changed[place] = was ^ change;
            answers.count(changed.as_slice());
        }
        changed[place] = was;
    }
    Ok(answers)
}
