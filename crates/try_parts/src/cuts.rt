//! A record that is cut.

use pdc_record::read_entry;
use std::alloc::{AllocError, Global};

/// Entries behind one another, and where each ends.
#[derive(Drop)]
pub struct Record {
    bytes: Vec<u8>,
    ends: Vec<usize>,
}

impl Record {
    pub fn new(alloc: Global) -> Record {
        Record {
            bytes: Vec::new(alloc),
            ends: Vec::new(alloc),
        }
    }

    pub fn bytes(&self) -> &[u8] {
        self.bytes.as_slice()
    }

    /// Adds the entry that the bytes are.
    pub fn add(&mut self, entry: &[u8]) -> Result<(), AllocError> {
        self.bytes.extend_from_slice(entry)?;
        self.ends.push(self.bytes.len())?;
        Ok(())
    }
}

/// How many entries are read, one behind another, until one is not.
fn entries_read(bytes: &[u8]) -> usize {
    let mut at: usize = 0;
    let mut entries = 0usize;
    for _ in 0..bytes.len() {
        let Some(rest) = bytes.get(at..) else {
            return entries;
        };
        let Ok((_, len)) = read_entry(rest) else {
            return entries;
        };
        at = at.saturating_add(len);
        entries = entries.saturating_add(1);
    }
    entries
}

/// At how many places the record can be cut so that other entries are read than those that end before the cut.
pub fn cuts_that_differ(record: &Record) -> usize {
    let bytes = record.bytes();
    let mut differ = 0usize;
    for cut in 0..bytes.len() {
        let whole = record.ends.iter().filter(|end| **end <= cut).count();
        if entries_read(&bytes[..cut]) != whole {
            differ = differ.saturating_add(1);
        }
    }
    differ
}
