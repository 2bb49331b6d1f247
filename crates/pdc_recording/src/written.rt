//! What was written of a record.

use std::sync::atomic::{AtomicBool, AtomicU64, Ordering};

/// What was written of a record: the thread that writes it counts, and others read.
#[derive(Drop)]
pub struct Written {
    /// Whether it is written: not from when that failed until it goes on.
    pub is_written: AtomicBool,
    /// How many bytes were written.
    pub bytes: AtomicU64,
    /// How many gaps it has.
    pub gaps: AtomicU64,
}

impl Written {
    /// It is written, and nothing was yet.
    pub fn new() -> Written {
        Written {
            is_written: AtomicBool::new(true),
            bytes: AtomicU64::new(0),
            gaps: AtomicU64::new(0),
        }
    }

    /// So many bytes more were written.
    pub fn add(&self, bytes: u64) {
        self.bytes.fetch_add(bytes, Ordering::Relaxed);
    }

    /// It has a gap more.
    pub fn count_gap(&self) {
        self.gaps.fetch_add(1, Ordering::Relaxed);
    }

    /// Whether it is written changed.
    pub fn set_written(&self, is_written: bool) {
        self.is_written.store(is_written, Ordering::Relaxed);
    }
}
