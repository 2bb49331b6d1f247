//! The record of a run.

use crate::families::{Family, append_single};
use std::alloc::AllocError;
use std::sync::atomic::{AtomicBool, AtomicU64, Ordering};

const WRITTEN: Family = Family {
    name: "pdc_record_written",
    is_counter: false,
    help: "1 while the record is written, 0 since it could not be.",
};

const BYTES: Family = Family {
    name: "pdc_record_bytes_total",
    is_counter: true,
    help: "Bytes that were written to the record.",
};

const GAPS: Family = Family {
    name: "pdc_record_gaps_total",
    is_counter: true,
    help: "Gaps of the record: times that steps were lacking in it.",
};

/// What is metered of a record.
#[derive(Clone, Copy)]
pub struct MeteredRecord<'a> {
    /// Whether it is written.
    pub is_written: &'a AtomicBool,
    /// How many bytes were written.
    pub bytes: &'a AtomicU64,
    /// How many gaps it has.
    pub gaps: &'a AtomicU64,
}

/// Appends whether the record is written, and how many bytes and gaps it has.
pub fn append_record(record: &MeteredRecord<'_>, text: &mut String) -> Result<(), AllocError> {
    let is_written = record.is_written.load(Ordering::Relaxed);
    append_single(WRITTEN, u64::from(is_written), text)?;
    append_single(BYTES, record.bytes.load(Ordering::Relaxed), text)?;
    append_single(GAPS, record.gaps.load(Ordering::Relaxed), text)
}
