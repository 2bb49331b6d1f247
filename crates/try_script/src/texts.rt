//! What scripts are answered.

use pdc_row::DueRow;
use std::alloc::{AllocError, Global};

/// How many rows closed, and behind `change` the change number where columns were adopted.
pub fn tick_text(alloc: Global, closed: u32, change: Option<u32>) -> Result<String, AllocError> {
    match change {
        Some(change) => format!(in alloc; "{closed} change {change}"),
        None => closed.to_string(alloc),
    }
}

/// Its instant, quality and stamp.
pub fn row_text(alloc: Global, row: &DueRow) -> Result<String, AllocError> {
    let (instant, quality) = (row.instant, row.quality);
    format!(in alloc; "{instant}/{quality} ({}, {})", row.start, row.change)
}

/// The counts, with a space between two.
pub fn counts_text(alloc: Global, counts: &[u16]) -> Result<String, AllocError> {
    let mut texts = Vec::new(alloc);
    for count in counts {
        texts.push(count.to_string(alloc)?)?;
    }
    texts.as_slice().join(alloc, " ")
}

/// The length of the frame, its fields before the payload and its check word.
pub fn frame_text(alloc: Global, frame: &[u8]) -> Result<String, AllocError> {
    if frame.len() < 16 {
        return "no frame".to_string(alloc);
    }
    let words = [
        frame.len().to_string(alloc)?,
        hex::encode_upper(alloc, &frame[..14])?,
        hex::encode_upper(alloc, &frame[frame.len() - 2..])?,
    ];
    words.as_slice().join(alloc, " ")
}
