//! What is kept from row to row.
use pdc_block::{FrontDifference, Second};

/// What is kept of the row that was written last: for the next one less is worked out then.
#[derive(Clone, Copy, Debug)]
pub struct LastRow {
    /// The second in which its instant lies.
    pub(crate) second: Second,
    /// What the front of its frame differs in from that of the frame that brought its blocks.
    pub(crate) difference: FrontDifference,
}

impl LastRow {
    /// No row is written yet.
    pub fn new() -> LastRow {
        LastRow {
            second: Second::new(),
            difference: FrontDifference::new(),
        }
    }
}
