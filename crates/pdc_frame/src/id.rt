//! The id of a stream.
ghost use Rattle.std.specs.Prelude.{◌≡◌, ◌<◌, ◌≤◌, ◌⊎◌, MatchOption};
ghost use Rattle.pdc_frame.specs.declared.limits.TheConstants.{MAX_ID};

use crate::limits::MAX_ID;

/// The IDCODE of a stream, 1 to 65534: the standard reserves 0 and 65535 (C37.118.2-2011, table 2).
#[derive(Clone, Copy, Debug)]
pub struct StreamId {
    /// The number that stands in the frames.
    pub value: u16,
    pub ghost low: { 0 < value },
    pub ghost high: { value ≤ MAX_ID },
}

impl StreamId {
    /// The id with this number, or `None` where the standard reserves it.
    pub fn new(value: u16) -> Option<StreamId>
        ensures { MatchOption result ((value ≡ 0) ⊎ (MAX_ID < value)) (λ id. id.value ≡ value) }
    {
        if value == 0 || value > MAX_ID {
            return None;
        }
        Some(StreamId { value })
    }
}
