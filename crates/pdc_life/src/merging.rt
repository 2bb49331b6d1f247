//! What is fixed in a life of the merger.
ghost use Rattle.std.specs.Prelude.{◌<◌, ◌≤◌, ◌&&◌, ◌∷◌, IsTrue, length, nat_le, nat_lt};
ghost use Rattle.std.specs.List.{list_all};
ghost use Rattle.pdc_row.specs.pdc_frame.declared.limits.TheConstants.{MAX_ID};
ghost use Rattle.pdc_row.specs.pdc_frame.declared.tag_limits.TheConstants.{COUNT_LIMIT};
ghost use Rattle.pdc_life.specs.Distinct.{are_distinct};
ghost use Rattle.pdc_row.specs.declared.limits.TheConstants.{MAX_PMUS};

use crate::timing::Timing;
use arrayvec::ArrayVec;
use pdc_row::{MAX_PMUS, Output, StreamId};

/// A node whose stream the merger takes.
#[derive(Clone, Copy, Debug)]
pub struct MergedNode {
    /// The id of the stream that it publishes.
    pub id: StreamId,
    /// The counts of FRACSEC in a second of that stream, from the rate to 16777215.
    pub time_base: u32,
    pub ghost time_base_high: { time_base < COUNT_LIMIT },
}

/// The settings of the merger, as far as its answers depend on them.
#[derive(Debug, Drop)]
pub struct MergerSettings {
    /// What the frames say that it publishes.
    pub output: Output,
    /// How long instants are held, and how far apart.
    pub timing: Timing,
    /// Node A, whose stream is 0.
    pub first: MergedNode,
    /// Node B, whose stream is 1.
    pub second: MergedNode,
    /// The ids of the PMUs' sources, 1 to 65534 each, in the order of the columns: 1 to 16. No two are the same, nor are the
    /// nodes' ids, and none is a node's or the merger's own.
    pub sources: ArrayVec<u16, MAX_PMUS>,
    pub ghost first_base: { output.rate ≤ first.time_base },
    pub ghost second_base: { output.rate ≤ second.time_base },
    pub ghost some: { 0 < length sources.items },
    pub ghost few: { length sources.items ≤ MAX_PMUS },
    pub ghost in_range: { IsTrue (list_all (λ source. nat_lt 0 source && nat_le source MAX_ID)
        sources.items) },
    pub ghost own: { IsTrue (are_distinct (output.id.value ∷ sources.items)) },
    pub ghost distinct: { IsTrue (are_distinct (first.id.value ∷ second.id.value ∷
        sources.items)) },
}
