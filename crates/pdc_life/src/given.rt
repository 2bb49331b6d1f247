//! What is fixed in a life of a node.
ghost use Rattle.std.specs.Prelude.{◌<◌, ◌≤◌, ◌∷◌, IsTrue, length, map, nat_le};
ghost use Rattle.std.specs.List.{list_all};
ghost use Rattle.pdc_life.specs.Distinct.{are_distinct};
ghost use Rattle.pdc_life.specs.declared.pmu.Pmu.{Pmu as PmuData};
ghost use Rattle.pdc_row.specs.declared.limits.TheConstants.{MAX_PMUS};

use crate::pmu::Pmu;
use crate::timing::Timing;
use arrayvec::ArrayVec;
use pdc_row::{MAX_PMUS, Output};

/// The settings of a node, as far as its answers depend on them.
#[derive(Debug, Drop)]
pub struct Settings {
    /// What the frames say that it publishes.
    pub output: Output,
    /// How long instants are held, and how far apart.
    pub timing: Timing,
    /// The PMUs, 1 to 16, in the order of the columns. Each one's TIME_BASE is at least the rate. No two streams have the same
    /// id, nor two sources, and none of them has the node's own.
    pub pmus: ArrayVec<Pmu, MAX_PMUS>,
    pub ghost some: { 0 < length pmus.items },
    pub ghost few: { length pmus.items ≤ MAX_PMUS },
    pub ghost bases: { IsTrue (list_all (λ (pmu : PmuData). nat_le output.rate pmu.time_base)
        pmus.items) },
    pub ghost streams: { IsTrue (are_distinct (output.id.value ∷
        map (λ (pmu : PmuData). pmu.stream.value) pmus.items)) },
    pub ghost sources: { IsTrue (are_distinct (output.id.value ∷
        map (λ (pmu : PmuData). pmu.source) pmus.items)) },
}
