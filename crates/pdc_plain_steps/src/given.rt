//! What is given to a life.
ghost use Rattle.std.specs.Prelude.{◌≤◌};
ghost use Rattle.pdc_life.specs.pdc_row.declared.limits.TheConstants.{MAX_PMUS};

use pdc_life::{MAX_PMUS, WaitKind};
use pdc_row::Output;

/// All that a life needs to know of settings, and what it begins with.
#[derive(Clone, Copy, Debug)]
pub struct Given {
    /// What the frames say that go out.
    pub output: Output,
    /// How long an open instant waits, in ticks or in instants.
    pub wait: u64,
    /// What the wait is counted in.
    pub wait_kind: WaitKind,
    /// How far apart held instants may lie: less than this.
    pub window: u64,
    /// How far above now an instant may lie.
    pub ahead: u64,
    /// The number of columns, at most 16.
    pub columns: usize,
    /// The number of lanes: 1 where each column has a stream of its own, 2 where two streams bring cells for all columns.
    pub lanes: usize,
    /// The number of the start.
    pub start: u32,
    /// The instant up to which all is published.
    pub floor: u64,
    /// For each column the count below which no section is held.
    pub counts: [u16; MAX_PMUS],
    /// What counts as now until the first tick.
    pub opening: u64,
    pub ghost few: { columns ≤ MAX_PMUS },
}
