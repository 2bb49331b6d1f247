//! What is given to an alignment.
ghost use Rattle.std.specs.Prelude.{◌≤◌};
ghost use Rattle.pdc_arrival.specs.pdc_row.declared.limits.TheConstants.{MAX_WINDOW, MIN_WINDOW};
ghost use Rattle.pdc_table.specs.pdc_columns.declared.limits.TheConstants.{MAX_COLUMNS, MAX_LANES};

use pdc_arrival::WaitKind;

/// How instants are aligned.
#[derive(Clone, Copy, Debug)]
pub struct Plan {
    /// How long an open instant waits, in ticks or in instants.
    pub wait: u64,
    /// What the wait is counted in.
    pub wait_kind: WaitKind,
    /// How far apart held instants may lie: less than this, 8 to 256 instants.
    pub window: u64,
    /// How far above now an instant may lie.
    pub ahead: u64,
    /// The number of columns, 1 to 16.
    pub columns: usize,
    /// The number of lanes: 1 where each column has a stream of its own, 2 where two streams bring cells for all columns.
    pub lanes: usize,
    pub ghost window_least: { MIN_WINDOW ≤ window },
    pub ghost window_most: { window ≤ MAX_WINDOW },
    pub ghost columns_least: { 1 ≤ columns },
    pub ghost columns_most: { columns ≤ MAX_COLUMNS },
    pub ghost lanes_least: { 1 ≤ lanes },
    pub ghost lanes_most: { lanes ≤ MAX_LANES },
}
