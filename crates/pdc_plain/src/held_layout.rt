//! A layout that the merger holds.
ghost use Rattle.std.specs.Prelude.{◌≤◌, length};
ghost use Rattle.pdc_life.specs.pdc_row.declared.limits.TheConstants.{MAX_PMUS};

use pdc_arrival::{ColumnSection, Stamp};

/// The layout of a node that was accepted last.
#[derive(Clone, Copy, Debug)]
pub struct HeldLayout<'l, 'a> {
    /// Its stamp.
    pub stamp: Stamp,
    /// Its sections of PMUs, each beside its column, at most 16.
    pub sections: &'l [ColumnSection<'a>],
    pub ghost few: { length sections.now ≤ MAX_PMUS },
}
