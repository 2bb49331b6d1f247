//! A layout that is kept.
ghost use Rattle.std.specs.Prelude.{◌≤◌, length};
ghost use Rattle.pdc_align.specs.pdc_row.declared.limits.TheConstants.{MAX_PMUS};

use pdc_align::{Held, Section, Stamp};

/// A section of a layout that is kept, beside its column.
#[derive(Debug, Drop)]
pub struct KeptSection {
    /// The number of the column, from 0.
    pub column: usize,
    /// The section.
    pub section: Section,
}

/// A layout that is kept.
#[derive(Debug, Drop)]
pub struct KeptLayout {
    /// The stamp, where a node sent it; a PMU's configuration has none.
    pub stamp: Option<Stamp>,
    /// The sections of PMUs, each beside its column, at most 16.
    pub sections: Held<KeptSection>,
    pub ghost few: { length sections.items ≤ MAX_PMUS },
}
