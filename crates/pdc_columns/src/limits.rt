//! How large a table may be.
use pdc_row::MAX_PMUS;

/// The most columns: one for each PMU.
pub const MAX_COLUMNS: usize = MAX_PMUS;

/// The most lanes: two nodes.
pub const MAX_LANES: usize = 2;
