//! The sizes of what every configuration has (C37.118.2-2011, table 9).

/// The bytes of a payload beside its sections: TIME_BASE, NUM_PMU and DATA_RATE.
pub(crate) const FIXED_LEN: usize = 8;

/// The bytes of a section before its names: STN, IDCODE, FORMAT, PHNMR, ANNMR and DGNMR.
pub(crate) const SECTION_FIXED_LEN: usize = 26;
