//! What a configuration says.
ghost use Rattle.std.specs.Prelude.{◌<◌, ◌≤◌, length};
ghost use Rattle.pdc_cfg.specs.declared.config.TheConstants.{MAX_SECTIONS, MAX_TIME_BASE};

use crate::section::SectionView;
use arrayvec::ArrayVec;

/// The most sections of a configuration: 16 PMUs and a concentrator's own.
pub const MAX_SECTIONS: usize = 17;

/// The greatest TIME_BASE, which has 24 bits.
pub const MAX_TIME_BASE: u32 = 0x00FF_FFFF;

/// What a frame CFG-1 or CFG-2 says, its sections lent from it (C37.118.2-2011, table 8).
#[derive(Debug, Drop)]
pub struct ConfigView<'a> {
    /// Bits 31 to 24 of TIME_BASE.
    pub flags: u8,
    /// Bits 23 to 0 of TIME_BASE: the counts of FRACSEC in a second, at most 16777215.
    pub time_base: u32,
    /// What it says of each PMU, 1 to 17 sections.
    pub sections: ArrayVec<SectionView<'a>, MAX_SECTIONS>,
    /// DATA_RATE: above zero frames per second, below zero seconds per frame.
    pub rate: i16,
    pub ghost time_base_fits: { time_base ≤ MAX_TIME_BASE },
    pub ghost some: { 0 < length sections.items },
    pub ghost few: { length sections.items ≤ MAX_SECTIONS },
}
