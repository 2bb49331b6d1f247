//! How many phasors, analog values and digital words a PMU sends.
ghost use Rattle.std.specs.Prelude.{◌≡◌, ◌≤◌};
ghost use Rattle.pdc_cfg.specs.declared.shape.TheConstants.{MAX_PHASORS, MAX_ANALOGS, MAX_DIGITALS};

use crate::section::MAX_SECTION_LEN;

/// The most phasors of a PMU in this profile.
pub const MAX_PHASORS: u8 = 32;

/// The most analog values of a PMU in this profile.
pub const MAX_ANALOGS: u8 = 32;

/// The most digital words of a PMU in this profile.
pub const MAX_DIGITALS: u8 = 8;

/// The most words of a block: STAT, 64 of phasors, FREQ, DFREQ, 32 analog values and 8 digital words.
pub const MAX_WORDS: usize = 107;

/// How many phasors, analog values and digital words a PMU sends: PHNMR, ANNMR and DGNMR of its section
/// (C37.118.2-2011, table 9), within this profile's limits.
#[derive(Clone, Copy, Debug, PartialEq, Eq)]
pub struct Shape {
    /// Phasors, at most 32.
    pub phasors: u8,
    /// Analog values, at most 32.
    pub analogs: u8,
    /// Digital words, at most 8.
    pub digitals: u8,
    pub ghost phasors_fit: { phasors ≤ MAX_PHASORS },
    pub ghost analogs_fit: { analogs ≤ MAX_ANALOGS },
    pub ghost digitals_fit: { digitals ≤ MAX_DIGITALS },
}

/// No values at all: a block of this shape has STAT, FREQ and DFREQ.
impl Default for Shape {
    ghost is_default = { λ shape. (shape.phasors ≡ 0) × (shape.analogs ≡ 0)
        × (shape.digitals ≡ 0) };

    fn default() -> Shape {
        Shape {
            phasors: 0,
            analogs: 0,
            digitals: 0,
        }
    }
}

impl Shape {
    ghost use Rattle.pdc_cfg.specs.Shape.{word_count_of, section_len_of};

    /// The 16-bit words of a block of this shape, 3 to 107.
    #[inline]
    pub fn word_count(self) -> usize
        ensures value { result ≡ word_count_of self }
        ensures most { result ≤ MAX_WORDS }
    {
        3 + 2 * usize::from(self.phasors) + usize::from(self.analogs) + usize::from(self.digitals)
    }

    /// The bytes of a section of this shape, from STN to CFGCNT, 30 to 3390.
    #[inline]
    pub fn section_len(self) -> usize
        ensures value { result ≡ section_len_of self }
        ensures most { result ≤ MAX_SECTION_LEN }
    {
        let (phasors, analogs) = (usize::from(self.phasors), usize::from(self.analogs));
        let digitals = usize::from(self.digitals);
        30 + 16 * (phasors + analogs + 16 * digitals) + 4 * (phasors + analogs + digitals)
    }
}
