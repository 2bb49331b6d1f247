//! The STAT word.
ghost use Rattle.std.specs.Prelude.{◌≡◌, not};

/// What bits 15 and 14 of STAT say of the data (C37.118.2-2011, table 7).
#[derive(Clone, Copy, Debug, PartialEq, Eq)]
pub enum ErrorClass {
    /// 00: good measurement data.
    Good,
    /// 01: an error of the PMU, and no information about the data.
    PmuError,
    /// 10: the PMU is in test mode, or absent data tags have been inserted.
    TestOrAbsent,
    /// 11: an error of the PMU, and the values are not to be used.
    ErrorNoUse,
}

/// The STAT word, the first of each block (C37.118.2-2011, table 7).
#[derive(Clone, Copy, Debug, PartialEq, Eq)]
pub struct Stat(pub u16);

impl Stat {
    ghost use Rattle.pdc_block.specs.Stat.{error_class_of, has_bit};

    /// The error class, bits 15 and 14.
    #[inline]
    pub fn error_class(self) -> ErrorClass
        ensures { result ≡ error_class_of self.0 }
    {
        match self.0 >> 14 {
            0 => ErrorClass::Good,
            1 => ErrorClass::PmuError,
            2 => ErrorClass::TestOrAbsent,
            _ => ErrorClass::ErrorNoUse,
        }
    }

    /// Whether the PMU is in sync with a source of UTC: bit 13 is 0.
    #[inline]
    pub fn in_sync(self) -> bool
        ensures { result ≡ not (has_bit 13 self.0) }
    {
        (self.0 >> 13) % 2 == 0
    }
}
