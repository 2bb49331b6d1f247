//! Why a frame is not a configuration.
ghost use Rattle.std.specs.Prelude.{◌≡◌};
ghost use Rattle.pdc_cfg.specs.Texts.{cfg_fault};

use std::error::Error;
use std::fmt;

/// Why a frame is not a configuration: the first cause in reading order. It prints as its code and its name.
#[derive(Clone, Copy, Debug, PartialEq, Eq)]
pub enum CfgFault {
    /// The frame is neither CFG-1 nor CFG-2.
    WrongKind,
    /// A field passes the end, or bytes are left over.
    Cut,
    /// NUM_PMU is not 1 to 17, or a section has more than 32 phasors, 32 analog values or 8 digital words.
    TooMany,
    /// FORMAT asks for floating-point numbers.
    FloatFormat,
}

impl CfgFault {
    /// Its code and its name.
    pub fn text(self) -> &'static str
        ensures { result.now ≡ cfg_fault self }
    {
        match self {
            CfgFault::WrongKind => "C1 WrongKind",
            CfgFault::Cut => "C2 Cut",
            CfgFault::TooMany => "C3 TooMany",
            CfgFault::FloatFormat => "C4 FloatFormat",
        }
    }
}

impl fmt::Display for CfgFault {
    fn fmt<W: fmt::Write>(&self, f: &mut fmt::Formatter<W>) -> fmt::Result {
        f.write_str(self.text())
    }
}

impl Error for CfgFault {}
