//! Why bytes are not a frame.
ghost use Rattle.std.specs.Prelude.{◌≡◌};
ghost use Rattle.pdc_frame.specs.Texts.{frame_fault};

use std::error::Error;
use std::fmt;

/// Why bytes are not a frame: the first cause that holds, in this order. It prints as its code and its name.
#[derive(Clone, Copy, Debug, PartialEq, Eq)]
pub enum FrameFault {
    /// There are fewer bytes than a frame without payload has.
    Short,
    /// SYNC is not AA followed by a kind of 0 to 5 and version 1 or 2.
    BadSync,
    /// FRAMESIZE is not the number of bytes.
    SizeMismatch,
    /// CHK is not the check word of the bytes before it.
    BadCheck,
    /// IDCODE is 0 or 65535, which the standard reserves.
    BadId,
}

impl FrameFault {
    /// Its code and its name.
    pub fn text(self) -> &'static str
        ensures { result.now ≡ frame_fault self }
    {
        match self {
            FrameFault::Short => "F1 Short",
            FrameFault::BadSync => "F2 BadSync",
            FrameFault::SizeMismatch => "F3 SizeMismatch",
            FrameFault::BadCheck => "F4 BadCheck",
            FrameFault::BadId => "F5 BadId",
        }
    }
}

impl fmt::Display for FrameFault {
    fn fmt<W: fmt::Write>(&self, f: &mut fmt::Formatter<W>) -> fmt::Result {
        f.write_str(self.text())
    }
}

impl Error for FrameFault {}
