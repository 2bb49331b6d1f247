//! Why a mark is refused.
ghost use Rattle.std.specs.Prelude.{◌≡◌};

use pdc_disk::DiskFault;
use thiserror::Error;

/// Why a mark is refused. Each prints as its code and its name.
#[derive(Clone, Copy, Debug, PartialEq, Eq, Error)]
pub enum MarkFault {
    /// The disk is not as long as a mark file.
    #[error("M1 NoMark")]
    NoMark,
    /// No slot is open.
    #[error("M2 Damaged")]
    Damaged,
    /// The mark is of another id or rate.
    #[error("M3 OtherOwner")]
    OtherOwner,
    /// The disk failed.
    #[error("M4 Device")]
    Device,
    /// No greater start number is left.
    #[error("M5 StartsUsedUp")]
    StartsUsedUp,
    /// The disk is as long as a mark file of version 1, which is to be converted first.
    #[error("M6 OldMark")]
    OldMark,
}

impl From<DiskFault> for MarkFault {
    ghost use Rattle.pdc_mark.specs.declared.fault.MarkFault.TheVariants.{Device};

    ghost from_gives = { λ _ fault. fault ≡ Device };

    fn from(_: DiskFault) -> Self {
        MarkFault::Device
    }
}
