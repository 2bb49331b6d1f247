//! The stamp of a layout.
ghost use Rattle.std.specs.Prelude.{◌≡◌, true};
ghost use Rattle.pdc_server.specs.Stamps.{is_stamp};

/// The stamp of a layout: the start number of its life, and its change number. Each data frame bears the stamp of its layout in its own
/// block, and each layout frame in its own section.
#[derive(Clone, Copy, Debug)]
pub struct Stamp {
    /// The start number.
    pub start: u32,
    /// The change number.
    pub change: u32,
}

/// Whether two stamps are the same.
pub(crate) fn is_stamp(one: Stamp, other: Stamp) -> bool
    ensures bool { result ≡ is_stamp one other }
    ensures same { result ≡ true → one ≡ other }
{
    one.start == other.start && one.change == other.change
}
