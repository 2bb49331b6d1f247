//! Where a consumer stands in the stream.
ghost use Rattle.std.specs.Prelude.{◌≡◌};
ghost use Rattle.pdc_server.specs.Places.{seen_after};

use crate::stamp::{Stamp, is_stamp};

/// What a consumer has of the stream's layouts.
#[derive(Clone, Copy, Debug)]
pub enum Seen {
    /// No layout frame, and no data frame.
    Nothing,
    /// The last layout frame, where there is one, is of this layout, and so is each data frame behind it.
    Layout(Stamp),
    /// Layout frames of several layouts, and it is not known which came last: another comes before the next data frame.
    Unsure,
}

/// Where a consumer stands in the stream.
#[derive(Clone, Copy, Debug)]
pub struct Place {
    /// Up to which instant it got data, at first 0.
    pub got: u64,
    /// What it has of layouts.
    pub seen: Seen,
}

/// What a consumer has of layouts once replies were made of a layout, if any were.
pub(crate) fn seen_after(seen: Seen, replied: Option<Stamp>) -> Seen
    ensures { result ≡ seen_after seen replied }
{
    let Some(stamp) = replied else {
        return seen;
    };
    match seen {
        Seen::Nothing => Seen::Layout(stamp),
        Seen::Layout(before) => {
            if is_stamp(before, stamp) {
                Seen::Layout(before)
            } else {
                Seen::Unsure
            }
        }
        Seen::Unsure => Seen::Unsure,
    }
}
