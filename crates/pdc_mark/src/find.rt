//! Which mark a mark file has.
ghost use Rattle.std.specs.Prelude.{◌≡◌, length, IfNone, IfSome};
ghost use Rattle.pdc_mark.specs.declared.layout.TheConstants.{MARK_LEN};
ghost use Rattle.pdc_mark.specs.Slots.{offset_of, open_slot};

use crate::layout::OPEN;
use crate::slot::{Place, Slot};

/// The mark, where it stands, and whether the gate of the other slot is closed.
#[derive(Clone, Copy)]
pub(crate) struct Found {
    pub slot: Slot,
    pub held: Place,
    pub is_other_closed: bool,
}

impl Found {
    ghost use Rattle.pdc_mark.specs.Found.{IsFound};
    ghost use Rattle.pdc_mark.specs.Slots.{mark_of};

    /// The greatest open slot, and the first of equal ones.
    pub fn find(bytes: &[u8]) -> Option<Found>
        requires { length bytes.now ≡ MARK_LEN }
        ensures none { IfNone result (mark_of bytes.now ≡ None) }
        ensures some { IfSome result (IsFound bytes.now) }
    {
        let found = |slot, held, is_other_closed| Some(Found {
            slot,
            held,
            is_other_closed,
        });
        match (
            open_slot(bytes, Place::First),
            open_slot(bytes, Place::Second),
        ) {
            (None, None) => None,
            (Some(first), None) => found(first, Place::First, true),
            (None, Some(second)) => found(second, Place::Second, true),
            (Some(first), Some(second)) if first.stored.is_below(&second.stored) => found(
                second,
                Place::Second,
                false,
            ),
            (Some(first), Some(_)) => found(first, Place::First, false),
        }
    }
}

/// Behind the gate of this slot, where it is open.
fn open_slot(bytes: &[u8], place: Place) -> Option<Slot>
    requires { length bytes.now ≡ MARK_LEN }
    ensures { result ≡ open_slot bytes.now (offset_of place) }
{
    let at = place.offset();
    if bytes[at] == OPEN {
        Some(Slot::read(bytes, at))
    } else {
        None
    }
}
