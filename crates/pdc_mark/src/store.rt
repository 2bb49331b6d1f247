//! The three steps of a store, of two device calls each: close the gate of the slot that doesn't hold the
//! mark, write the fields behind it, and open it. Each is on the device before the next begins.
ghost use Rattle.std.specs.Prelude.{◌≡◌, ◌≤◌, true, false, IsOk, OnOk};
ghost use Rattle.pdc_disk.specs.Disk.{HasCause, Leaves};
ghost use Rattle.pdc_mark.specs.declared.layout.TheConstants.{CLOSED, MARK_LEN, OPEN};
ghost use Rattle.pdc_mark.specs.Slots.{fields_of, other_of, slot_in, HasEither, HasJust, IsHeld};
ghost use Rattle.pdc_mark.specs.Stored.{is_below};
ghost use Rattle.pdc_mark.specs.Stores.{file_after, with_closed, with_fields, with_gate};

use crate::layout::{CLOSED, FIELDS_AT, OPEN};
use crate::slot::{Place, Slot};
use pdc_disk::{Disk, DiskFault};

/// Closes the gate of the other slot. The mark stands at `held`.
fn close_gate<D: Disk>(disk: &mut D, held: Place) -> Result<(), DiskFault>
    requires { IsHeld (D.seen disk.old) (D.is_settled disk.old) held false }
    ensures bytes { OnOk result (D.seen disk.new ≡
        with_gate (D.seen disk.old) (other_of held) CLOSED) }
    ensures ok { OnOk result (IsHeld (D.seen disk.new) (D.is_settled disk.new) held true) }
    ensures same { OnOk result (slot_in (D.seen disk.new) held ≡ slot_in (D.seen disk.old) held) }
    ensures images { Leaves (D.seen disk.new) (D.is_settled disk.new)
        (HasJust (slot_in (D.seen disk.old) held)) }
    ensures cause { HasCause (D.failures disk.old) (D.failures disk.new) result }
    ensures safe { MARK_LEN ≤ D.safe → IsOk result }
{
    let at = held.other().offset() as u64;
    disk.write_at(at, &[CLOSED])?;
    disk.sync()
}

/// Closes the gate of the other slot where it is open.
///
/// A closed gate isn't closed again: its fields may be torn, and a write to the gate could leave it open.
pub(crate) fn make_ready<D: Disk>(
    disk: &mut D,
    held: Place,
    is_closed: bool,
) -> Result<(), DiskFault>
    requires { IsHeld (D.seen disk.old) (D.is_settled disk.old) held is_closed }
    ensures bytes { OnOk result (D.seen disk.new ≡ with_closed (D.seen disk.old) (other_of held)) }
    ensures ok { OnOk result (IsHeld (D.seen disk.new) (D.is_settled disk.new) held true) }
    ensures same { OnOk result (slot_in (D.seen disk.new) held ≡ slot_in (D.seen disk.old) held) }
    ensures images { Leaves (D.seen disk.new) (D.is_settled disk.new)
        (HasJust (slot_in (D.seen disk.old) held)) }
    ensures cause { HasCause (D.failures disk.old) (D.failures disk.new) result }
    ensures safe { MARK_LEN ≤ D.safe → IsOk result }
{
    if !is_closed {
        return close_gate(disk, held);
    }
    Ok(())
}

/// Writes the fields behind the closed gate of the other slot.
fn write_fields<D: Disk>(disk: &mut D, held: Place, next: Slot) -> Result<(), DiskFault>
    requires { IsHeld (D.seen disk.old) (D.is_settled disk.old) held true }
    ensures bytes { OnOk result
        (D.seen disk.new ≡ with_fields (D.seen disk.old) (other_of held) (fields_of next)) }
    ensures ok { OnOk result (IsHeld (D.seen disk.new) (D.is_settled disk.new) held true) }
    ensures same { OnOk result (slot_in (D.seen disk.new) held ≡ slot_in (D.seen disk.old) held) }
    ensures next { OnOk result (slot_in (D.seen disk.new) (other_of held) ≡ next) }
    ensures images { Leaves (D.seen disk.new) (D.is_settled disk.new)
        (HasJust (slot_in (D.seen disk.old) held)) }
    ensures cause { HasCause (D.failures disk.old) (D.failures disk.new) result }
    ensures safe { MARK_LEN ≤ D.safe → IsOk result }
{
    let at = (held.other().offset() + FIELDS_AT) as u64;
    disk.write_at(at, &next.fields())?;
    disk.sync()
}

/// Opens the gate of the other slot, whose fields are above the mark. They are the mark from then on.
fn open_gate<D: Disk>(disk: &mut D, held: Place) -> Result<(), DiskFault>
    requires held { IsHeld (D.seen disk.old) (D.is_settled disk.old) held true }
    requires below { is_below (slot_in (D.seen disk.old) held).stored
        (slot_in (D.seen disk.old) (other_of held)).stored ≡ true }
    ensures bytes { OnOk result (D.seen disk.new ≡
        with_gate (D.seen disk.old) (other_of held) OPEN) }
    ensures ok { OnOk result (IsHeld (D.seen disk.new) (D.is_settled disk.new) (other_of held)
        false) }
    ensures next { OnOk result
        (slot_in (D.seen disk.new) (other_of held) ≡ slot_in (D.seen disk.old) (other_of held)) }
    ensures images { Leaves (D.seen disk.new) (D.is_settled disk.new)
        (HasEither (slot_in (D.seen disk.old) held) (slot_in (D.seen disk.old) (other_of held))) }
    ensures cause { HasCause (D.failures disk.old) (D.failures disk.new) result }
    ensures safe { MARK_LEN ≤ D.safe → IsOk result }
{
    let at = held.other().offset() as u64;
    disk.write_at(at, &[OPEN])?;
    disk.sync()
}

/// Stores a mark above the one at `held` in the other slot, whose gate is closed on the device or is open.
pub(crate) fn store<D: Disk>(
    disk: &mut D,
    held: Place,
    is_closed: bool,
    next: Slot,
) -> Result<(), DiskFault>
    requires held { IsHeld (D.seen disk.old) (D.is_settled disk.old) held is_closed }
    requires below { is_below (slot_in (D.seen disk.old) held).stored next.stored ≡ true }
    ensures bytes { OnOk result (D.seen disk.new ≡ file_after (D.seen disk.old) next) }
    ensures ok { OnOk result (IsHeld (D.seen disk.new) (D.is_settled disk.new) (other_of held)
        false) }
    ensures next { OnOk result (slot_in (D.seen disk.new) (other_of held) ≡ next) }
    ensures images { Leaves (D.seen disk.new) (D.is_settled disk.new)
        (HasEither (slot_in (D.seen disk.old) held) next) }
    ensures cause { HasCause (D.failures disk.old) (D.failures disk.new) result }
    ensures safe { MARK_LEN ≤ D.safe → IsOk result }
{
    make_ready(disk, held, is_closed)?;
    write_fields(disk, held, next)?;
    open_gate(disk, held)
}
