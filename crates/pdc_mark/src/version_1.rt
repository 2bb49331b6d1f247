//! The mark file of version 1, which is read to be converted: two slots of 64 bytes, each a gate, 7 zero bytes, the
//! fields of version 2 that stand before the counts, and 40 zero bytes.
ghost use Rattle.std.specs.Prelude.{◌≡◌, ◌+◌, ◌≤◌, length, replicate, IfErr, IfOk, IsErrOf, IsOk};
ghost use Rattle.std.specs.Prelude.{OnOk};
ghost use Rattle.pdc_disk.specs.Disk.{AllSettled, HasCause, StaySettled};
ghost use Rattle.pdc_mark.specs.declared.layout.TheConstants.{COUNTS, MARK_LEN};
ghost use Rattle.pdc_mark.specs.VersionOne.{converted_file, old_mark_of, open_old_slot};
ghost use Rattle.pdc_mark.specs.VersionOne.{HasOldMark, IsOldRefusal};

use crate::fault::MarkFault;
use crate::layout::{COUNTS, COUNTS_AT, FIELDS_AT, OPEN, SLOT_LEN};
use crate::mark_file::write_file;
use crate::slot::Slot;
use pdc_disk::{Disk, DiskFault};

/// The length of a mark file of version 1, in bytes.
pub const OLD_LEN: usize = 128;

const OLD_SLOT_LEN: usize = 64;

/// Where the fields end in their slot.
const OLD_FIELDS_END: usize = FIELDS_AT + COUNTS_AT;

/// Behind the gate of the slot that begins here, where it is open.
fn open_old_slot(bytes: &[u8], at: usize) -> Option<Slot>
    requires { at + OLD_SLOT_LEN ≤ length bytes.now }
    ensures { result ≡ open_old_slot bytes.now at }
{
    if bytes[at] != OPEN {
        return None;
    }
    let numbers = &bytes[at + FIELDS_AT..at + OLD_FIELDS_END];
    Some(Slot::of_numbers(numbers, [0; COUNTS]))
}

/// The greatest open slot, and the first of equal ones.
fn find_old(bytes: &[u8]) -> Option<Slot>
    requires { length bytes.now ≡ OLD_LEN }
    ensures { result ≡ old_mark_of bytes.now }
{
    match (open_old_slot(bytes, 0), open_old_slot(bytes, OLD_SLOT_LEN)) {
        (None, second) => second,
        (Some(first), Some(second)) if first.stored.is_below(&second.stored) => Some(second),
        (first, _) => first,
    }
}

/// The bytes of a mark file of version 1. A sync comes first, so that a stop leaves what was read.
fn read_old_file<D: Disk>(disk: &mut D) -> Result<[u8; OLD_LEN], MarkFault>
    ensures bytes { IfOk result (λ bytes. bytes ≡ D.seen disk.old) }
    ensures size { OnOk result (length (D.seen disk.old) ≡ OLD_LEN) }
    ensures failures { OnOk result (D.failures disk.new ≡ D.failures disk.old) }
    ensures refusal { IfErr result
        (IsOldRefusal (D.seen disk.old) (D.failures disk.old) (D.failures disk.new)) }
    ensures seen { D.seen disk.new ≡ D.seen disk.old }
    ensures settled { StaySettled (D.is_settled disk.old) (D.is_settled disk.new) }
    ensures safe { OLD_LEN ≤ D.safe → IsErrOf result MarkFault.Device → ⊥ }
{
    disk.sync()?;
    if disk.len()? != OLD_LEN as u64 {
        return Err(MarkFault::NoMark);
    }
    let mut bytes = [0; OLD_LEN];
    disk.read_at(0, &mut bytes)?;
    Ok(bytes)
}

/// The mark of a file of version 1, whose counts are 0. It may be of any owner.
#[derive(Clone, Copy, Debug, PartialEq, Eq)]
pub struct OldMark {
    slot: Slot,
    ghost zero: { slot.stored.counts ≡ replicate COUNTS 0 },
}

impl OldMark {
    ghost use Rattle.pdc_mark.specs.OldMark.{slot_in_old};
    ghost use Rattle.pdc_mark.specs.Slots.{HasJust};

    /// Reads the mark.
    ///
    /// # Errors
    ///
    /// The first whose cause holds: `Device`, `NoMark` where the disk hasn't 128 bytes, `Damaged` where no slot is open.
    pub fn read<D: Disk>(disk: &mut D) -> Result<OldMark, MarkFault>
        ensures mark { IfOk result (λ mark. HasOldMark (D.seen disk.old) (Some (slot_in_old mark))) }
        ensures failures { OnOk result (D.failures disk.new ≡ D.failures disk.old) }
        ensures refusal { IfErr result
            (IsOldRefusal (D.seen disk.old) (D.failures disk.old) (D.failures disk.new)) }
        ensures seen { D.seen disk.new ≡ D.seen disk.old }
        ensures settled { StaySettled (D.is_settled disk.old) (D.is_settled disk.new) }
        ensures safe { OLD_LEN ≤ D.safe → IsErrOf result MarkFault.Device → ⊥ }
    {
        let bytes = read_old_file(disk)?;
        let slot = find_old(&bytes).ok_or(MarkFault::Damaged)?;
        Ok(OldMark { slot })
    }

    /// The start number and the floor.
    pub fn stored(&self) -> (u32, u64)
        ensures { result ≡ (
          (slot_in_old self.now).stored.start,
          (slot_in_old self.now).stored.floor,
        ) }
    {
        (self.slot.stored.start, self.slot.stored.floor)
    }

    /// Writes the mark as a file of version 2, over whatever the disk holds.
    ///
    /// # Errors
    ///
    /// The disk failed.
    pub fn write<D: Disk>(&self, disk: &mut D) -> Result<(), DiskFault>
        requires { length (D.seen disk.old) ≤ MARK_LEN }
        ensures file { OnOk result (D.seen disk.new ≡ converted_file (slot_in_old self.now)) }
        ensures mark { OnOk result (HasJust (slot_in_old self.now) (D.seen disk.new)) }
        ensures durable { OnOk result (AllSettled (D.is_settled disk.new)) }
        ensures cause { HasCause (D.failures disk.old) (D.failures disk.new) result }
        ensures safe { MARK_LEN ≤ D.safe → IsOk result }
    {
        write_file(disk, &self.slot.bytes(OPEN), &[0; SLOT_LEN])
    }
}
