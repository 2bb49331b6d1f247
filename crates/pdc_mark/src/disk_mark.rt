//! A mark on a disk, in two slots.
ghost use Rattle.std.specs.Prelude.{◌≡◌, ◌⊎◌, ◌+◌, ◌<◌, ◌≤◌, ◌↔◌, true, false, length, IsErr};
ghost use Rattle.std.specs.Prelude.{IfErr, IfOk, OnOk, OnErr, IsErrOf};
ghost use Rattle.pdc_disk.specs.Disk.{AllSettled, HasFailed, StaySettled};
ghost use Rattle.pdc_mark.specs.declared.layout.TheConstants.{MARK_LEN};
ghost use Rattle.pdc_mark.specs.Faults.{IsRefusal};
ghost use Rattle.pdc_mark.specs.Found.{IsFound};
ghost use Rattle.pdc_mark.specs.Slots.{slot_in, HasEither, HasJust, IsHeld};
ghost use Rattle.pdc_mark.specs.Counts.{IsRaise};
ghost use Rattle.pdc_mark.specs.Stored.{is_below, with_counts, with_floor, with_next_start};
ghost use Rattle.pdc_mark.specs.Stores.{file_after};

mod stopped;

use crate::fault::MarkFault;
use crate::find::Found;
use crate::layout::{CLOSED, COUNTS, OPEN};
use crate::mark::Mark;
use crate::mark_file::{read_file, write_file};
use crate::slot::{Place, Slot};
use crate::store::store;
use crate::stored::Stored;
use pdc_disk::Disk;

/// The mark on a disk of 256 bytes.
///
/// A stop at any moment leaves the mark that was stored last, or the one that was being stored.
#[derive(Drop)]
pub struct DiskMark<D: Disk> {
    disk: D,
    slot: Slot,
    held: Place,
    is_other_closed: bool,
    is_broken: bool,
    ghost stands: { is_broken ≡ false →
        IsHeld (D.seen disk) (D.is_settled disk) held is_other_closed },
    ghost told: { is_broken ≡ false → slot_in (D.seen disk) held ≡ slot },
    ghost whole: { MARK_LEN ≤ D.safe → is_broken ≡ false },
}

/// Why a disk is refused as a mark, with the disk.
#[derive(Drop)]
pub struct Refused<D> {
    pub fault: MarkFault,
    pub disk: D,
}

impl<D: Disk> DiskMark<D> {
    ghost use Rattle.pdc_mark.specs.DiskMark.{disk_of, first_file, first_mark, is_broken_of};
    ghost use Rattle.pdc_mark.specs.DiskMark.{mark_on, StopLeaves};

    /// Makes the mark file of this id and rate, with start 0, floor 0 and counts 0, over whatever the disk holds.
    ///
    /// # Errors
    ///
    /// `Device`, with the disk.
    pub fn init(mut disk: D, id: u16, rate: u16) -> Result<DiskMark<D>, Refused<D>>
        requires { length (D.seen disk) ≤ MARK_LEN }
        ensures file { IfOk result (λ mark. D.seen (disk_of mark) ≡ first_file id rate) }
        ensures mark { IfOk result (λ mark. mark_on mark ≡ first_mark id rate) }
        ensures durable { IfOk result (λ mark. StopLeaves mark (HasJust (first_mark id rate))) }
        ensures whole { IfOk result (λ mark. is_broken_of mark ≡ false) }
        ensures failures { IfOk result (λ mark. D.failures (disk_of mark) ≡ D.failures disk) }
        ensures refusal { IfErr result (λ refused. (refused.fault ≡ MarkFault.Device)
            × HasFailed (D.failures disk) (D.failures refused.disk)) }
        ensures safe { MARK_LEN ≤ D.safe → IsErr result → ⊥ }
    {
        let slot = Slot {
            id,
            rate,
            stored: Stored::first(),
        };
        match write_file(&mut disk, &slot.bytes(OPEN), &slot.bytes(CLOSED)) {
            Ok(()) => Ok(DiskMark {
                disk,
                slot,
                held: Place::First,
                is_other_closed: true,
                is_broken: false,
            }),
            Err(_) => Err(Refused {
                fault: MarkFault::Device,
                disk,
            }),
        }
    }

    /// Opens the mark of this id and rate.
    ///
    /// A sync comes first, so that a stop leaves what was read.
    ///
    /// # Errors
    ///
    /// With the disk, the first whose cause holds: `Device`, `OldMark` where the disk has 128 bytes, `NoMark` where it
    /// hasn't 256, `Damaged` where no slot is open, `OtherOwner`.
    pub fn open(mut disk: D, id: u16, rate: u16) -> Result<DiskMark<D>, Refused<D>>
        ensures mark { IfOk result (λ mark. HasJust (mark_on mark) (D.seen disk)) }
        ensures owner { IfOk result (λ mark. ((mark_on mark).id ≡ id)
            × ((mark_on mark).rate ≡ rate)) }
        ensures durable { IfOk result (λ mark. StopLeaves mark (HasJust (mark_on mark))) }
        ensures seen { IfOk result (λ mark. D.seen (disk_of mark) ≡ D.seen disk) }
        ensures whole { IfOk result (λ mark. is_broken_of mark ≡ false) }
        ensures failures { IfOk result (λ mark. D.failures (disk_of mark) ≡ D.failures disk) }
        ensures refusal { IfErr result (λ refused. IsRefusal (D.seen disk) id rate
            (D.failures disk) (D.failures refused.disk) refused.fault) }
        ensures refused { IfErr result (λ refused. D.seen refused.disk ≡ D.seen disk) }
        ensures settled { IfErr result (λ refused. StaySettled
            (D.is_settled disk) (D.is_settled refused.disk)) }
        ensures safe { MARK_LEN ≤ D.safe →
            IfErr result (λ refused. refused.fault ≡ MarkFault.Device → ⊥) }
    {
        match find_owned(&mut disk, id, rate) {
            Ok(found) => Ok(DiskMark {
                disk,
                slot: found.slot,
                held: found.held,
                is_other_closed: found.is_other_closed,
                is_broken: false,
            }),
            Err(fault) => Err(Refused { fault, disk }),
        }
    }

    /// Opens the mark again: after a fault the old mark or the one that was being stored, and else the one
    /// that the last store left.
    ///
    /// # Errors
    ///
    /// As `open`; where no fault stands, `Device` alone.
    pub fn reopen(self) -> Result<DiskMark<D>, Refused<D>>
        ensures mark { IfOk result (λ mark. HasJust (mark_on mark) (D.seen (disk_of self))) }
        ensures owner { IfOk result (λ mark. ((mark_on mark).id ≡ (mark_on self).id)
            × ((mark_on mark).rate ≡ (mark_on self).rate)) }
        ensures seen { IfOk result (λ mark. D.seen (disk_of mark) ≡ D.seen (disk_of self)) }
        ensures failures { IfOk result (λ mark. D.failures (disk_of mark) ≡
            D.failures (disk_of self)) }
        ensures same { is_broken_of self ≡ false →
            IfOk result (λ mark. mark_on mark ≡ mark_on self) }
        ensures only_device { is_broken_of self ≡ false
            → IfErr result (λ refused. refused.fault ≡ MarkFault.Device) }
        ensures durable { IfOk result (λ mark. StopLeaves mark (HasJust (mark_on mark))) }
        ensures whole { IfOk result (λ mark. is_broken_of mark ≡ false) }
        ensures refusal { IfErr result (λ refused. IsRefusal
            (D.seen (disk_of self)) (mark_on self).id (mark_on self).rate
            (D.failures (disk_of self)) (D.failures refused.disk) refused.fault) }
        ensures refused { IfErr result (λ refused. D.seen refused.disk ≡ D.seen (disk_of self)) }
        ensures settled { IfErr result (λ refused. StaySettled
            (D.is_settled (disk_of self)) (D.is_settled refused.disk)) }
        ensures safe { MARK_LEN ≤ D.safe →
            IfErr result (λ refused. refused.fault ≡ MarkFault.Device → ⊥) }
    {
        DiskMark::open(self.disk, self.slot.id, self.slot.rate)
    }

    /// The disk, as the stores left it.
    pub fn into_disk(self) -> D
        ensures disk { result ≡ disk_of self }
        ensures kept { is_broken_of self ≡ false → HasJust (mark_on self) (D.seen result) }
    {
        self.disk
    }
}

impl<D: Disk> DiskMark<D> {
    ghost use Rattle.pdc_mark.specs.DiskMark.{disk_of, is_broken_of, mark_on, stored_of};
    ghost use Rattle.pdc_mark.specs.DiskMark.{with_stored, HasCauseOnDisk, StopLeaves};

    /// Stores a greater mark of the same owner. After a fault the mark is broken.
    fn put(&mut self, next: Stored) -> Result<(), MarkFault>
        requires { is_below (stored_of self.old) next ≡ true }
        ensures ok { OnOk result (mark_on self.new ≡ with_stored (mark_on self.old) next) }
        ensures err { OnErr result (mark_on self.new ≡ mark_on self.old) }
        ensures file { OnOk result (D.seen (disk_of self.new) ≡
            file_after (D.seen (disk_of self.old)) (mark_on self.new)) }
        ensures faults { OnErr result (IsErrOf result MarkFault.Device) }
        ensures cause { HasCauseOnDisk self.old self.new result }
        ensures safe { MARK_LEN ≤ D.safe → IsErrOf result MarkFault.Device → ⊥ }
        ensures standing { is_broken_of self.old ≡ true → disk_of self.new ≡ disk_of self.old }
        ensures images { is_broken_of self.old ≡ false → StopLeaves self.new
            (HasEither (mark_on self.old) (with_stored (mark_on self.old) next)) }
        ensures after { OnOk result (StopLeaves self.new (HasJust (mark_on self.new))) }
    {
        if self.is_broken {
            return Err(MarkFault::Device);
        }
        let slot = Slot {
            stored: next,
            ..self.slot
        };
        let Ok(()) = store(&mut self.disk, self.held, self.is_other_closed, slot) else {
            self.is_broken = true;
            return Err(MarkFault::Device);
        };
        self.slot = slot;
        self.held = self.held.other();
        self.is_other_closed = false;
        Ok(())
    }
}

impl<D: Disk> Mark for DiskMark<D> {
    ghost use Rattle.pdc_mark.specs.DiskMark.{disk_of, is_broken_of, mark_on, stored_of};
    ghost use Rattle.pdc_mark.specs.DiskMark.{with_stored, HasCauseOnDisk, StopLeaves};

    ghost stored = { stored_of };

    ghost is_broken = { is_broken_of };

    ghost failures = { λ mark. D.failures (disk_of mark) };

    ghost is_safe = { MARK_LEN ≤ D.safe };

    /// The start number and the floor. Where no fault stands, whatever a stop leaves has them.
    fn stored(&self) -> (u32, u64)
        ensures stored { result ≡ ((stored_of self.now).start, (stored_of self.now).floor) }
        ensures kept { is_broken_of self.now ≡ false
            → StopLeaves self.now (HasJust (mark_on self.now)) }
    {
        (self.slot.stored.start, self.slot.stored.floor)
    }

    fn counts(&self) -> [u16; COUNTS] {
        self.slot.stored.counts
    }

    fn begin(&mut self) -> Result<u32, MarkFault>
        ensures ok { IfOk result (λ start. (start ≡ (stored_of self.old).start + 1)
            × (stored_of self.new ≡ with_next_start (stored_of self.old))) }
        ensures err { OnErr result (stored_of self.new ≡ stored_of self.old) }
        ensures used_up { IsErrOf result MarkFault.StartsUsedUp
            ↔ ((is_broken_of self.old ≡ false) × ((stored_of self.old).start ≡ u32.MAX)) }
        ensures faults { OnErr result
            (IsErrOf result MarkFault.Device ⊎ IsErrOf result MarkFault.StartsUsedUp) }
        ensures cause { HasCauseOnDisk self.old self.new result }
        ensures safe { MARK_LEN ≤ D.safe → IsErrOf result MarkFault.Device → ⊥ }

        // The mark has the same owner.
        ensures mark { OnOk result (mark_on self.new ≡
            with_stored (mark_on self.old) (with_next_start (stored_of self.old))) }
        ensures mark_err { OnErr result (mark_on self.new ≡ mark_on self.old) }

        // After `Ok` its fields stand in the slot that didn't hold the old one, behind an open gate.
        ensures file { OnOk result (D.seen (disk_of self.new) ≡
            file_after (D.seen (disk_of self.old)) (mark_on self.new)) }

        // What a stop leaves has the old mark or the new one, and after `Ok` the new one.
        ensures images { is_broken_of self.old ≡ false → StopLeaves self.new
            (HasEither (mark_on self.old) (with_stored (mark_on self.old)
            (with_next_start (stored_of self.old)))) }
        ensures after { OnOk result (StopLeaves self.new (HasJust (mark_on self.new))) }

        // A call that finds a fault standing, or no start number left, makes no device call.
        ensures standing { is_broken_of self.old ≡ true → disk_of self.new ≡ disk_of self.old }
        ensures untouched { IsErrOf result MarkFault.StartsUsedUp
            → disk_of self.new ≡ disk_of self.old }
    {
        if self.is_broken {
            return Err(MarkFault::Device);
        }
        if self.slot.stored.start == u32::MAX {
            return Err(MarkFault::StartsUsedUp);
        }
        self.put(self.slot.stored.with_next_start())?;
        Ok(self.slot.stored.start)
    }

    fn reserve(&mut self, floor: u64) -> Result<(), MarkFault>
        requires { (stored_of self.old).floor < floor }
        ensures ok { OnOk result (stored_of self.new ≡ with_floor (stored_of self.old) floor) }
        ensures err { OnErr result (stored_of self.new ≡ stored_of self.old) }
        ensures faults { OnErr result (IsErrOf result MarkFault.Device) }
        ensures cause { HasCauseOnDisk self.old self.new result }
        ensures safe { MARK_LEN ≤ D.safe → IsErrOf result MarkFault.Device → ⊥ }

        // The mark has the same owner.
        ensures mark { OnOk result (mark_on self.new ≡
            with_stored (mark_on self.old) (with_floor (stored_of self.old) floor)) }
        ensures mark_err { OnErr result (mark_on self.new ≡ mark_on self.old) }

        // After `Ok` its fields stand in the slot that didn't hold the old one, behind an open gate.
        ensures file { OnOk result (D.seen (disk_of self.new) ≡
            file_after (D.seen (disk_of self.old)) (mark_on self.new)) }

        // What a stop leaves has the old mark or the new one, and after `Ok` the new one.
        ensures images { is_broken_of self.old ≡ false → StopLeaves self.new
            (HasEither (mark_on self.old) (with_stored (mark_on self.old)
            (with_floor (stored_of self.old) floor))) }
        ensures after { OnOk result (StopLeaves self.new (HasJust (mark_on self.new))) }

        // A call that finds a fault standing makes no device call.
        ensures standing { is_broken_of self.old ≡ true → disk_of self.new ≡ disk_of self.old }
    {
        self.put(self.slot.stored.with_floor(floor))
    }

    fn raise(&mut self, counts: &[u16; COUNTS]) -> Result<(), MarkFault>
        requires { IsRaise (stored_of self.old).counts counts.now }
        ensures ok { OnOk result (stored_of self.new ≡
            with_counts (stored_of self.old) counts.now) }
        ensures err { OnErr result (stored_of self.new ≡ stored_of self.old) }
        ensures faults { OnErr result (IsErrOf result MarkFault.Device) }
        ensures cause { HasCauseOnDisk self.old self.new result }
        ensures safe { MARK_LEN ≤ D.safe → IsErrOf result MarkFault.Device → ⊥ }

        // The mark has the same owner.
        ensures mark { OnOk result (mark_on self.new ≡
            with_stored (mark_on self.old) (with_counts (stored_of self.old) counts.now)) }
        ensures mark_err { OnErr result (mark_on self.new ≡ mark_on self.old) }

        // After `Ok` its fields stand in the slot that didn't hold the old one, behind an open gate.
        ensures file { OnOk result (D.seen (disk_of self.new) ≡
            file_after (D.seen (disk_of self.old)) (mark_on self.new)) }

        // What a stop leaves has the old mark or the new one, and after `Ok` the new one.
        ensures images { is_broken_of self.old ≡ false → StopLeaves self.new
            (HasEither (mark_on self.old) (with_stored (mark_on self.old)
            (with_counts (stored_of self.old) counts.now))) }
        ensures after { OnOk result (StopLeaves self.new (HasJust (mark_on self.new))) }

        // A call that finds a fault standing makes no device call.
        ensures standing { is_broken_of self.old ≡ true → disk_of self.new ≡ disk_of self.old }
    {
        self.put(self.slot.stored.with_counts(*counts))
    }

    fn failures(&self) -> u64 {
        self.disk.failures()
    }
}

/// The mark of this id and rate, and where it stands.
fn find_owned<D: Disk>(disk: &mut D, id: u16, rate: u16) -> Result<Found, MarkFault>
    ensures found { IfOk result (IsFound (D.seen disk.old)) }
    ensures owner { IfOk result (λ found. (found.slot.id ≡ id) × (found.slot.rate ≡ rate)) }
    ensures size { OnOk result (length (D.seen disk.old) ≡ MARK_LEN) }
    ensures durable { OnOk result (AllSettled (D.is_settled disk.new)) }
    ensures failures { OnOk result (D.failures disk.new ≡ D.failures disk.old) }
    ensures refusal { IfErr result
        (IsRefusal (D.seen disk.old) id rate (D.failures disk.old) (D.failures disk.new)) }
    ensures seen { D.seen disk.new ≡ D.seen disk.old }
    ensures settled { StaySettled (D.is_settled disk.old) (D.is_settled disk.new) }
    ensures safe { MARK_LEN ≤ D.safe → IsErrOf result MarkFault.Device → ⊥ }
{
    let bytes = read_file(disk)?;
    let found = Found::find(&bytes).ok_or(MarkFault::Damaged)?;
    if found.slot.id != id || found.slot.rate != rate {
        return Err(MarkFault::OtherOwner);
    }
    Ok(found)
}
