//! A mark on a disk in memory, into whose stores a stop may fall.
ghost use Rattle.std.specs.Prelude.{◌≡◌, ◌<◌, true, false, if◌then◌else◌};
ghost use Rattle.std.proofs.Common.{rules};
ghost use Rattle.pdc_disk.specs.Disk.{AllSettled};
ghost use Rattle.pdc_disk.specs.MemoryDisk.{failures_of, is_settled_at, seen_of};
ghost use Rattle.pdc_mark.specs.Counts.{IsRaise};
ghost use Rattle.pdc_mark.specs.Slots.{slot_in, HasJust, IsHeld};
ghost use Rattle.pdc_mark.specs.Stored.{is_below, with_counts, with_floor, with_next_start};
ghost use Rattle.pdc_mark.specs.Stores.{file_stopped, file_torn};

use super::DiskMark;
use crate::layout::{COUNTS, FIELDS_AT};
use crate::mark::Mark;
use crate::slot::{Place, Slot};
use crate::stops::Store;
use crate::store::make_ready;
use crate::stored::Stored;
use pdc_disk::{Disk, Landing, MemoryDisk};

/// What a stop leaves of fields that no sync followed.
const TORN: u8 = 0xA5;

/// The disk after a stop in a store, behind the write of the fields.
fn stopped_in_part(disk: &mut MemoryDisk, held: Place, is_closed: bool, next: Slot) -> MemoryDisk
    requires { IsHeld (seen_of disk.old) (is_settled_at disk.old) held is_closed }
    ensures file { seen_of result ≡ file_torn (seen_of disk.old) }
    ensures mark { HasJust (slot_in (seen_of disk.old) held) (seen_of result) }
    ensures failures { failures_of result ≡ 0 }
{
    make_ready(disk, held, is_closed).unwrap();
    let at = (held.other().offset() + FIELDS_AT) as u64;
    disk.write_at(at, &next.fields()).unwrap();
    disk.stopped(Landing::Fill(TORN))
}

impl DiskMark<MemoryDisk> {
    ghost use Rattle.pdc_mark.specs.DiskMark.{disk_of, mark_on, stored_of, with_stored};

    /// The mark as it is opened on this disk, which has it.
    fn opened(disk: MemoryDisk, slot: Slot) -> Self
        requires mark { HasJust slot (seen_of disk) }
        requires failures { failures_of disk ≡ 0 }
        ensures mark { mark_on result ≡ slot }
        ensures file { seen_of (disk_of result) ≡ seen_of disk }
        ensures settled { AllSettled (is_settled_at (disk_of result)) }
        ensures failures { failures_of (disk_of result) ≡ 0 }
    {
        match DiskMark::open(disk, slot.id, slot.rate) {
            Ok(mark) => mark,
            Err(_) => unreachable!(),
        }
    }

    /// A store that a stop falls into: behind its last device call where it landed, and else behind the write of the
    /// fields.
    fn put_stopped(&mut self, next: Stored, landed: bool)
        requires { is_below (stored_of self.old) next ≡ true }
        ensures mark { mark_on self.new
            ≡ (if landed then with_stored (mark_on self.old) next else mark_on self.old) }
        ensures file { seen_of (disk_of self.new) ≡
            file_stopped landed (seen_of (disk_of self.old)) (mark_on self.new) }
        ensures settled { AllSettled (is_settled_at (disk_of self.new)) }
        ensures failures { failures_of (disk_of self.new) ≡ 0 }
    {
        if landed {
            self.put(next).unwrap();
            self.stopped();
            return;
        }
        let old = self.slot;
        let slot = Slot {
            stored: next,
            ..old
        };
        let disk = stopped_in_part(&mut self.disk, self.held, self.is_other_closed, slot);
        let opened = DiskMark::opened(disk, old);
        self.disk = opened.disk;
        self.slot = opened.slot;
        self.held = opened.held;
        self.is_other_closed = opened.is_other_closed;
    }
}

impl Store for DiskMark<MemoryDisk> {
    ghost use Rattle.pdc_mark.specs.DiskMark.{disk_of, mark_on, stored_of, with_stored};
    ghost use Rattle.pdc_mark.specs.Stops.{IsLeft};

    ghost stops_as = { λ stop before after. IsLeft stop (seen_of (disk_of before))
        (seen_of (disk_of after)) (mark_on after)
        (is_settled_at (disk_of after)) (failures_of (disk_of after)) };

    ghost never_fails = { Prim.search rules };

    ghost never_broken = { λ mark. mark.whole (Prim.search rules) };

    fn stopped(&mut self)
        ensures stored { stored_of self.new ≡ stored_of self.old }
        ensures mark { mark_on self.new ≡ mark_on self.old }
        ensures file { seen_of (disk_of self.new) ≡ seen_of (disk_of self.old) }
        ensures settled { AllSettled (is_settled_at (disk_of self.new)) }
        ensures failures { failures_of (disk_of self.new) ≡ 0 }
    {
        let slot = self.slot;
        *self = DiskMark::opened(self.disk.stopped(Landing::Before), slot);
    }

    fn begin_stopped(&mut self, landed: bool)
        requires { (stored_of self.old).start < u32.MAX }
        ensures stored { stored_of self.new ≡
            (if landed then with_next_start (stored_of self.old) else stored_of self.old) }
        ensures mark { mark_on self.new
            ≡ (if landed then with_stored (mark_on self.old) (with_next_start (stored_of self.old))
            else mark_on self.old) }
        ensures file { seen_of (disk_of self.new) ≡
            file_stopped landed (seen_of (disk_of self.old)) (mark_on self.new) }
        ensures settled { AllSettled (is_settled_at (disk_of self.new)) }
        ensures failures { failures_of (disk_of self.new) ≡ 0 }
    {
        self.put_stopped(self.slot.stored.with_next_start(), landed);
    }

    fn reserve_stopped(&mut self, floor: u64, landed: bool)
        requires { (stored_of self.old).floor < floor }
        ensures stored { stored_of self.new ≡
            (if landed then with_floor (stored_of self.old) floor else stored_of self.old) }
        ensures mark { mark_on self.new
            ≡ (if landed then with_stored (mark_on self.old)
            (with_floor (stored_of self.old) floor) else mark_on self.old) }
        ensures file { seen_of (disk_of self.new) ≡
            file_stopped landed (seen_of (disk_of self.old)) (mark_on self.new) }
        ensures settled { AllSettled (is_settled_at (disk_of self.new)) }
        ensures failures { failures_of (disk_of self.new) ≡ 0 }
    {
        self.put_stopped(self.slot.stored.with_floor(floor), landed);
    }

    fn raise_stopped(&mut self, counts: &[u16; COUNTS], landed: bool)
        requires { IsRaise (stored_of self.old).counts counts.now }
        ensures stored { stored_of self.new ≡
            (if landed then with_counts (stored_of self.old) counts.now else stored_of self.old) }
        ensures mark { mark_on self.new
            ≡ (if landed then with_stored (mark_on self.old)
            (with_counts (stored_of self.old) counts.now) else mark_on self.old) }
        ensures file { seen_of (disk_of self.new) ≡
            file_stopped landed (seen_of (disk_of self.old)) (mark_on self.new) }
        ensures settled { AllSettled (is_settled_at (disk_of self.new)) }
        ensures failures { failures_of (disk_of self.new) ≡ 0 }
    {
        self.put_stopped(self.slot.stored.with_counts(*counts), landed);
    }
}
