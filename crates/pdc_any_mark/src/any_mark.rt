//! The mark of a file, of whoever owns it.
ghost use Rattle.std.specs.Prelude.{◌≡◌, ◌≤◌, IfErr, IfOk};
ghost use Rattle.pdc_disk.specs.Disk.{HasCause};
ghost use Rattle.pdc_mark.specs.Faults.{IsRefusal};
ghost use Rattle.pdc_any_mark.specs.declared.any_mark.TheConstants.{SECOND};
ghost use Rattle.pdc_mark.specs.DiskMark.{disk_of, mark_on, StopLeaves};
ghost use Rattle.pdc_mark.specs.Slots.{HasJust};
ghost use Rattle.pdc_any_mark.specs.AnyMark.{slot_of, IsRefusalOfSome};

use jiff::Timestamp;
use pdc_disk::{Disk, DiskFault};
use pdc_mark::{DiskMark, MARK_LEN, Mark, MarkFault, Refused, Stored};
use std::fmt;
use std::fmt::{Display, Formatter};

/// Where the second slot of a mark file begins.
const SECOND: usize = 128;

/// Where the id and the rate stand in their slot, most significant byte first, with what is stored behind them.
const OWNER_AT: usize = 8;

const STORED_AT: usize = 12;

const STORED_END: usize = 56;

/// The gate of a slot that counts.
pub(crate) const OPEN: u8 = 0x5A;

/// What a mark file has. It prints in two lines: owner, start number, floor and the slot in force, and the counts.
#[derive(Clone, Copy, Debug, PartialEq, Eq)]
pub struct AnyMark {
    /// The id of the node or merger that owns it.
    pub id: u16,
    /// Its data rate, in frames a second.
    pub rate: u16,
    /// What is stored.
    pub stored: Stored,
    /// It stands in slot 1 of the file, and not in slot 0.
    pub is_second: bool,
}

/// Who owns a mark.
#[derive(Clone, Copy)]
pub(crate) struct Owner {
    pub id: u16,
    pub rate: u16,
}

/// The bytes of a disk that is as long as a mark file. Of another they are zeros.
fn bytes_of<D: Disk>(disk: &mut D) -> Result<[u8; MARK_LEN], DiskFault>
    ensures seen { D.seen disk.new ≡ D.seen disk.old }
    ensures cause { HasCause (D.failures disk.old) (D.failures disk.new) result }
{
    let mut bytes = [0; MARK_LEN];
    if disk.len()? == MARK_LEN as u64 {
        disk.read_at(0, &mut bytes)?;
    }
    Ok(bytes)
}

/// Whose mark the slot that begins here says it is, whatever its gate.
fn owner_at(bytes: &[u8; MARK_LEN], at: usize) -> Owner
    requires { at ≤ SECOND }
{
    let at = at + OWNER_AT;
    Owner {
        id: u16::from_be_bytes([bytes[at], bytes[at + 1]]),
        rate: u16::from_be_bytes([bytes[at + 2], bytes[at + 3]]),
    }
}

/// Whether slot 1 is in force: the greater of those that are open, by start number, floor and counts, and of equal ones slot 0.
fn is_second_in(bytes: &[u8; MARK_LEN]) -> bool {
    let first = &bytes[STORED_AT..STORED_END];
    let second = &bytes[SECOND + STORED_AT..SECOND + STORED_END];
    bytes[SECOND] == OPEN && (bytes[0] != OPEN || first < second)
}

/// The mark of this owner on the disk, opened and as it is read.
pub(crate) fn mark_of<D: Disk>(disk: D, owner: Owner) -> Result<(DiskMark<D>, AnyMark), Refused<D>>
    ensures same { IfOk result (λ both. slot_of both.1 ≡ mark_on both.0) }
    ensures mark { IfOk result (λ both. HasJust (slot_of both.1) (D.seen disk)) }
    ensures file { IfOk result (λ both. HasJust (mark_on both.0) (D.seen (disk_of both.0))) }
    ensures durable { IfOk result (λ both. StopLeaves both.0 (HasJust (mark_on both.0))) }
    ensures refusal { IfErr result (λ refused. IsRefusal (D.seen disk) owner.id owner.rate
        (D.failures disk) (D.failures refused.disk) refused.fault) }
{
    let mark = DiskMark::open(disk, owner.id, owner.rate)?;
    let (start, floor) = mark.stored();
    let stored = Stored {
        start,
        floor,
        counts: mark.counts(),
    };
    let any = AnyMark {
        id: owner.id,
        rate: owner.rate,
        stored,
        is_second: false,
    };
    Ok((mark, any))
}

impl AnyMark {
    /// Reads the mark of a disk, whoever owns it.
    ///
    /// # Errors
    ///
    /// With the disk, the first whose cause holds: `Device`, `OldMark` where it has 128 bytes, `NoMark` where it hasn't 256, `Damaged` where no slot
    /// is open. The owner that is looked for is that of the slot in force, so `OtherOwner` is not answered (tried, not proved).
    pub fn read<D: Disk + Drop>(mut disk: D) -> Result<AnyMark, Refused<D>>
        ensures mark { IfOk result (λ mark. HasJust (slot_of mark) (D.seen disk)) }
        ensures refusal { IfErr result (λ refused. IsRefusalOfSome (D.seen disk)
            (D.failures disk) (D.failures refused.disk) refused.fault) }
    {
        let Ok(bytes) = bytes_of(&mut disk) else {
            let fault = MarkFault::Device;
            return Err(Refused { fault, disk });
        };
        let is_second = is_second_in(&bytes);
        let at = if is_second { SECOND } else { 0 };
        match mark_of(disk, owner_at(&bytes, at)) {
            Ok((_, mark)) => Ok(AnyMark { is_second, ..mark }),
            Err(refused) => Err(refused),
        }
    }
}

/// The time of the floor, rounded down to milliseconds; `None` where the mark has no rate, or no calendar goes so far.
fn moment_of(floor: u64, rate: u16) -> Option<Timestamp> {
    let rate = u64::from(rate);
    if rate == 0 {
        return None;
    }
    let part = floor % rate * 1000 / rate;
    match i64::try_from((floor / rate).saturating_mul(1000).saturating_add(part)) {
        Ok(millis) => Timestamp::from_millisecond(millis).ok(),
        Err(_) => None,
    }
}

impl Display for AnyMark {
    fn fmt<W: fmt::Write>(&self, f: &mut Formatter<W>) -> fmt::Result {
        let (id, rate, slot) = (self.id, self.rate, u8::from(self.is_second));
        let (start, floor, counts) = (self.stored.start, self.stored.floor, self.stored.counts);
        write!(f, "id={id} rate={rate} start={start} floor={floor} ")?;
        match moment_of(floor, rate) {
            Some(moment) => write!(f, "utc={moment:.3} ")?,
            None => write!(f, "utc=none ")?,
        }
        write!(f, "slot={slot}\ncounts={counts:?}")
    }
}
