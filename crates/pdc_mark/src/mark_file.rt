//! The mark file as a whole: read as it is opened, and written as it is made.
ghost use Rattle.std.specs.Prelude.{◌≡◌, ◌≤◌, ◌++◌, ℕ, length, IfErr, IfOk, IsErrOf, IsOk, OnOk};
ghost use Rattle.pdc_disk.specs.Disk.{AllSettled, HasCause, StaySettled};
ghost use Rattle.pdc_mark.specs.declared.layout.TheConstants.{MARK_LEN, SLOT_LEN};
ghost use Rattle.pdc_mark.specs.Faults.{IsRefusal};

use crate::fault::MarkFault;
use crate::layout::{MARK_LEN, SLOT_LEN};
use crate::version_1::OLD_LEN;
use pdc_disk::{Disk, DiskFault};

/// The bytes of a mark file. A sync comes first, so that a stop leaves what was read.
pub(crate) fn read_file<D: Disk>(disk: &mut D) -> Result<[u8; MARK_LEN], MarkFault>
    ensures bytes { IfOk result (λ bytes. bytes ≡ D.seen disk.old) }
    ensures size { OnOk result (length (D.seen disk.old) ≡ MARK_LEN) }
    ensures durable { OnOk result (AllSettled (D.is_settled disk.new)) }
    ensures failures { OnOk result (D.failures disk.new ≡ D.failures disk.old) }
    ensures refusal { IfErr result (λ fault. (id rate : ℕ)
        → IsRefusal (D.seen disk.old) id rate (D.failures disk.old) (D.failures disk.new) fault) }
    ensures seen { D.seen disk.new ≡ D.seen disk.old }
    ensures settled { StaySettled (D.is_settled disk.old) (D.is_settled disk.new) }
    ensures safe { MARK_LEN ≤ D.safe → IsErrOf result MarkFault.Device → ⊥ }
{
    disk.sync()?;
    let len = disk.len()?;
    if len == OLD_LEN as u64 {
        return Err(MarkFault::OldMark);
    }
    if len != MARK_LEN as u64 {
        return Err(MarkFault::NoMark);
    }
    let mut bytes = [0; MARK_LEN];
    disk.read_at(0, &mut bytes)?;
    Ok(bytes)
}

/// Writes a whole file of these two slots.
pub(crate) fn write_file<D: Disk>(
    disk: &mut D,
    first: &[u8; SLOT_LEN],
    second: &[u8; SLOT_LEN],
) -> Result<(), DiskFault>
    requires { length (D.seen disk.old) ≤ MARK_LEN }
    ensures bytes { OnOk result (D.seen disk.new ≡ first.now ++ second.now) }
    ensures durable { OnOk result (AllSettled (D.is_settled disk.new)) }
    ensures cause { HasCause (D.failures disk.old) (D.failures disk.new) result }
    ensures safe { MARK_LEN ≤ D.safe → IsOk result }
{
    disk.write_at(0, first)?;
    disk.write_at(SLOT_LEN as u64, second)?;
    disk.sync()
}
