//! A mark file of version 1 becomes one of version 2.
ghost use Rattle.std.specs.Prelude.{◌≡◌, ◌⊎◌, ◌≤◌, length, IfErr, IfOk, IsErrOf, OnOk};
ghost use Rattle.pdc_disk.specs.Disk.{AllSettled, HasFailed, StaySettled};
ghost use Rattle.pdc_mark.specs.declared.layout.TheConstants.{MARK_LEN};
ghost use Rattle.pdc_mark.specs.declared.version_1.TheConstants.{OLD_LEN};
ghost use Rattle.pdc_mark.specs.VersionOne.{IsConverted, IsOldRefusal};

use crate::disk_mark::DiskMark;
use crate::fault::MarkFault;
use crate::version_1::OldMark;
use pdc_disk::Disk;

impl<D: Disk> DiskMark<D> {
    /// Reads the mark of a file of version 1, of any owner, and writes it as a file of version 2 over whatever the new
    /// disk holds. Returns its start number and floor; its counts are 0.
    ///
    /// # Errors
    ///
    /// The first whose cause holds, which leaves the new disk as it is: `Device`, `NoMark` where the old disk hasn't 128
    /// bytes, `Damaged` where none of its slots is open. Then `Device` where the new disk failed.
    pub fn convert<O: Disk>(old_disk: &mut O, new_disk: &mut D) -> Result<(u32, u64), MarkFault>
        requires { length (D.seen new_disk.old) ≤ MARK_LEN }
        ensures converted { IfOk result
            (IsConverted (O.seen old_disk.old) (D.seen new_disk.new)) }
        ensures durable { OnOk result (AllSettled (D.is_settled new_disk.new)) }
        ensures refusal { IfErr result (λ fault.
            (IsOldRefusal (O.seen old_disk.old) (O.failures old_disk.old) (O.failures old_disk.new)
            fault
            × (new_disk.new ≡ new_disk.old))
            ⊎ ((fault ≡ MarkFault.Device)
            × HasFailed (D.failures new_disk.old) (D.failures new_disk.new))) }
        ensures seen { O.seen old_disk.new ≡ O.seen old_disk.old }
        ensures settled { StaySettled (O.is_settled old_disk.old) (O.is_settled old_disk.new) }
        ensures safe { OLD_LEN ≤ O.safe → MARK_LEN ≤ D.safe → IsErrOf result MarkFault.Device → ⊥ }
    {
        let mark = OldMark::read(old_disk)?;
        mark.write(new_disk)?;
        Ok(mark.stored())
    }
}
