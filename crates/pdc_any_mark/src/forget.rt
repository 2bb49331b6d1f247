//! A mark file without the counts of another.
ghost use Rattle.std.specs.Prelude.{◌≡◌, ◌≤◌, length, IfOk};
ghost use Rattle.pdc_mark.specs.declared.layout.TheConstants.{MARK_LEN};
ghost use Rattle.pdc_mark.specs.DiskMark.{disk_of, mark_on, StopLeaves};
ghost use Rattle.pdc_mark.specs.Slots.{HasJust};
ghost use Rattle.pdc_any_mark.specs.AnyMark.{slot_of, without_counts};

use crate::any_mark::{AnyMark, OPEN, Owner, mark_of};
use pdc_disk::{Disk, MemoryDisk};
use pdc_mark::{COUNTS, DiskMark, MarkFault, OLD_LEN, OldMark, Stored};

/// A mark file of version 1, which has no counts: one open slot.
fn file_without_counts(mark: &AnyMark) -> [u8; OLD_LEN] {
    let mut bytes = [0; OLD_LEN];
    bytes[0] = OPEN;
    bytes[8..10].copy_from_slice(&mark.id.to_be_bytes());
    bytes[10..12].copy_from_slice(&mark.rate.to_be_bytes());
    bytes[12..16].copy_from_slice(&mark.stored.start.to_be_bytes());
    bytes[16..24].copy_from_slice(&mark.stored.floor.to_be_bytes());
    bytes
}

impl AnyMark {
    /// The mark of the same owner, start number and floor, with counts 0, in the first slot.
    fn without_counts(&self) -> AnyMark
        ensures { slot_of result ≡ without_counts (slot_of self.now) }
    {
        AnyMark {
            stored: Stored {
                counts: [0; COUNTS],
                ..self.stored
            },
            is_second: false,
            ..*self
        }
    }

    /// Makes the mark file of the same owner, start number and floor, with counts 0, over whatever the disk holds.
    ///
    /// # Errors
    ///
    /// The disk failed, or has not what was written.
    pub fn forget_counts<D: Disk + Drop>(&self, mut disk: D) -> Result<DiskMark<D>, MarkFault>
        requires { length (D.seen disk) ≤ MARK_LEN }
        ensures forgotten { IfOk result (λ made. mark_on made ≡ without_counts (slot_of self.now)) }
        ensures file { IfOk result (λ made. HasJust (mark_on made) (D.seen (disk_of made))) }
        ensures durable { IfOk result (λ made. StopLeaves made (HasJust (mark_on made))) }
    {
        let mut old = MemoryDisk::new(&file_without_counts(self));
        DiskMark::convert(&mut old, &mut disk)?;
        let owner = Owner {
            id: self.id,
            rate: self.rate,
        };
        match mark_of(disk, owner) {
            Ok((made, mark)) => {
                if mark == self.without_counts() {
                    Ok(made)
                } else {
                    Err(MarkFault::Device)
                }
            }
            Err(refused) => Err(refused.fault),
        }
    }
}
