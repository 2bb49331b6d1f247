//! What a stored mark is to whoever opens a life with it.
ghost use Rattle.std.specs.Prelude.{◌≡◌, ◌⊎◌, ◌+◌, ◌<◌, ◌≤◌, ◌↔◌, ℕ, Bool, false, length, IfOk};
ghost use Rattle.std.specs.Prelude.{IsTrue, OnOk, OnErr, IsErrOf, if◌then◌else◌};
ghost use Rattle.pdc_disk.specs.Disk.{HasFailed};
ghost use Rattle.pdc_mark.specs.declared.layout.TheConstants.{COUNTS};
ghost use Rattle.pdc_mark.specs.declared.stored.Stored.{Stored};
ghost use Rattle.pdc_mark.specs.Counts.{IsGreater, IsRaise, raised_to};
ghost use Rattle.pdc_mark.specs.Faults.{HasDeviceCause};
ghost use Rattle.pdc_mark.specs.Stored.{with_counts, with_floor, with_instant, with_next_start};
ghost use Rattle.pdc_mark.specs.Stored.{with_waiting};

use crate::fault::MarkFault;
use crate::greater::{needed_floor, raised};
use crate::layout::COUNTS;

/// A stored start number, floor and counts. The start number counts the lives of one concentrator, everything that it
/// published lies at or below the floor, and no count above those stored was adopted of a PMU.
///
/// After `Device` each store answers `Device`, until the mark is opened again.
pub trait Mark {
    /// What is stored.
    ghost stored: { Self → Stored };

    /// A device fault stands.
    ghost is_broken: { Self → Bool };

    /// How often the device has failed.
    ghost failures: { Self → ℕ };

    /// The device never fails.
    ghost is_safe: { Type 0 };

    /// The start number and the floor.
    fn stored(&self) -> (u32, u64)
        ensures { result ≡ ((stored self.now).start, (stored self.now).floor) };

    /// The counts, one for each PMU in the order of the settings.
    fn counts(&self) -> [u16; COUNTS]
        ensures value { result ≡ (stored self.now).counts }
        ensures len { length result ≡ COUNTS };

    /// Stores the next start number, and the same floor and counts.
    ///
    /// # Errors
    ///
    /// `Device`, and `StartsUsedUp` at 4294967295, where nothing changes.
    fn begin(&mut self) -> Result<u32, MarkFault>
        ensures ok { IfOk result (λ start. (start ≡ (stored self.old).start + 1)
            × (stored self.new ≡ with_next_start (stored self.old))) }
        ensures err { OnErr result (stored self.new ≡ stored self.old) }
        ensures used_up { IsErrOf result MarkFault.StartsUsedUp
            ↔ ((is_broken self.old ≡ false) × ((stored self.old).start ≡ u32.MAX)) }
        ensures faults { OnErr result
            (IsErrOf result MarkFault.Device ⊎ IsErrOf result MarkFault.StartsUsedUp) }
        ensures cause { HasDeviceCause (is_broken self.old) (is_broken self.new)
            (failures self.old) (failures self.new) result }
        ensures safe { is_safe → IsErrOf result MarkFault.Device → ⊥ };

    /// Stores a greater floor, and the same start number and counts.
    ///
    /// # Errors
    ///
    /// `Device`.
    fn reserve(&mut self, floor: u64) -> Result<(), MarkFault>
        requires { (stored self.old).floor < floor }
        ensures ok { OnOk result (stored self.new ≡ with_floor (stored self.old) floor) }
        ensures err { OnErr result (stored self.new ≡ stored self.old) }
        ensures faults { OnErr result (IsErrOf result MarkFault.Device) }
        ensures cause { HasDeviceCause (is_broken self.old) (is_broken self.new)
            (failures self.old) (failures self.new) result }
        ensures safe { is_safe → IsErrOf result MarkFault.Device → ⊥ };

    /// Stores counts of which none is lower and one is greater, and the same start number and floor.
    ///
    /// # Errors
    ///
    /// `Device`.
    fn raise(&mut self, counts: &[u16; COUNTS]) -> Result<(), MarkFault>
        requires { IsRaise (stored self.old).counts counts.now }
        ensures ok { OnOk result (stored self.new ≡ with_counts (stored self.old) counts.now) }
        ensures err { OnErr result (stored self.new ≡ stored self.old) }
        ensures faults { OnErr result (IsErrOf result MarkFault.Device) }
        ensures cause { HasDeviceCause (is_broken self.old) (is_broken self.new)
            (failures self.old) (failures self.new) result }
        ensures safe { is_safe → IsErrOf result MarkFault.Device → ⊥ };

    /// Stores the floor that the instant needs: itself and so many instants behind it, where it is above the floor. Else nothing is
    /// stored, and the mark stays.
    ///
    /// # Errors
    ///
    /// `Device`.
    fn reserve_for(&mut self, instant: u64, lead: u16) -> Result<(), MarkFault>
        requires { instant + lead ≤ u64.MAX }
        ensures ok { OnOk result (stored self.new ≡ with_instant lead instant (stored self.old)) }
        ensures covered { OnOk result (instant ≤ (stored self.new).floor) }
        ensures rises { (stored self.old).floor ≤ (stored self.new).floor }
        ensures err { OnErr result (stored self.new ≡ stored self.old) }
        ensures spared { instant ≤ (stored self.old).floor →
            (self.new ≡ self.old) × OnErr result ⊥ }
        ensures faults { OnErr result (IsErrOf result MarkFault.Device) }
        ensures cause { (stored self.old).floor < instant →
            HasDeviceCause (is_broken self.old) (is_broken self.new)
            (failures self.old) (failures self.new) result }
        ensures device { OnErr result (IsTrue (is_broken self.old) ⊎ HasFailed (failures self.old)
            (failures self.new)) }
        ensures broken { OnOk result (is_broken self.new ≡ is_broken self.old) }
        ensures failures { failures self.old ≤ failures self.new }
        ensures safe { is_safe → OnErr result ⊥ }
    {
        let (_, floor) = self.stored();
        match needed_floor(floor, instant, lead) {
            Some(needed) => self.reserve(needed),
            None => Ok(()),
        }
    }

    /// Stores the greater of each two counts, where that differs from the stored ones. Else nothing is stored, and the mark stays.
    ///
    /// # Errors
    ///
    /// `Device`.
    fn raise_to(&mut self, waiting: &[u16; COUNTS]) -> Result<(), MarkFault>
        ensures ok { OnOk result (stored self.new ≡ with_waiting waiting.now (stored self.old)) }
        ensures greater { OnOk result (IsGreater (stored self.old).counts waiting.now
            (stored self.new).counts) }
        ensures err { OnErr result (stored self.new ≡ stored self.old) }
        ensures spared { (stored self.old).counts ≡ raised_to (stored self.old).counts waiting.now →
            (self.new ≡ self.old) × OnErr result ⊥ }
        ensures faults { OnErr result (IsErrOf result MarkFault.Device) }
        ensures cause { ((stored self.old).counts ≡ raised_to (stored self.old).counts waiting.now →
            ⊥)
            → HasDeviceCause (is_broken self.old) (is_broken self.new) (failures self.old)
            (failures self.new) result }
        ensures device { OnErr result (IsTrue (is_broken self.old) ⊎ HasFailed (failures self.old)
            (failures self.new)) }
        ensures broken { OnOk result (is_broken self.new ≡ is_broken self.old) }
        ensures failures { failures self.old ≤ failures self.new }
        ensures safe { is_safe → OnErr result ⊥ }
    {
        match raised(&self.counts(), waiting) {
            Some(counts) => self.raise(&counts),
            None => Ok(()),
        }
    }

    /// How often the device has failed, up to the greatest number.
    fn failures(&self) -> u64
        ensures { result ≡ failures self.now };
}
