//! What a disk is to whoever stores on it: the bytes that reads give, and which of them a stop leaves.
ghost use Rattle.std.specs.Prelude.{◌≡◌, ◌+◌, ◌<◌, ◌≤◌, ℕ, Bool, List, length, IsOk, IfOk, OnOk};
ghost use Rattle.std.specs.Prelude.{slice_range};
ghost use Rattle.pdc_disk.specs.Disk.{written, AllSettled, HasCause, IsTorn, StaySettled};
ghost use Rattle.pdc_disk.specs.Disk.{StaySettledBut};

use thiserror::Error;

/// A call of a disk failed, or what it gave can't be trusted.
#[derive(Clone, Copy, Debug, PartialEq, Eq, Error)]
#[error("device fault")]
pub struct DiskFault;

/// A run of bytes that outlasts a stop.
///
/// A read gives what was last written. Any call may fail. After a stop, each range that was written since
/// the last sync that succeeded holds any bytes, or is missing where it ends the disk, and all other bytes
/// stay. A stop inside a call leaves what the call's failure or its success may leave.
pub trait Disk {
    /// The bytes that reads give.
    ghost seen: { Self → List ℕ };

    /// Whether the byte at a place is the one that a stop leaves there.
    ghost is_settled: { Self → ℕ → Bool };

    /// How often the disk has failed. The count stays at its greatest value.
    ghost failures: { Self → ℕ };

    /// Where this is above 0, `len`, `sync` and each access within that many first bytes succeed.
    ghost safe: { ℕ };

    /// The number of bytes.
    ///
    /// # Errors
    ///
    /// The disk failed, as for each of the four.
    fn len(&mut self) -> Result<u64, DiskFault>
        ensures len { IfOk result (λ len. len ≡ length (seen self.old)) }
        ensures seen { seen self.new ≡ seen self.old }
        ensures settled { StaySettled (is_settled self.old) (is_settled self.new) }
        ensures cause { HasCause (failures self.old) (failures self.new) result }
        ensures safe { 0 < safe → IsOk result };

    /// Fills `out` with the bytes from `at` on, counted from 0. After a fault `out` holds any bytes.
    fn read_at(&mut self, at: u64, out: &mut [u8]) -> Result<(), DiskFault>
        requires { at + length out.old ≤ length (seen self.old) }
        ensures bytes { OnOk result (out.new ≡
            slice_range (seen self.old) at (at + length out.old)) }
        ensures seen { seen self.new ≡ seen self.old }
        ensures settled { StaySettled (is_settled self.old) (is_settled self.new) }
        ensures cause { HasCause (failures self.old) (failures self.new) result }
        ensures safe { 0 < safe → at + length out.old ≤ safe → IsOk result };

    /// Writes over what is there, and past the end. A fault leaves any bytes in the range.
    /// Until a sync, a stop may leave any bytes there.
    fn write_at(&mut self, at: u64, bytes: &[u8]) -> Result<(), DiskFault>
        requires { at ≤ length (seen self.old) }
        ensures written { OnOk result (seen self.new ≡ written (seen self.old) at bytes.now) }
        ensures torn { IsTorn (seen self.old) at (length bytes.now) (seen self.new) }
        ensures settled { StaySettledBut at (length bytes.now)
            (is_settled self.old) (is_settled self.new) }
        ensures cause { HasCause (failures self.old) (failures self.new) result }
        ensures safe { 0 < safe → at + length bytes.now ≤ safe → IsOk result };

    /// Once it has succeeded, a stop leaves what reads give.
    fn sync(&mut self) -> Result<(), DiskFault>
        ensures durable { OnOk result (AllSettled (is_settled self.new)) }
        ensures seen { seen self.new ≡ seen self.old }
        ensures settled { StaySettled (is_settled self.old) (is_settled self.new) }
        ensures cause { HasCause (failures self.old) (failures self.new) result }
        ensures safe { 0 < safe → IsOk result };

    /// How often the disk has failed, up to the greatest number.
    fn failures(&self) -> u64
        ensures { result ≡ failures self.now };
}
