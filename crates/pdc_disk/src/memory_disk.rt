//! A small disk in memory, which also shows what a stop would leave of it.
ghost use Rattle.std.specs.Prelude.{◌≡◌, ◌⊎◌, ◌+◌, ◌<◌, ◌≤◌, ℕ, false, true, IsTrue, length};
ghost use Rattle.std.specs.Prelude.{slice_index, slice_index_or, IsErr, IsOk, IsOkAnd, OnOk};
ghost use Rattle.std.specs.Prelude.{OnErr, slice_range, ◌↔◌, if◌then◌else◌};
ghost use Rattle.pdc_disk.specs.declared.memory_disk.TheConstants.{MEMORY_LEN};
ghost use Rattle.pdc_disk.specs.Disk.{written, AllSettled, HasCause, IsImage, IsTorn};
ghost use Rattle.pdc_disk.specs.Disk.{StaySettled, StaySettledBut};

use crate::disk::{Disk, DiskFault};

/// The most bytes that a disk in memory holds.
pub const MEMORY_LEN: usize = 256;

/// How a stop leaves the ranges that were written since the last sync.
#[derive(Clone, Copy, Debug, PartialEq, Eq)]
pub enum Landing {
    /// As they were at that sync.
    Before,
    /// As they were written.
    After,
    /// This byte throughout.
    Fill(u8),
}

/// A disk of at most 256 bytes in arrays. It takes no memory, and fails only where a write goes past its
/// last place.
#[derive(Drop)]
pub struct MemoryDisk {
    bytes: [u8; MEMORY_LEN],
    len: usize,
    synced: [u8; MEMORY_LEN],
    synced_len: usize,
    settled: [bool; MEMORY_LEN],
    failures: u64,
    ghost fits: { len ≤ MEMORY_LEN },
    ghost grown: { synced_len ≤ len },
    ghost kept_len: { (i : ℕ) → i < len → IsTrue (slice_index_or settled i true) → i < synced_len },
    ghost kept: { (i : ℕ) → i < synced_len → IsTrue (slice_index_or settled i true)
        → slice_index synced i ≡ slice_index bytes i },
}

impl MemoryDisk {
    ghost use Rattle.pdc_disk.specs.MemoryDisk.{failures_of, is_settled_at, seen_of, synced_of};
    ghost use Rattle.pdc_disk.specs.MemoryDisk.{IsLanded};

    /// A disk with these bytes, which a stop leaves as they are.
    pub fn new(bytes: &[u8]) -> Self
        requires { length bytes.now ≤ MEMORY_LEN }
        ensures seen { seen_of result ≡ bytes.now }
        ensures settled { AllSettled (is_settled_at result) }
        ensures synced { synced_of result ≡ bytes.now }
        ensures failures { failures_of result ≡ 0 }
    {
        let mut held = [0; MEMORY_LEN];
        held[..bytes.len()].copy_from_slice(bytes);
        MemoryDisk {
            bytes: held,
            len: bytes.len(),
            synced: held,
            synced_len: bytes.len(),
            settled: [true; MEMORY_LEN],
            failures: 0,
        }
    }

    /// The bytes that reads give.
    pub fn bytes(&self) -> &[u8]
        ensures { result.now ≡ seen_of self.now }
    {
        &self.bytes[..self.len]
    }

    /// The disk after a stop at this moment, with each range that was written since the last sync as
    /// `landing` says. What it then holds stays.
    pub fn stopped(&self, landing: Landing) -> MemoryDisk
        ensures landed { IsLanded landing self.now (seen_of result) }
        ensures image { IsImage (seen_of self.now) (is_settled_at self.now) (seen_of result) }
        ensures settled { AllSettled (is_settled_at result) }
        ensures synced { synced_of result ≡ seen_of result }
        ensures failures { failures_of result ≡ 0 }
    {
        match landing {
            Landing::Before => MemoryDisk::new(&self.synced[..self.synced_len]),
            Landing::After => MemoryDisk::new(self.bytes()),
            Landing::Fill(byte) => {
                let mut left = self.bytes;
                fill_unsettled(&mut left[..self.len], &self.settled, byte);
                MemoryDisk::new(&left[..self.len])
            }
        }
    }
}

/// Puts this byte wherever the flag is not set.
fn fill_unsettled(bytes: &mut [u8], settled: &[bool], byte: u8)
    requires { length bytes.old ≤ length settled.now }
    ensures len { length bytes.new ≡ length bytes.old }
    ensures filled { (i : ℕ) → i < length bytes.old → slice_index bytes.new i
        ≡ (if slice_index_or settled.now i true then slice_index bytes.old i else byte) }
{
    for i in 0..bytes.len() {
        if !settled[i] {
            bytes[i] = byte;
        }
    }
}

/// Puts these bytes over those from this place on.
fn overwrite(held: &mut [u8], at: usize, bytes: &[u8])
    requires { at + length bytes.now ≤ length held.old }
    ensures { held.new ≡ written held.old at bytes.now }
{
    held[at..at + bytes.len()].copy_from_slice(bytes);
}

/// Takes the flag away from n places from this one on.
fn unsettle(settled: &mut [bool], at: usize, n: usize)
    requires { at + n ≤ length settled.old }
    ensures range { (i : ℕ) → at ≤ i → i < at + n → slice_index_or settled.new i true ≡ false }
    ensures others { (i : ℕ) → (i < at) ⊎ (at + n ≤ i)
        → slice_index_or settled.new i true ≡ slice_index_or settled.old i true }
{
    for i in at..at + n {
        settled[i] = false;
    }
}

/// Sets each flag.
fn settle(settled: &mut [bool])
    ensures { (i : ℕ) → slice_index_or settled.new i true ≡ true }
{
    settled.fill(true);
}

impl Disk for MemoryDisk {
    ghost use Rattle.pdc_disk.specs.MemoryDisk.{failures_of, is_settled_at, seen_of, synced_of};
    ghost use Rattle.pdc_disk.specs.MemoryDisk.{IsUntouched, IsWritten};

    ghost seen = { seen_of };

    ghost is_settled = { is_settled_at };

    ghost failures = { failures_of };

    ghost safe = { MEMORY_LEN };

    fn len(&mut self) -> Result<u64, DiskFault>
        ensures len { IsOkAnd result (λ len. len ≡ length (seen_of self.old)) }
        ensures seen { seen_of self.new ≡ seen_of self.old }
        ensures untouched { IsUntouched self.old self.new }
        ensures settled { StaySettled (is_settled_at self.old) (is_settled_at self.new) }
        ensures cause { HasCause (failures_of self.old) (failures_of self.new) result }
        ensures safe { IsOk result }
    {
        Ok(self.len as u64)
    }

    fn read_at(&mut self, at: u64, out: &mut [u8]) -> Result<(), DiskFault>
        requires { at + length out.old ≤ length (seen_of self.old) }
        ensures bytes { out.new ≡ slice_range (seen_of self.old) at (at + length out.old) }
        ensures seen { seen_of self.new ≡ seen_of self.old }
        ensures untouched { IsUntouched self.old self.new }
        ensures settled { StaySettled (is_settled_at self.old) (is_settled_at self.new) }
        ensures cause { HasCause (failures_of self.old) (failures_of self.new) result }
        ensures safe { IsOk result }
    {
        let start = at as usize;
        out.copy_from_slice(&self.bytes[start..start + out.len()]);
        Ok(())
    }

    fn write_at(&mut self, at: u64, bytes: &[u8]) -> Result<(), DiskFault>
        requires { at ≤ length (seen_of self.old) }
        ensures ok { OnOk result (IsWritten at bytes.now self.old self.new) }
        ensures err { OnErr result (IsUntouched self.old self.new) }
        ensures past { IsErr result ↔ (MEMORY_LEN < at + length bytes.now) }

        ensures written { OnOk result (seen_of self.new ≡ written (seen_of self.old) at bytes.now) }
        ensures torn { IsTorn (seen_of self.old) at (length bytes.now) (seen_of self.new) }
        ensures settled { StaySettledBut at (length bytes.now)
            (is_settled_at self.old) (is_settled_at self.new) }
        ensures cause { HasCause (failures_of self.old) (failures_of self.new) result }
        ensures safe { at + length bytes.now ≤ MEMORY_LEN → IsOk result }
    {
        let start = at as usize;
        if MEMORY_LEN - start < bytes.len() {
            self.failures = self.failures.saturating_add(1);
            return Err(DiskFault);
        }
        let end = start + bytes.len();
        overwrite(&mut self.bytes, start, bytes);
        unsettle(&mut self.settled, start, bytes.len());
        self.len = self.len.max(end);
        Ok(())
    }

    fn sync(&mut self) -> Result<(), DiskFault>
        ensures synced { synced_of self.new ≡ seen_of self.old }
        ensures durable { AllSettled (is_settled_at self.new) }
        ensures seen { seen_of self.new ≡ seen_of self.old }
        ensures settled { StaySettled (is_settled_at self.old) (is_settled_at self.new) }
        ensures cause { HasCause (failures_of self.old) (failures_of self.new) result }
        ensures safe { IsOk result }
    {
        self.synced.copy_from_slice(&self.bytes);
        self.synced_len = self.len;
        settle(&mut self.settled);
        Ok(())
    }

    fn failures(&self) -> u64 {
        self.failures
    }
}
