//! A real file as a disk. What it is known to hold stands beside it, since no contract can see a file.
ghost use Rattle.std.specs.Prelude.{◌≡◌, ◌⊎◌, ◌+◌, ◌<◌, ◌≤◌, ◌^◌, ◌↔◌, false, true, [], length};
ghost use Rattle.std.specs.Prelude.{slice_range, IfOk, IsTrue, OnOk};
ghost use Rattle.pdc_disk.specs.declared.memory_disk.TheConstants.{MEMORY_LEN};
ghost use Rattle.pdc_disk.specs.Disk.{written, AllSettled, HasCause, HasFailed, IsTorn};
ghost use Rattle.pdc_disk.specs.Disk.{StaySettled, StaySettledBut};
ghost use Rattle.pdc_disk.specs.MemoryDisk as memory;

use crate::disk::{Disk, DiskFault};
use crate::locked_file::LockedFile;
use crate::memory_disk::{MEMORY_LEN, MemoryDisk};
use std::fs::{File, OpenOptions};
use std::os::fd::AsRawFd;
use std::os::unix::fs::FileExt;
use std::path::{AsPath, Path};
use std::rt::Files;
use std::{fs, io};

/// A real file, of which the first 256 bytes can be read and written. Nobody else has it meanwhile: its exclusive lock is held for as
/// long as the disk lives.
///
/// A read of other bytes than were last read or written here is a fault, and so is an access past those
/// 256. `sync` reaches the device (fdatasync). After a fault each further call is a fault, since it isn't
/// known what the file holds: open the file again.
#[derive(Drop)]
pub struct FileDisk {
    file: LockedFile,
    known: MemoryDisk,
    untold: u64,
    is_lost: bool,
    failures: u64,
    ghost countable: { length (memory.seen_of known) + untold < 2 ^ 64 },
    ghost full: { 0 < untold → length (memory.seen_of known) ≡ MEMORY_LEN },
}

impl FileDisk {
    ghost use Rattle.pdc_disk.specs.FileDisk.{failures_of, is_lost_of, is_settled_at, seen_of};

    /// Opens a file that exists for reading and writing, and locks it. What it then reads is what the device holds.
    ///
    /// # Errors
    ///
    /// The system can't open it; somebody else has it (`WouldBlock`); the system can't lock, sync or read it.
    pub fn open<R: Files<File = File>, P: AsPath>(files: &R, path: P) -> io::Result<FileDisk>
        ensures settled { IfOk result (λ disk. AllSettled (is_settled_at disk)) }
        ensures whole { IfOk result (λ disk. is_lost_of disk ≡ false) }
        ensures failures { IfOk result (λ disk. failures_of disk ≡ 0) }
    {
        let file = OpenOptions::new().read(true).write(true).open(files, path)?;
        let file = LockedFile::new(file)?;
        settle(file.file())?;
        let len = file.file().metadata()?.len();
        let mut first = [0; MEMORY_LEN];
        let told = len.min(MEMORY_LEN as u64) as usize;
        file.file().read_exact_at(&mut first[..told], 0)?;
        Ok(FileDisk {
            file,
            known: MemoryDisk::new(&first[..told]),
            untold: len - told as u64,
            is_lost: false,
            failures: 0,
        })
    }

    /// Makes an empty file, locks it, and sees to it that its name outlasts a stop too.
    ///
    /// # Errors
    ///
    /// `AlreadyExists` where there is a file, which is left as it is; else the system can't make it, lock it or bring it to the
    /// device, and takes it away again if it can.
    pub fn create<R: Files<File = File>, P: AsPath>(files: &R, path: P) -> io::Result<FileDisk>
        ensures empty { IfOk result (λ disk. seen_of disk ≡ []) }
        ensures settled { IfOk result (λ disk. AllSettled (is_settled_at disk)) }
        ensures whole { IfOk result (λ disk. is_lost_of disk ≡ false) }
        ensures failures { IfOk result (λ disk. failures_of disk ≡ 0) }
    {
        let file = File::create_new(files, path.path_text())?;
        let file = match settled_new(files, file, path.path_text()) {
            Ok(file) => file,
            Err(error) => {
                let _ = fs::remove_file(files, path.path_text());
                return Err(error);
            }
        };
        Ok(FileDisk {
            file,
            known: MemoryDisk::new(&[]),
            untold: 0,
            is_lost: false,
            failures: 0,
        })
    }
}

/// Brings the file to the device, and drops the system's copies of it: a sync that failed in an earlier
//// process may have left others than the device holds.
fn settle(file: &File) -> io::Result<()> {
    file.sync_all()?;
    match libc::posix_fadvise(file.as_raw_fd(), 0, 0, libc::POSIX_FADV_DONTNEED) {
        0 => Ok(()),
        error => Err(io::Error::from_raw_os_error(error)),
    }
}

/// Locks a new file, and brings it and its name to the device.
fn settled_new<R: Files<File = File>>(files: &R, file: File, path: &str) -> io::Result<LockedFile> {
    let file = LockedFile::new(file)?;
    file.file().sync_all()?;
    File::open(files, folder_of(path))?.sync_all()?;
    Ok(file)
}

/// The folder in which a file's name stands.
fn folder_of(path: &str) -> Path<'_> {
    match Path::new(path).parent() {
        Some(folder) if folder != Path::new("") => folder,
        _ => Path::new("."),
    }
}

/// Whether the bytes that can be read and written have these places.
fn ends_within(at: u64, n: usize) -> bool
    ensures { IsTrue result ↔ (at + n ≤ MEMORY_LEN) }
{
    at <= MEMORY_LEN as u64 && n <= MEMORY_LEN - at as usize
}

/// From here on it isn't known what the file holds.
fn lose(is_lost: &mut bool, failures: &mut u64) -> DiskFault
    ensures lost { is_lost.new ≡ true }
    ensures failed { HasFailed failures.old failures.new }
    ensures no_fewer { failures.old ≤ failures.new }
{
    *is_lost = true;
    *failures = failures.saturating_add(1);
    DiskFault
}

impl Disk for FileDisk {
    ghost use Rattle.pdc_disk.specs.FileDisk.{failures_of, is_lost_of, is_settled_at, seen_of};
    ghost use Rattle.pdc_disk.specs.FileDisk.{IsTried, IsUntouched, LosesTrack};

    ghost seen = { seen_of };

    ghost is_settled = { is_settled_at };

    ghost failures = { failures_of };

    ghost safe = { 0 };

    fn len(&mut self) -> Result<u64, DiskFault>
        ensures lost { LosesTrack (is_lost_of self.old) (is_lost_of self.new) result }
        ensures len { IfOk result (λ len. len ≡ length (seen_of self.old)) }
        ensures seen { seen_of self.new ≡ seen_of self.old }
        ensures settled { StaySettled (is_settled_at self.old) (is_settled_at self.new) }
        ensures cause { HasCause (failures_of self.old) (failures_of self.new) result }
    {
        let expected = self.known.bytes().len() as u64 + self.untold;
        match self.file.file().metadata() {
            Ok(metadata) if !self.is_lost && metadata.len() == expected => Ok(expected),
            _ => Err(lose(&mut self.is_lost, &mut self.failures)),
        }
    }

    fn read_at(&mut self, at: u64, out: &mut [u8]) -> Result<(), DiskFault>
        requires { at + length out.old ≤ length (seen_of self.old) }
        ensures lost { LosesTrack (is_lost_of self.old) (is_lost_of self.new) result }
        ensures bytes { OnOk result
            (out.new ≡ slice_range (seen_of self.old) at (at + length out.old)) }
        ensures seen { seen_of self.new ≡ seen_of self.old }
        ensures settled { StaySettled (is_settled_at self.old) (is_settled_at self.new) }
        ensures cause { HasCause (failures_of self.old) (failures_of self.new) result }
    {
        let start = at as usize;
        let end = start + out.len();
        let is_told = !self.is_lost && end <= self.known.bytes().len();
        if is_told && reads(self.file.file(), at, out, &self.known.bytes()[start..end]) {
            return Ok(());
        }
        Err(lose(&mut self.is_lost, &mut self.failures))
    }

    fn write_at(&mut self, at: u64, bytes: &[u8]) -> Result<(), DiskFault>
        requires { at ≤ length (seen_of self.old) }
        ensures lost { LosesTrack (is_lost_of self.old) (is_lost_of self.new) result }
        ensures written { OnOk result (seen_of self.new ≡ written (seen_of self.old) at bytes.now) }
        ensures torn { IsTorn (seen_of self.old) at (length bytes.now) (seen_of self.new) }
        ensures settled { StaySettledBut at (length bytes.now)
            (is_settled_at self.old) (is_settled_at self.new) }
        ensures cause { HasCause (failures_of self.old) (failures_of self.new) result }
        ensures tried { is_lost_of self.old ≡ false → at + length bytes.now ≤ MEMORY_LEN
            → IsTried at (length bytes.now) self.new }
        ensures untouched { (is_lost_of self.old ≡ true) ⊎ (MEMORY_LEN < at + length bytes.now)
            → IsUntouched self.old self.new }
    {
        if self.is_lost || !ends_within(at, bytes.len()) {
            return Err(lose(&mut self.is_lost, &mut self.failures));
        }
        // Whatever becomes of the write, the range isn't settled from here on.
        self.known.write_at(at, bytes).unwrap();
        if self.file.file().write_all_at(bytes, at).is_err() {
            return Err(lose(&mut self.is_lost, &mut self.failures));
        }
        Ok(())
    }

    fn sync(&mut self) -> Result<(), DiskFault>
        ensures lost { LosesTrack (is_lost_of self.old) (is_lost_of self.new) result }
        ensures durable { OnOk result (AllSettled (is_settled_at self.new)) }
        ensures seen { seen_of self.new ≡ seen_of self.old }
        ensures settled { StaySettled (is_settled_at self.old) (is_settled_at self.new) }
        ensures cause { HasCause (failures_of self.old) (failures_of self.new) result }
    {
        if self.is_lost || !syncs(self.file.file()) {
            return Err(lose(&mut self.is_lost, &mut self.failures));
        }
        self.known.sync()
    }

    fn failures(&self) -> u64 {
        self.failures
    }
}

/// Fills `out` from the file, and says whether it reads as expected.
fn reads(file: &File, at: u64, out: &mut [u8], expected: &[u8]) -> bool
    ensures { IsTrue result → out.new ≡ expected.now }
{
    file.read_exact_at(out, at).is_ok() && *out == *expected
}

/// Brings what was written to the device, and says whether it did. The system is asked without the library's
/// preparations, since a store syncs three times: a sync that a signal interrupts counts as failed.
fn syncs(file: &File) -> bool {
    libc::fdatasync(file.as_raw_fd()) == 0
}
