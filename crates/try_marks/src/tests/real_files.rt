//! Disks and marks in real files.

use super::fixtures::{
    FLOOR, ID, RATE, counts, fault_of, folder, mark_file, old_file, opened, raise, raised_file,
    reserve,
};
use super::same;
use pdc_disk::{Disk, DiskFault, FileDisk};
use pdc_mark::{DiskMark, Mark, MarkFault};
use std::fs::{self, File, OpenOptions};
use std::io::{self, ErrorKind};
use std::os::fd::AsRawFd;
use std::process::Abort;
use std::rt::Files;
use std::test::Fail;

const HELD: [u8; 4] = [1, 2, 3, 4];

/// The file of this name as a disk.
fn disk(rt: &(impl Abort + Alloc + Files<File = File>), name: &str) -> FileDisk {
    FileDisk::open(rt, name).expect(rt, "a disk")
}

/// The file of this name holds these bytes.
fn holds(rt: &(impl Abort + Alloc + Files<File = File>), name: &str, bytes: &[u8]) {
    let found = fs::read(rt, name).expect(rt, "a file");
    is!(rt; found.as_slice(), bytes);
}

/// The file of this name with these bytes, as a disk.
fn file_of(rt: &(impl Abort + Alloc + Files<File = File>), name: &str, bytes: &[u8]) -> FileDisk {
    fs::write(rt, name, bytes).expect(rt, "a file");
    disk(rt, name)
}

/// What a read of n bytes gives, up to four.
fn read(disk: &mut FileDisk, at: u64, n: usize) -> Result<[u8; 4], DiskFault> {
    let mut bytes = [0; 4];
    let len = disk.len()?;
    let part = &mut bytes[..n.min(4)];
    if len < part.len() as u64 || len - (part.len() as u64) < at {
        return Err(DiskFault);
    }
    disk.read_at(at, part)?;
    Ok(bytes)
}

/// A write, and the sync behind it.
fn write(disk: &mut FileDisk, at: u64, bytes: &[u8]) -> Result<(), DiskFault> {
    if disk.len()? < at {
        return Err(DiskFault);
    }
    disk.write_at(at, bytes)?;
    disk.sync()
}

/// Why there is no disk.
fn kind_of(answer: io::Result<FileDisk>) -> Option<ErrorKind> {
    match answer {
        Ok(_) => None,
        Err(error) => Some(error.kind()),
    }
}

/// Why no file is made.
fn not_made(rt: &(impl Abort + Alloc + Files<File = File>), name: &str) -> Option<ErrorKind> {
    kind_of(FileDisk::create(rt, name))
}

/// Why no file is opened.
fn not_opened(rt: &(impl Abort + Alloc + Files<File = File>), name: &str) -> Option<ErrorKind> {
    kind_of(FileDisk::open(rt, name))
}

fn written_again(rt: &(impl Abort + Alloc + Files<File = File>), name: &str) {
    let mut made = FileDisk::create(rt, name).expect(rt, "a new file");
    is!(rt; write(&mut made, 0, &HELD), Ok(()));
    is!(rt; write(&mut made, 3, &[5, 6]), Ok(()));
    is!(rt; not_made(rt, name), Some(ErrorKind::AlreadyExists));
    is!(rt; not_opened(rt, name), Some(ErrorKind::WouldBlock));
    drop(made);
    is!(rt; read(&mut disk(rt, name), 1, 4), Ok([2, 3, 5, 6]));
}

/// The file of a disk is opened by nobody else, until the disk is gone.
fn in_use(rt: &(impl Abort + Alloc + Files<File = File>), name: &str) {
    let first = file_of(rt, name, &HELD);
    is!(rt; not_opened(rt, name), Some(ErrorKind::WouldBlock));
    drop(first);
    is!(rt; not_opened(rt, name), None);
}

/// Whoever else writes to the file is found out at the next call that can tell, and each call fails from then on.
fn cut_short(rt: &(impl Abort + Alloc + Files<File = File>), name: &str) {
    let mut disk = file_of(rt, name, &HELD);
    let cut = OpenOptions::new().write(true).open(rt, name);
    cut.expect(rt, "a file").set_len(3).expect(rt, "a cut");
    is!(rt; disk.len(), Err(DiskFault));
    is!(rt; disk.sync(), Err(DiskFault));
    is!(rt; disk.failures(), 2);
}

fn changed(rt: &(impl Abort + Alloc + Files<File = File>), name: &str) {
    let mut disk = file_of(rt, name, &HELD);
    fs::write(rt, name, [1, 2, 3, 5].as_slice()).expect(rt, "a change");
    is!(rt; read(&mut disk, 1, 2), Ok([2, 3, 0, 0]));
    is!(rt; read(&mut disk, 2, 2), Err(DiskFault));
    is!(rt; write(&mut disk, 0, &[9]), Err(DiskFault));
    holds(rt, name, &[1, 2, 3, 5]);
}

fn longer(rt: &(impl Abort + Alloc + Files<File = File>), name: &str) {
    let mut disk = file_of(rt, name, &[6; 300]);
    is!(rt; disk.len(), Ok(300));
    is!(rt; read(&mut disk, 255, 1), Ok([6, 0, 0, 0]));
    is!(rt; read(&mut disk, 256, 1), Err(DiskFault));
}

/// A disk whose file gave its descriptor to this device: a disk can't be opened on one that refuses to sync.
fn disk_on(
    rt: &(impl Abort + Alloc + Files<File = File>),
    name: &str,
    device: &str,
) -> (FileDisk, File) {
    fs::write(rt, name, HELD).expect(rt, "a file");
    // Whatever is opened next gets the lowest descriptor that is free.
    let lowest = File::open(rt, name).expect(rt, "a file").as_raw_fd();
    let disk = disk(rt, name);
    libc::close(lowest);
    let file = OpenOptions::new().read(true).write(true).open(rt, device);
    let file = file.expect(rt, "a device");
    is!(rt; file.as_raw_fd(), lowest);
    (disk, file)
}

/// The system refuses to sync one device, and a write to the other, which is always full: `sync` and `write_at` ask it.
fn refused_by_the_device(rt: &(impl Abort + Alloc + Files<File = File>), name: &str) {
    let (mut unsynced, _null) = disk_on(rt, name, "/dev/null");
    is!(rt; unsynced.write_at(0, &[9, 9]), Ok(()));
    is!(rt; unsynced.sync(), Err(DiskFault));
    let (mut full, _full) = disk_on(rt, name, "/dev/full");
    is!(rt; full.write_at(0, &[9, 9]), Err(DiskFault));
    is!(rt; full.failures(), 1);
    holds(rt, name, &HELD);
}

#[test]
fn disks_in_real_files(rt: HostRuntime) -> Result<(), Fail> {
    let folder = folder(&rt, "disk")?;
    let path = folder.join(rt.alloc(), "disk")?;
    written_again(&rt, path.as_str());
    cut_short(&rt, path.as_str());
    in_use(&rt, path.as_str());
    changed(&rt, path.as_str());
    longer(&rt, path.as_str());
    refused_by_the_device(&rt, path.as_str());
    fs::remove_dir_all(&rt, &folder)?;
    Ok(())
}

/// A device that can't be synced isn't opened: `open` calls the system's sync.
#[test]
fn files_that_cannot_be_opened(rt: HostRuntime) {
    is!(&rt; not_opened(&rt, "/no/such/disk"), Some(ErrorKind::NotFound));
    is!(&rt; not_made(&rt, "/no/such/disk"), Some(ErrorKind::NotFound));
    is!(&rt; not_made(&rt, "/proc/pdc_disk_test").is_some(), true);
    is!(&rt; not_opened(&rt, "/tmp").is_some(), true);
    is!(&rt; not_opened(&rt, "/dev/null").is_some(), true);
}

fn life_in_a_file(rt: &(impl Abort + Alloc + Files<File = File>), name: &str) {
    let disk_made = FileDisk::create(rt, name).expect(rt, "a new file");
    is!(rt; DiskMark::init(disk_made, ID, RATE).is_ok(), true);
    is!(rt; opened(rt, disk(rt, name)).begin(), Ok(1));
    is!(rt; reserve(&mut opened(rt, disk(rt, name)), FLOOR), Ok(()));
    holds(rt, name, &mark_file());
    is!(rt; fault_of(DiskMark::open(disk(rt, name), 202, RATE)), Some(MarkFault::OtherOwner));
}

fn refused_length(
    rt: &(impl Abort + Alloc + Files<File = File>),
    name: &str,
    len: u64,
    fault: MarkFault,
) {
    let cut = OpenOptions::new().write(true).open(rt, name);
    cut.expect(rt, "a file").set_len(len).expect(rt, "a length");
    let found = fault_of(DiskMark::open(disk(rt, name), ID, RATE));
    is!(rt; (len, found), (len, Some(fault)));
}

fn converted(rt: &(impl Abort + Alloc + Files<File = File>), old: &str, new: &str) {
    let mut made = FileDisk::create(rt, new).expect(rt, "a new file");
    let answer = DiskMark::convert(&mut file_of(rt, old, &old_file()), &mut made);
    is!(rt; answer, Ok((1, FLOOR)));
    drop(made);
    is!(rt; raise(&mut opened(rt, disk(rt, new)), counts(1, 1)), Ok(()));
    holds(rt, new, &raised_file());
}

#[test]
fn marks_in_real_files(rt: HostRuntime) -> Result<(), Fail> {
    let folder = folder(&rt, "mark")?;
    let path = folder.join(rt.alloc(), "mark")?;
    life_in_a_file(&rt, path.as_str());
    refused_length(&rt, path.as_str(), 257, MarkFault::NoMark);
    refused_length(&rt, path.as_str(), 255, MarkFault::NoMark);
    refused_length(&rt, path.as_str(), 129, MarkFault::NoMark);
    refused_length(&rt, path.as_str(), 128, MarkFault::OldMark);
    let new = folder.join(rt.alloc(), "new")?;
    converted(&rt, path.as_str(), new.as_str());
    fs::remove_dir_all(&rt, &folder)?;
    Ok(())
}
