//! Marks call by call.

use super::fixtures::{
    FLOOR, ID, OPENING, RATE, begun, converted_file, counts, fault_of, fresh, mark_file, old_file,
    opened, put, raise, raised_file, reserve, told,
};
use super::same;
use pdc_disk::{Disk, FuseDisk, Landing, MemoryDisk};
use pdc_mark::{COUNTS, DiskMark, MARK_LEN, Mark, MarkFault, ModelMark, OldMark, raised};
use std::process::Abort;
use std::test::Fail;

#[test]
fn faults_are_printed(rt: HostRuntime) -> Result<(), Fail> {
    for (fault, line) in [
        (MarkFault::NoMark, "M1 NoMark"),
        (MarkFault::Damaged, "M2 Damaged"),
        (MarkFault::OtherOwner, "M3 OtherOwner"),
        (MarkFault::Device, "M4 Device"),
        (MarkFault::StartsUsedUp, "M5 StartsUsedUp"),
        (MarkFault::OldMark, "M6 OldMark"),
    ] {
        let printed = format!(in rt.alloc(); "{fault}")?;
        is!(&rt; printed.as_str(), line);
    }
    Ok(())
}

#[test]
fn a_mark_in_memory(rt: HostRuntime) {
    let mut mark = ModelMark::new(0, 0);
    is!(&rt; mark.begin(), Ok(1));
    is!(&rt; reserve(&mut mark, FLOOR), Ok(()));
    is!(&rt; raise(&mut mark, counts(0, 2)), Ok(()));
    is!(&rt; told(&mark), ((1, FLOOR), counts(0, 2)));
    let mut used_up = ModelMark::new(u32::MAX, 7);
    is!(&rt; used_up.begin(), Err(MarkFault::StartsUsedUp));
    is!(&rt; used_up.stored(), (4_294_967_295, 7));
    is!(&rt; used_up.failures(), 0);
}

#[test]
fn counts_are_raised_each_for_itself(rt: HostRuntime) {
    is!(&rt; raised(&counts(3, 4), &counts(3, 1)), None);
    is!(&rt; raised(&counts(3, 4), &counts(5, 1)), Some(counts(5, 4)));
    let last = [3, 0, 0, 0, 0, 0, 0, 0, 0, 0, 0, 0, 0, 0, 0, u16::MAX];
    is!(&rt; raised(&counts(3, 0), &last), Some(last));
}

#[test]
fn a_fresh_file(rt: HostRuntime) {
    let mut wanted = [0; 24];
    put(&mut wanted, 0, &[0x5A]);
    put(&mut wanted, 8, &[0x00, 0xC9, 0x00, 0x32]);
    let disk = fresh(&rt);
    is!(&rt; disk.bytes().len(), 256);
    is!(&rt; disk.bytes().get(..24), Some(wanted.as_slice()));
    is!(&rt; disk.bytes().get(128), Some(&0));
}

#[test]
fn mark_file_of_a_life(rt: HostRuntime) {
    let mut mark = opened(&rt, fresh(&rt));
    is!(&rt; told(&mark), ((0, 0), counts(0, 0)));
    is!(&rt; mark.begin(), Ok(1));
    is!(&rt; reserve(&mut mark, FLOOR), Ok(()));
    is!(&rt; mark.failures(), 0);
    is!(&rt; mark.into_disk().bytes(), mark_file().as_slice());
}

/// A raise after a conversion makes four device calls, since the second gate is closed.
#[test]
fn counts_that_survive_a_restart(rt: HostRuntime) {
    let mut disk = MemoryDisk::new(&[]);
    let made = DiskMark::convert(&mut MemoryDisk::new(&old_file()), &mut disk);
    is!(&rt; made, Ok((1, FLOOR)));
    is!(&rt; disk.bytes(), converted_file().as_slice());
    let mut mark = opened(&rt, FuseDisk::new(disk, OPENING + 4));
    is!(&rt; told(&mark), ((1, FLOOR), counts(0, 0)));
    is!(&rt; raise(&mut mark, counts(1, 1)), Ok(()));
    let fuse = mark.into_disk();
    is!(&rt; fuse.calls_left(), 0);
    let disk = fuse.into_inner();
    is!(&rt; disk.bytes(), raised_file().as_slice());
    is!(&rt; told(&opened(&rt, disk.stopped(Landing::Before))), ((1, FLOOR), counts(1, 1)));
}

/// So many of these bytes.
fn front(bytes: &[u8], len: usize) -> &[u8] {
    &bytes[..len.min(bytes.len())]
}

/// The mark of these bytes is refused so, and the disk comes back.
fn refused(rt: &impl Abort, bytes: &[u8], id: u16, rate: u16, fault: MarkFault) {
    assert!(rt; bytes.len() <= 256);
    let Err(refused) = DiskMark::open(MemoryDisk::new(bytes), id, rate) else {
        panic!(rt; "{fault} was not found");
    };
    is!(rt; refused.fault, fault);
    is!(rt; refused.disk.bytes(), bytes);
}

#[test]
fn refusals(rt: HostRuntime) {
    let file = mark_file();
    let mut closed = file;
    put(&mut closed, 0, &[0]);
    put(&mut closed, 128, &[0xFF]);
    refused(&rt, &[], ID, RATE, MarkFault::NoMark);
    refused(&rt, &old_file(), ID, RATE, MarkFault::OldMark);
    refused(&rt, front(&file, 127), ID, RATE, MarkFault::NoMark);
    refused(&rt, front(&file, 129), ID, RATE, MarkFault::NoMark);
    refused(&rt, front(&file, 255), ID, RATE, MarkFault::NoMark);
    refused(&rt, &closed, ID, RATE, MarkFault::Damaged);
    refused(&rt, &closed, 202, RATE, MarkFault::Damaged);
    refused(&rt, &file, 202, RATE, MarkFault::OtherOwner);
    refused(&rt, &file, ID, 60, MarkFault::OtherOwner);
}

/// What a file of version 1 with these bytes is read as.
fn old_mark(bytes: &[u8]) -> Result<(u32, u64), MarkFault> {
    if bytes.len() > 256 {
        return Err(MarkFault::NoMark);
    }
    let mark = OldMark::read(&mut MemoryDisk::new(bytes))?;
    Ok(mark.stored())
}

#[test]
fn files_of_version_1(rt: HostRuntime) {
    let file = old_file();
    let mut second = file;
    put(&mut second, 0, &[0]);
    let mut closed = second;
    put(&mut closed, 64, &[0xFF]);
    is!(&rt; old_mark(&file), Ok((1, FLOOR)));
    is!(&rt; old_mark(&second), Ok((1, 0)));
    is!(&rt; old_mark(&closed), Err(MarkFault::Damaged));
    is!(&rt; old_mark(front(&file, 127)), Err(MarkFault::NoMark));
    is!(&rt; old_mark(&mark_file()), Err(MarkFault::NoMark));
}

/// The counts of the mark in this file.
fn counts_in(rt: &impl Abort, file: &[u8; MARK_LEN]) -> [u16; COUNTS] {
    opened(rt, MemoryDisk::new(file)).counts()
}

/// Of equal open slots the first is the mark, a torn gate that isn't 5A is closed, and counts decide last, the first
/// that differs before the others.
#[test]
fn the_greatest_open_slot(rt: HostRuntime) {
    let mut file = mark_file();
    put(&mut file, 16, &[0; 8]);
    put(&mut file, 25, &[2]);
    is!(&rt; counts_in(&rt, &file), counts(2, 0));
    put(&mut file, 153, &[1, 0, 9]);
    is!(&rt; counts_in(&rt, &file), counts(2, 0));
    put(&mut file, 153, &[2]);
    is!(&rt; counts_in(&rt, &file), counts(2, 9));
    put(&mut file, 128, &[0x5B]);
    is!(&rt; counts_in(&rt, &file), counts(2, 0));
}

#[test]
fn faults_in_open(rt: HostRuntime) {
    for passed in 0..OPENING {
        let Err(refused) = DiskMark::open(FuseDisk::new(begun(&rt), passed), ID, RATE) else {
            panic!(&rt; "a fault at call {passed} was not found");
        };
        is!(&rt; refused.fault, MarkFault::Device);
        is!(&rt; refused.disk.failures(), 1);
        is!(&rt; told(&opened(&rt, refused.disk.into_inner())), ((1, 0), counts(0, 0)));
    }
}

/// `init` makes three device calls, and a conversion three on each disk.
#[test]
fn faults_in_what_makes_a_file(rt: HostRuntime) {
    for passed in 0..3 {
        let made = DiskMark::init(FuseDisk::new(MemoryDisk::new(&[]), passed), ID, RATE);
        is!(&rt; fault_of(made), Some(MarkFault::Device));
        let old = MemoryDisk::new(&old_file());
        let mut new = MemoryDisk::new(&[]);
        let read = DiskMark::convert(&mut FuseDisk::new(old, passed), &mut new);
        is!(&rt; (read, new.bytes().len()), (Err(MarkFault::Device), 0));
        let mut old = MemoryDisk::new(&old_file());
        let mut new = FuseDisk::new(new, passed);
        is!(&rt; DiskMark::convert(&mut old, &mut new), Err(MarkFault::Device));
    }
}

/// The mark is opened again without a fault, and where the disk goes on failing.
#[test]
fn reopened(rt: HostRuntime) {
    let Ok(mut mark) = opened(&rt, begun(&rt)).reopen() else {
        panic!(&rt; "the mark opens again");
    };
    is!(&rt; mark.stored(), (1, 0));
    is!(&rt; mark.begin(), Ok(2));
    let mut blown = opened(&rt, FuseDisk::new(mark.into_disk(), OPENING + 1));
    is!(&rt; blown.begin(), Err(MarkFault::Device));
    is!(&rt; fault_of(blown.reopen()), Some(MarkFault::Device));
}

#[test]
fn starts_used_up(rt: HostRuntime) {
    let mut file = mark_file();
    file[12..16].copy_from_slice(&[0xFF; 4]);
    let mut mark = opened(&rt, MemoryDisk::new(&file));
    is!(&rt; mark.begin(), Err(MarkFault::StartsUsedUp));
    is!(&rt; mark.stored(), (u32::MAX, FLOOR));
    is!(&rt; reserve(&mut mark, FLOOR + 1), Ok(()));
}
