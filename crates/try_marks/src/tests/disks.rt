//! Disks in memory and behind a fuse.

use super::same;
use pdc_disk::{Disk, DiskFault, FuseDisk, Landing, MEMORY_LEN, MemoryDisk};
use std::process::Abort;
use std::test::Fail;

const HELD: [u8; 4] = [1, 2, 3, 4];

#[test]
fn a_fault_has_a_text(rt: HostRuntime) -> Result<(), Fail> {
    let text = format!(in rt.alloc(); "{DiskFault}")?;
    is!(&rt; text.as_str(), "device fault");
    Ok(())
}

/// A write over the last two bytes and one past the end, and what a stop leaves of it.
#[test]
fn a_stop_in_memory(rt: HostRuntime) {
    let mut disk = MemoryDisk::new(&HELD);
    disk.write_at(2, &[7, 8, 9]).expect(&rt, "a write");
    let written = [1, 2, 7, 8, 9];
    is!(&rt; disk.bytes(), written.as_slice());
    is!(&rt; disk.stopped(Landing::Before).bytes(), HELD.as_slice());
    is!(&rt; disk.stopped(Landing::After).bytes(), written.as_slice());
    let filled = [1, 2, 0x5A, 0x5A, 0x5A];
    is!(&rt; disk.stopped(Landing::Fill(0x5A)).bytes(), filled.as_slice());
    disk.sync().expect(&rt, "a sync");
    is!(&rt; disk.stopped(Landing::Fill(0x5A)).bytes(), written.as_slice());
}

#[test]
fn memory_fails_past_its_last_place(rt: HostRuntime) {
    let mut disk = MemoryDisk::new(&[3; MEMORY_LEN]);
    is!(&rt; disk.write_at(255, &[4]), Ok(()));
    is!(&rt; disk.failures(), 0);
    is!(&rt; disk.write_at(255, &[5, 6]), Err(DiskFault));
    is!(&rt; disk.failures(), 1);
    let mut last = [0; 2];
    disk.read_at(254, &mut last).expect(&rt, "a read");
    is!(&rt; last, [3, 4]);
    is!(&rt; disk.len(), Ok(256));
}

/// Each of the four calls counts, and the disk behind is as the calls that were passed left it.
fn fuse_passes(rt: &impl Abort, passed: u64) {
    let mut fuse = FuseDisk::new(MemoryDisk::new(&HELD), passed);
    let answers = [
        fuse.len().is_ok(),
        fuse.write_at(0, &[9]).is_ok(),
        fuse.sync().is_ok(),
        fuse.read_at(0, &mut [0]).is_ok(),
    ];
    let wanted = [0 < passed, 1 < passed, 2 < passed, 3 < passed];
    is!(rt; answers, wanted);
    is!(rt; fuse.failures(), 4u64.saturating_sub(passed));
    is!(rt; fuse.calls_left(), passed.saturating_sub(4));
    let first = if passed < 2 { 1 } else { 9 };
    is!(rt; fuse.into_inner().bytes(), [first, 2, 3, 4].as_slice());
}

#[test]
fn a_fuse_passes_a_number_of_calls(rt: HostRuntime) {
    for passed in 0..6 {
        fuse_passes(&rt, passed);
    }
}
