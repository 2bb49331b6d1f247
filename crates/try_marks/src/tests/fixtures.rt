//! Mark files, and what the tests do with marks.
use pdc_disk::{Disk, Landing, MemoryDisk};
use pdc_mark::{COUNTS, DiskMark, MARK_LEN, Mark, MarkFault, OLD_LEN, Refused, raised};
use std::path::PathBuf;
use std::process::Abort;
use std::test::Fail;
use std::{env, fs, process};

pub const ID: u16 = 201;

pub const RATE: u16 = 50;

pub const FLOOR: u64 = 57_478_860_001;

/// `open` syncs, asks for the length and reads.
pub const OPENING: u64 = 3;

pub const LANDINGS: [Landing; 5] = [
    Landing::Before,
    Landing::After,
    Landing::Fill(0x00),
    Landing::Fill(0x5A),
    Landing::Fill(0xFF),
];

/// What a mark stores.
pub type Told = ((u32, u64), [u16; COUNTS]);

/// Owner, start 1 and floor 57478860001, and the same with floor 0.
const RESERVED: [u8; 16] = [
    0x00, 0xC9, 0x00, 0x32, 0x00, 0x00, 0x00, 0x01, 0x00, 0x00, 0x00, 0x0D, 0x62, 0x01, 0xCC, 0xE1,
];

const BEGUN: [u8; 16] = [
    0x00, 0xC9, 0x00, 0x32, 0x00, 0x00, 0x00, 0x01, 0x00, 0x00, 0x00, 0x00, 0x00, 0x00, 0x00, 0x00,
];

/// Puts these bytes into a file from this place on.
pub fn put(file: &mut [u8], at: usize, bytes: &[u8]) {
    let rest = file.get_mut(at..).unwrap_or(&mut []);
    let len = rest.len().min(bytes.len());
    rest[..len].copy_from_slice(&bytes[..len]);
}

/// The file of version 1 of a mark for 201 and 50 after `begin` and `reserve(57478860001)`.
pub fn old_file() -> [u8; OLD_LEN] {
    let mut file = [0; OLD_LEN];
    put(&mut file, 0, &[0x5A]);
    put(&mut file, 8, &RESERVED);
    put(&mut file, 64, &[0x5A]);
    put(&mut file, 72, &BEGUN);
    file
}

/// The same of version 2.
pub fn mark_file() -> [u8; MARK_LEN] {
    let mut file = [0; MARK_LEN];
    put(&mut file, 0, &[0x5A]);
    put(&mut file, 8, &RESERVED);
    put(&mut file, 128, &[0x5A]);
    put(&mut file, 136, &BEGUN);
    file
}

/// The file of version 1 above, converted.
pub fn converted_file() -> [u8; MARK_LEN] {
    let mut file = [0; MARK_LEN];
    put(&mut file, 0, &[0x5A]);
    put(&mut file, 8, &RESERVED);
    file
}

/// The same after a raise to 1, 1.
pub fn raised_file() -> [u8; MARK_LEN] {
    let mut file = [0; MARK_LEN];
    put(&mut file, 0, &[0x5A]);
    put(&mut file, 8, &RESERVED);
    put(&mut file, 128, &[0x5A]);
    put(&mut file, 136, &RESERVED);
    put(&mut file, 152, &[0, 1, 0, 1]);
    file
}

/// These counts of the first two PMUs.
pub fn counts(first: u16, second: u16) -> [u16; COUNTS] {
    [first, second, 0, 0, 0, 0, 0, 0, 0, 0, 0, 0, 0, 0, 0, 0]
}

/// The mark of this owner on this disk.
pub fn opened<D: Disk + Drop>(rt: &impl Abort, disk: D) -> DiskMark<D> {
    match DiskMark::open(disk, ID, RATE) {
        Ok(mark) => mark,
        Err(refused) => panic!(rt; "{}", refused.fault),
    }
}

/// Why there is no mark.
pub fn fault_of<D: Disk + Drop>(answer: Result<DiskMark<D>, Refused<D>>) -> Option<MarkFault> {
    match answer {
        Ok(_) => None,
        Err(refused) => Some(refused.fault),
    }
}

pub fn told<M: Mark>(mark: &M) -> Told {
    (mark.stored(), mark.counts())
}

/// Reserves a floor that is above the stored one.
pub fn reserve<M: Mark>(mark: &mut M, floor: u64) -> Result<(), MarkFault> {
    if mark.stored().1 < floor {
        mark.reserve(floor)
    } else {
        Err(MarkFault::NoMark)
    }
}

/// Raises the counts to these where they are greater.
pub fn raise<M: Mark>(mark: &mut M, counts: [u16; COUNTS]) -> Result<(), MarkFault> {
    match raised(&mark.counts(), &counts) {
        Some(raised) => mark.raise(&raised),
        None => Err(MarkFault::NoMark),
    }
}

/// A disk of the first mark.
pub fn fresh(rt: &impl Abort) -> MemoryDisk {
    match DiskMark::init(MemoryDisk::new(&[]), ID, RATE) {
        Ok(mark) => mark.into_disk(),
        Err(refused) => panic!(rt; "{}", refused.fault),
    }
}

/// The same disk after a life has begun.
pub fn begun(rt: &impl Abort) -> MemoryDisk {
    let mut mark = opened(rt, fresh(rt));
    mark.begin().expect(rt, "a life begins");
    mark.into_disk()
}

/// The same after a reservation, of the file above.
pub fn reserved() -> MemoryDisk {
    MemoryDisk::new(&mark_file())
}

/// An empty folder of one test's own.
pub fn folder(rt: &HostRuntime, name: &str) -> Result<PathBuf, Fail> {
    let id = process::id(rt.process());
    let name = format!(in rt.alloc(); "pdc_mark_tests_{name}_{id}")?;
    let folder = env::temp_dir(rt)?.join(rt.alloc(), name)?;
    let _ = fs::remove_dir_all(rt, &folder);
    fs::create_dir(rt, &folder)?;
    Ok(folder)
}
