//! Mark files on real files.

use super::same::is;
use pdc_disk::FileDisk;
use pdc_mark::{
    DiskMark, Mark, MarkConvertFault, MarkFault, MarkInitFault, convert_mark, make_mark,
};
use std::env::{self, Env};
use std::fs::{self, File};
use std::path::PathBuf;
use std::process::{self, Abort};
use std::rt::Files;

/// An empty folder of one test's own, in this process.
fn folder(
    rt: &(impl Abort + AllocGlobal + Env + Files<File = File>),
    id: u32,
    name: &str,
) -> PathBuf {
    let name = format!(in rt.alloc(); "pdc_tests_{name}_{id}").expect(rt, "memory");
    let temporary = env::temp_dir(rt).expect(rt, "a folder");
    let folder = temporary.join(rt.alloc(), name).expect(rt, "memory");
    let _ = fs::remove_dir_all(rt, &folder);
    fs::create_dir(rt, &folder).expect(rt, "a new folder");
    folder
}

/// The file of this name in a folder.
fn file_in(rt: &(impl Abort + AllocGlobal), folder: &PathBuf, name: &str) -> PathBuf {
    folder.join(rt.alloc(), name).expect(rt, "memory")
}

/// The bytes of a file.
fn bytes_of(rt: &(impl Abort + AllocGlobal + Files<File = File>), file: &str) -> Vec<u8> {
    fs::read(rt, file).expect(rt, "a file")
}

/// The mark of 201 and 50 in this file is of no life.
fn is_of_no_life(rt: &(impl Abort + AllocGlobal + Files<File = File>), file: &str) {
    let disk = FileDisk::open(rt, file).expect(rt, "a disk");
    match DiskMark::open(disk, 201, 50) {
        Ok(mark) => is!(rt; mark.stored(), (0, 0)),
        Err(refused) => panic!(rt; "{}", refused.fault),
    }
}

/// The first call makes the file, for id 201 and 50 frames a second. The second leaves it as it is.
#[test]
fn mark_init_twice(rt: HostRuntime) {
    let folder = folder(&rt, process::id(rt.process()), "init");
    let path = file_in(&rt, &folder, "a.mark");
    let file = path.as_str();
    is!(&rt; make_mark(&rt, file, 201, 50).is_ok(), true);
    let first = bytes_of(&rt, file);
    is!(&rt; matches!(make_mark(&rt, file, 202, 60), Err(MarkInitFault::Exists)), true);
    is!(&rt; bytes_of(&rt, file), first);
    is_of_no_life(&rt, file);
    fs::remove_dir_all(&rt, &folder).expect(&rt, "an end of the folder");
}

#[test]
fn mark_init_where_no_file_can_be(rt: HostRuntime) {
    let made = make_mark(&rt, "/no/such/folder/a.mark", 201, 50);
    is!(&rt; matches!(made, Err(MarkInitFault::NotMade(_))), true);
}

/// The front of a mark file of version 1 for id 201 and 50 frames a second, with start 1 and floor 2.
const OLD_FILE: [u8; 24] = [
    0x5A, 0, 0, 0, 0, 0, 0, 0, 0, 201, 0, 50, 0, 0, 0, 1, 0, 0, 0, 0, 0, 0, 0, 2,
];

/// A file of version 1 with start 1 and floor 2, then what is refused: a new name that exists, and a file that is no mark
/// of version 1, where no file is made.
#[test]
fn mark_convert_of_a_file(rt: HostRuntime) {
    let folder = folder(&rt, process::id(rt.process()), "convert");
    let old_path = file_in(&rt, &folder, "old.mark");
    let new_path = file_in(&rt, &folder, "new.mark");
    let (old, new) = (old_path.as_str(), new_path.as_str());
    let mut bytes = Vec::from_slice(rt.alloc(), &OLD_FILE).expect(&rt, "memory");
    bytes.resize(128, 0).expect(&rt, "memory");
    fs::write(&rt, old, bytes.as_slice()).expect(&rt, "a file");
    is!(&rt; matches!(convert_mark(&rt, old, new), Ok((1, 2))), true);
    is!(&rt; matches!(convert_mark(&rt, old, new), Err(MarkConvertFault::Exists)), true);
    is!(&rt; bytes_of(&rt, new).len(), 256);
    let refused = convert_mark(&rt, new, "/no/a.mark");
    is!(&rt; matches!(refused, Err(MarkConvertFault::Refused(MarkFault::NoMark))), true);
    fs::remove_dir_all(&rt, &folder).expect(&rt, "an end of the folder");
}
