//! Disks: what a program may rely on of bytes that are to outlast a stop.
//!
//! The trait [`Disk`] says in contracts what a read sees, what a stop may leave after a call that succeeded
//! and after one that failed, and when a call may fail at all. Its promise to the layer above: each byte
//! that was not written since the last sync that succeeded is the one that a stop leaves, and a fault is
//! answered only where the disk failed.
//!
//! - [`MemoryDisk`] holds at most 256 bytes in arrays, and shows what a stop would leave of it.
//! - [`FuseDisk`] passes a number of calls on and then fails, for tests of each place at which a device may
//!   fail.
//! - [`FileDisk`] is a real file, whose exclusive lock it holds for as long as it lives: who opens it again meanwhile, in this process
//!   or another, is refused. That a file keeps what it was told to sync, and that the lock keeps others out, is the system's promise,
//!   and isn't proved.
//!
//! No call of a disk takes memory.
#![tactic(auto)]

mod disk;
mod file_disk;
mod fuse_disk;
mod locked_file;
mod memory_disk;

pub use disk::{Disk, DiskFault};
pub use file_disk::FileDisk;
pub use fuse_disk::FuseDisk;
pub use memory_disk::{Landing, MEMORY_LEN, MemoryDisk};
