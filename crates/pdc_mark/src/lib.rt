//! The stored mark: the start number, the floor and the counts of a concentrator, which must survive every stop.
//!
//! A start number counts the lives of one concentrator, everything that it published lies at or below the floor, and
//! for each PMU no configuration count above the stored one was adopted. A concentrator that forgot them could publish
//! one instant twice with different data, or go back to an older configuration. The PMUs of one mark and their order
//! don't change between lives (a premise).
//!
//! [`DiskMark`], the first type to look at, keeps them on a disk of 256 bytes, in two slots behind gates. A store writes
//! the slot that doesn't hold the mark: it closes the slot's gate, writes the fields, and opens the gate, and each of
//! the three is on the device before the next begins. So no checksum is trusted. Its promise to the layer above: once a
//! mark is open, until a device fault stands, the disk has at every moment, a fault or a stop inside a store included,
//! the old mark or the new one of the same owner, and once a store has answered `Ok`, the new one. Where a fault stands,
//! no further device call is made.
//!
//! [`ModelMark`] is the same mark in memory, and [`Mark`] is what both are. [`Store`] is a mark into whose stores a stop
//! may fall, as a played world wants it. [`DiskMark::convert`] and [`OldMark`] read the file of version 1. [`make_mark`] and
//! [`convert_mark`] make mark files: a new one is never made over one that exists, and one that could not be filled is taken away again.
#![tactic(auto)]

mod convert;
mod disk_mark;
mod fault;
mod file_conversion;
mod find;
mod greater;
mod layout;
mod make;
mod mark;
mod mark_file;
mod model_mark;
mod slot;
mod stops;
mod store;
mod stored;
mod version_1;

pub use disk_mark::{DiskMark, Refused};
pub use fault::MarkFault;
pub use file_conversion::{MarkConvertFault, convert_mark};
pub use greater::{needed_floor, raised};
pub use layout::{COUNTS, MARK_LEN};
pub use make::{MarkInitFault, make_mark};
pub use mark::Mark;
pub use model_mark::ModelMark;
pub use stops::Store;
pub use stored::Stored;
pub use version_1::{OLD_LEN, OldMark};
