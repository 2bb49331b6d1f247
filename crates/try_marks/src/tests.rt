//! Disks and the marks on them.

use std::fmt::Debug;
use std::process::Abort;

/// Both are the same; `text` says which call it was.
fn same<T: PartialEq + Debug>(rt: &impl Abort, found: &T, wanted: &T, text: &str) {
    assert_eq!(rt; found, wanted, "{text}");
}

macro_rules! is {
    ($rt:expr; $found:expr, $wanted:expr) => {
        same($rt, &$found, &$wanted, stringify!($found is $wanted))
    };
}

mod calls;
mod disks;
mod fixtures;
mod once_disk;
mod real_files;
mod stops;
