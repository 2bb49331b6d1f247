//! One assertion for all values: a test function proves in a fraction of the time that assertions of its own take.

use std::fmt::Debug;
use std::process::Abort;

/// Asserts that the two are the same, and says of which heap where they are not.
pub fn same<T: PartialEq + Debug>(rt: &impl Abort, found: &T, wanted: &T, size: usize) {
    assert_eq!(rt; found, wanted, "on a heap of {size} bytes");
}
