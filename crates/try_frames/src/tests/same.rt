//! One assertion for all values: a test function proves in a fraction of the time that assertions of its own take.

use std::fmt::Debug;
use std::process::Abort;

/// Both are equal, or the test fails and shows them beside the text.
pub fn same<T: PartialEq + Debug>(rt: &impl Abort, found: &T, wanted: &T, text: &str) {
    assert_eq!(rt; found, wanted, "{text}");
}

/// The first value is the second.
macro_rules! is {
    ($rt:expr; $found:expr, $wanted:expr) => {
        crate::tests::same::same($rt, &$found, &$wanted, stringify!($found is $wanted))
    };
}

pub(crate) use is;
