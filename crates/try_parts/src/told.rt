//! How answers are told in a script.

use std::alloc::{AllocError, Global};
use std::fmt::Display;

/// What is told of a call that cannot be made.
pub const NO_CALL: &str = "no such call";

/// The bytes in hexadecimal, or `nothing`.
pub fn hex_of(alloc: Global, bytes: &[u8]) -> Result<String, AllocError> {
    if bytes.is_empty() {
        return "nothing".to_string(alloc);
    }
    hex::encode_upper(alloc, bytes)
}

/// `ok`, or why not.
pub fn done<F: Display + Drop>(alloc: Global, answer: Result<(), F>) -> Result<String, AllocError> {
    match answer {
        Ok(()) => "ok".to_string(alloc),
        Err(fault) => format!(in alloc; "{fault}"),
    }
}
