//! A run of what is simulated.

use crate::simulated::Simulated;

/// A run of what is simulated, from an instant on.
#[derive(Clone, Copy, Debug)]
pub struct Run<'a> {
    pub simulated: &'a Simulated<'a>,
    /// The first instant that data is sent of.
    pub first: u64,
}
