//! A PMU that sends.
ghost use Rattle.std.specs.Prelude.{◌≡◌};

use crate::pmu::Pmu;
use std::alloc::Global;

/// A PMU that sends, with the data frame that it made last: the next one is made in the same room.
#[derive(Drop)]
pub struct Sender {
    pub pmu: Pmu,
    pub frame: Vec<u8>,
}

impl Sender {
    /// It made no data frame yet.
    pub fn new(alloc: Global, pmu: Pmu) -> Sender
        ensures { result.pmu ≡ pmu }
    {
        Sender {
            pmu,
            frame: Vec::new(alloc),
        }
    }
}
