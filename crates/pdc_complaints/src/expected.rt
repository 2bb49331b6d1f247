//! What the settings say of a stream.

use arrayvec::ArrayVec;
use pdc_life::MAX_PMUS;

/// What the settings say of a stream.
#[derive(Drop)]
pub struct Expected {
    /// The UDP port that it comes to; 0 where it is asked for over TCP.
    pub port: u16,
    /// The id of the stream.
    pub id: u16,
    /// The id that the first section of its configuration bears: of a PMU its source, of a node its own.
    pub source: u16,
    /// The counts of FRACSEC in a second.
    pub time_base: u32,
    /// The frames a second.
    pub rate: u16,
    /// The sources of the sections behind the first, in their order: of a PMU there are none.
    pub others: ArrayVec<u16, MAX_PMUS>,
}
