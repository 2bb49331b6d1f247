//! What a record begins with.

use pdc_life::MAX_PMUS;

/// Whose life it is.
#[derive(Clone, Copy, Debug, PartialEq, Eq)]
pub enum Role {
    /// A node's.
    Node,
    /// The merger's.
    Merger,
}

/// What a life began with.
#[derive(Clone, Copy, Debug, PartialEq, Eq)]
pub struct Begun<'a> {
    /// Whose life it is.
    pub role: Role,
    /// The id of its frames.
    pub id: u16,
    /// Its frames a second.
    pub rate: u16,
    /// The number of its start.
    pub start: u32,
    /// The instant up to which all was published or given up before the first step of the file.
    pub floor: u64,
    /// For each column the count that was stored.
    pub counts: [u16; MAX_PMUS],
    /// What counts as now until the first tick.
    pub now: u64,
    /// The version of the program: major, minor, patch.
    pub program: [u16; 3],
    /// The text of its settings, UTF-8.
    pub settings: &'a [u8],
}
