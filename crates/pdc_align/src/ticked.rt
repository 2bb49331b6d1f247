//! What a tick did.

/// What a tick did.
#[derive(Clone, Copy, Debug, PartialEq, Eq)]
pub struct Ticked {
    /// How many rows closed.
    pub closed: u32,
    /// The change number, where columns were adopted.
    pub change: Option<u32>,
    /// Some column was to be adopted, and no change number was left.
    pub used_up: bool,
}
