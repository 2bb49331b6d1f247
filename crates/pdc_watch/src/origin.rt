//! Where a stream comes from.

/// Where a stream comes from, and how long its concentrator waits for data that is missing.
#[derive(Drop)]
pub struct Origin {
    /// The address of its session.
    pub address: String,
    /// The wait that its settings have, in ticks or instants.
    pub wait: u64,
    /// What that is counted in, as the settings name it: `Relative` or `Absolute`.
    pub wait_kind: String,
}
