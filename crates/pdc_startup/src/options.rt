//! For how long a concentrator runs, and what it tells.

use pdc_control::Control;

/// For how long a concentrator runs, and what it tells on standard error meanwhile.
#[derive(Clone, Copy)]
pub struct RunOptions<'a> {
    /// After how many ticks it ends; where there is none it goes on until it is stopped.
    pub ticks: Option<u32>,
    /// After how many seconds counters are told again; where there is none they are not.
    pub every: Option<u32>,
    /// Whether it tells faults alone, and counters where they are asked for.
    pub is_quiet: bool,
    /// By what it is stopped before, and asked how it stands, if it is.
    pub control: Option<&'a Control>,
}
