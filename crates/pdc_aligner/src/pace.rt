//! How the aligner dates what it puts.
ghost use Rattle.std.specs.Prelude.{◌≤◌};

/// How instants are dated, and how often layouts are repeated.
#[derive(Clone, Copy, Debug)]
pub struct Pace {
    /// The frames in a second, at least 1.
    pub rate: u16,
    /// After how many ticks the layout goes out again, at least 1.
    pub layout_every: u32,
    pub ghost rate_low: { 1 ≤ rate },
    pub ghost every_low: { 1 ≤ layout_every },
}
