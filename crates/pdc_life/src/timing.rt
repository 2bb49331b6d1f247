//! How long instants are held.
ghost use Rattle.std.specs.Prelude.{◌≤◌};
ghost use Rattle.pdc_row.specs.declared.limits.TheConstants.{MAX_WINDOW, MIN_WINDOW};
ghost use Rattle.pdc_life.specs.declared.limits.TheConstants.{MAX_AHEAD, MAX_WAIT};

/// What the wait of an open instant is counted in.
#[derive(Clone, Copy, Debug, PartialEq, Eq)]
pub enum WaitKind {
    /// Ticks since its first take.
    Relative,
    /// Instants, up to the tick's now.
    Absolute,
}

/// How long instants are held, and how far apart.
#[derive(Clone, Copy, Debug)]
pub struct Timing {
    /// How long an open instant waits, 1 to 1000 ticks or instants.
    pub wait: u64,
    /// What the wait is counted in.
    pub wait_kind: WaitKind,
    /// How far apart held instants may lie: less than this, 8 to 256 instants.
    pub window: u64,
    /// How far above the last tick's now an instant may lie, 0 to 1000 instants.
    pub ahead: u64,
    pub ghost wait_low: { 1 ≤ wait },
    pub ghost wait_high: { wait ≤ MAX_WAIT },
    pub ghost window_low: { MIN_WINDOW ≤ window },
    pub ghost window_high: { window ≤ MAX_WINDOW },
    pub ghost ahead_high: { ahead ≤ MAX_AHEAD },
}
