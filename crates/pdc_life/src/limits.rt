//! The limits of settings.

/// The longest wait, in ticks or instants.
pub const MAX_WAIT: u64 = 1000;

/// The farthest that an instant may lie above the last tick's now, in instants.
pub const MAX_AHEAD: u64 = 1000;
