//! The limits of what a settings text says.

/// The most counts of FRACSEC in a second.
pub const MAX_TIME_BASE: u32 = 16_777_215;

/// The greatest port, and the most ticks from one layout frame to the next.
pub const MAX_PORT: u16 = 65535;

/// The greatest count of a configuration.
pub const MAX_COUNT: u16 = 65535;
