//! The ranges of what a tag is made of.

/// The greatest data rate, in frames a second.
pub const MAX_RATE: u32 = 240;

/// What counts of a second and `TIME_BASE` lie below: both have 24 bits (C37.118.2-2011, 6.2).
pub const COUNT_LIMIT: u32 = 16_777_216;

/// How many seconds SOC can tell: it has 32 bits (C37.118.2-2011, 6.2).
pub const SECONDS: u64 = 4_294_967_296;
