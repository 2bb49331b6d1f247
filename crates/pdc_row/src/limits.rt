//! How many PMUs a concentrator has, and how far apart instants that are held at once may lie: less than a window.

/// The most PMUs of a node, and of the merger: a row has at most as many blocks.
pub const MAX_PMUS: usize = 16;

/// The least window, in instants.
pub const MIN_WINDOW: u64 = 8;

/// The greatest window, in instants.
pub const MAX_WINDOW: u64 = 256;
