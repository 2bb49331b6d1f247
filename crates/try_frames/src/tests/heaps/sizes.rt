//! The sizes of the blocks that calls want.

/// A heap gives blocks of multiples of so many bytes: the sizes of heaps that differ.
pub const BLOCK: usize = 16;

/// The block of a framer: the longest frame, 65535 bytes.
pub const FRAMER: usize = 65_536;

/// The blocks of a client: those of its framer and of a read, a page.
pub const CLIENT: usize = FRAMER + 4096;

/// The block of the ring: 256 places for an instant and for a frame's bytes, whose vector has four words: where they lie, how many there is
/// room for, how many there are, and the heap.
pub const RING: usize = 256 * 5 * 8;

/// The blocks of a stream of one frame of 26 bytes: the piece that it comes in, the framer's, and the list of frames, which has room for four
/// vectors of four words, with the frame.
pub const STREAM: usize = 32 + 65_536 + 4 * 32 + 32;

/// The blocks of a line of 52 digits: what one read takes, what is printed, the digits, and the bytes that they stand for.
pub const SHOWN: usize = 65_536 + 8192 + 64 + 32;

/// The data frame of PMU 11 as a line, and what is said of it where its configuration is not known.
pub const LINE: &str = "AA02001A000B448527F000004E200000392B000009C400002623\n";

pub const NO_CONFIG: &str = "B1 NoConfig\n";
