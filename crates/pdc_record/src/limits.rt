//! Bounds of a record, and the lengths of an entry's parts in bytes.

/// The version of the format that this crate writes and reads.
pub const VERSION: u16 = 1;

/// The most bytes of a datagram, a frame or a settings text in an entry.
pub const MAX_REST: usize = 1048576;

/// LEN, KIND, STEP and TIME.
pub(crate) const HEAD_LEN: usize = 21;

/// LEN, KIND, STEP, TIME and CHK: the shortest entry.
pub(crate) const OVERHEAD: usize = 23;

/// The longest entry: what a life began with, before the longest text.
pub(crate) const MAX_LEN: usize = 1048664;

/// The bytes of the counts.
pub(crate) const COUNTS_LEN: usize = 32;

/// Of Begun: VERSION, ROLE, ID, RATE, START and FLOOR, which stand before the counts,
pub(crate) const BEGUN_FRONT: usize = 19;

/// and NOW and PROGRAM, which stand behind them.
pub(crate) const BEGUN_BACK: usize = 14;

/// The bytes of an instant that is now.
pub(crate) const NOW_LEN: usize = 8;

/// The bytes of the version of a program.
pub(crate) const PROGRAM_LEN: usize = 6;

/// The fixed part of Begun.
pub(crate) const BEGUN_LEN: usize = 65;

/// The fixed part of Arrived: STREAM and ANSWER.
pub(crate) const ARRIVED_LEN: usize = 3;

/// The fixed part of Unanswered: STREAM.
pub(crate) const UNANSWERED_LEN: usize = 2;

/// Of Ticked: CLOSED, FLAGS and CHANGE, which stand behind the counts.
pub(crate) const TICKED_BACK: usize = 9;

/// The fixed part of Ticked.
pub(crate) const TICKED_LEN: usize = 49;

/// The fixed part of Popped: INSTANT and FLAG.
pub(crate) const POPPED_LEN: usize = 9;

/// The fixed part of NoFrame: STREAM, ANSWER and SIZE.
pub(crate) const NO_FRAME_LEN: usize = 7;

/// The fixed part of Missing: UNTIL.
pub(crate) const MISSING_LEN: usize = 8;
