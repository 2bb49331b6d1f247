//! Places and sizes of the mark file, version 2: two slots, each a gate, 7 zero bytes, the fields and zero bytes up to
//! its end. Numbers stand most significant byte first.
//!
//! ```text
//!   0  gate of slot 0        128  gate of slot 1         5A is open, any other byte closed
//!   8  fields of slot 0      136  fields of slot 1       id u16, rate u16, start u32, floor u64, 16 counts u16
//!  56  zero                  184  zero
//! ```

/// The length of a mark file, in bytes.
pub const MARK_LEN: usize = 256;

/// The number of counts in a mark: one for each PMU that a concentrator may have, in the order of its settings.
pub const COUNTS: usize = 16;

pub(crate) const SLOT_LEN: usize = 128;

/// Where the fields begin in their slot.
pub(crate) const FIELDS_AT: usize = 8;

/// Where the data rate stands in the fields, behind the id.
pub(crate) const RATE_AT: usize = 2;

/// Where the start number stands in the fields.
pub(crate) const START_AT: usize = 4;

/// Where the floor stands in the fields.
pub(crate) const FLOOR_AT: usize = 8;

/// Where the counts begin in the fields.
pub(crate) const COUNTS_AT: usize = 16;

pub(crate) const COUNTS_LEN: usize = 32;

pub(crate) const FIELDS_LEN: usize = 48;

/// Where the fields end in their slot.
pub(crate) const FIELDS_END: usize = 56;

/// The zero bytes behind the fields.
pub(crate) const REST_LEN: usize = 72;

/// The gate of a slot that counts.
pub(crate) const OPEN: u8 = 0x5A;

/// The gate that is written where a slot isn't to count. Any byte but `OPEN` reads so.
pub(crate) const CLOSED: u8 = 0;
