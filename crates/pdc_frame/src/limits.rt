//! The sizes and bounds of a frame (C37.118.2-2011, 6.2 and table 2).

/// The place of FRAMESIZE.
pub(crate) const SIZE_PLACE: usize = 2;

/// The place of IDCODE.
pub(crate) const ID_PLACE: usize = 4;

/// The place of SOC.
pub(crate) const SOC_PLACE: usize = 6;

/// The place of FRACSEC.
pub(crate) const FRACSEC_PLACE: usize = 10;

/// The first byte of SYNC.
pub(crate) const SYNC_BYTE: u8 = 0xAA;

/// The number of bytes before the payload: SYNC, FRAMESIZE, IDCODE, SOC and FRACSEC.
pub const HEADER_LEN: usize = 14;

/// The number of bytes of CHK, behind the payload.
pub const CHECK_LEN: usize = 2;

/// The number of bytes around the payload.
pub const OVERHEAD: usize = 16;

/// The most bytes that a frame has: FRAMESIZE is a word.
pub const MAX_SIZE: usize = 65535;

/// The most bytes that a payload has.
pub const MAX_PAYLOAD: usize = 65519;

/// The greatest version of the standard that is read. The least is 1.
pub const MAX_VERSION: u8 = 2;

/// The greatest IDCODE of a stream. The least is 1: the standard reserves 0 and 65535.
pub const MAX_ID: u16 = 65534;

/// The greatest count of FRACSEC, which has 24 bits.
pub const MAX_FRAC: u32 = 0x00FF_FFFF;
