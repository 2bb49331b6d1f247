//! What a frame is: its kind and its fields.
ghost use Rattle.std.specs.Prelude.{◌<◌, ◌≤◌, length};
ghost use Rattle.pdc_frame.specs.declared.limits.TheConstants.{MAX_VERSION, MAX_FRAC, MAX_PAYLOAD};

use crate::id::StreamId;

/// What a frame carries: bits 6 to 4 of the second byte of SYNC (C37.118.2-2011, table 2).
#[derive(Clone, Copy, Debug, PartialEq, Eq)]
pub enum Kind {
    /// Measurements.
    DataFrame,
    /// A text for people.
    HeaderFrame,
    /// What a PMU can send.
    Cfg1,
    /// What a PMU sends.
    Cfg2,
    /// A command to a PMU or a concentrator.
    CommandFrame,
    /// The extended configuration, which this profile names and does not read.
    Cfg3,
}

/// The fields of a frame (C37.118.2-2011, table 2). SYNC's first byte, FRAMESIZE and CHK follow from them.
#[derive(Clone, Copy, Debug)]
pub struct Frame<'a> {
    /// What the payload is.
    pub kind: Kind,
    /// The version of the standard that the sender follows: 1 or 2.
    pub version: u8,
    /// The stream's id.
    pub id: StreamId,
    /// Second of the century: seconds from 1970-01-01 00:00 UTC, leap seconds not counted.
    pub soc: u32,
    /// Time quality, the high byte of FRACSEC. Its low four bits are a number: the greater, the worse.
    pub quality: u8,
    /// The count of FRACSEC, below 16777216. Divided by TIME_BASE it is the fraction of the second.
    pub frac: u32,
    /// What stands between FRACSEC and CHK, at most 65519 bytes.
    pub payload: &'a [u8],
    pub ghost version_low: { 0 < version },
    pub ghost version_high: { version ≤ MAX_VERSION },
    pub ghost frac_fits: { frac ≤ MAX_FRAC },
    pub ghost payload_fits: { length payload.now ≤ MAX_PAYLOAD },
}
