//! What arrives of two streams.

use pdc_frame::{Frame, Kind, MAX_PAYLOAD, StreamId, write_frame};
use std::alloc::Global;

/// The second of the first instant.
pub const SOC: u32 = 1_149_577_200;

/// The frames in a second, and the counts of FRACSEC from one to the next.
pub const RATE: u32 = 50;

const FRAME_COUNTS: u32 = 20_000;

/// A stream: its id, its configuration and the payload of its data.
#[derive(Drop)]
pub struct Stream {
    pub id: u16,
    pub config: Vec<u8>,
    pub payload: Vec<u8>,
}

/// Both streams.
#[derive(Drop)]
pub struct Streams {
    pub first: Stream,
    pub second: Stream,
}

impl Stream {
    /// Its data for the instant so many frames after the first. None where memory was wanted, or id or payload are out of range.
    pub fn data(&self, alloc: Global, after: u16) -> Option<Vec<u8>> {
        let id = StreamId::new(self.id)?;
        if self.payload.len() > MAX_PAYLOAD {
            return None;
        }
        let after = u32::from(after);
        let mut bytes = Vec::new(alloc);
        let frame = Frame {
            kind: Kind::DataFrame,
            version: 2,
            id,
            soc: SOC + after / RATE,
            quality: 0,
            frac: (after % RATE) * FRAME_COUNTS,
            payload: self.payload.as_slice(),
        };
        if write_frame(&frame, &mut bytes).is_err() {
            return None;
        }
        Some(bytes)
    }
}
