//! The frames of sixteen PMUs.

use pdc_frame::{Frame, Kind, StreamId, tag_of, write_frame};
use std::alloc::Global;

/// How many PMUs there are; their streams are 11 to 26.
pub const PMUS: usize = 16;

const FIRST_STREAM: u16 = 11;

/// Up to this instant nothing is to be published: second 1149577200 at 50 frames a second.
pub const FLOOR: u64 = 57_478_860_000;

const RATE: u32 = 50;

const TIME_BASE: u32 = 1_000_000;

/// The payload of a configuration: TIME_BASE, one PMU with one phasor, its IDCODE at 22, count 1, 50 frames a second.
const CONFIG: [u8; 58] =
    *b"\x00\x0F\x42\x40\x00\x01PMU             \x00\x0B\x00\x00\x00\x01\x00\x00\x00\x00VA              \x00\x01\x86\xA0\x00\x01\x00\x01\x00\x32";

const SOURCE_AT: usize = 22;

/// The frames of each PMU: its configuration, and then its data for each instant above the floor.
#[derive(Drop)]
pub struct Frames {
    /// A list for each PMU.
    pub streams: Vec<Vec<Vec<u8>>>,
    /// How many instants there are.
    pub count: u32,
}

/// The frame of stream `id` at this instant, with this payload.
fn frame_of(alloc: Global, kind: Kind, id: u16, instant: u64, payload: &[u8]) -> Option<Vec<u8>> {
    if id == 0 || id > 100 || payload.len() > 100 || instant >= 2 * FLOOR {
        return None;
    }
    let (soc, frac) = tag_of(instant, TIME_BASE, RATE);
    let mut bytes = Vec::new(alloc);
    let frame = Frame {
        kind,
        version: 2,
        id: StreamId { value: id },
        soc,
        quality: 0,
        frac,
        payload,
    };
    match write_frame(&frame, &mut bytes) {
        Ok(()) => Some(bytes),
        Err(_) => None,
    }
}

/// The frames of the stream `id`.
fn stream_of(alloc: Global, id: u16, count: u32) -> Option<Vec<Vec<u8>>> {
    let mut frames = Vec::new(alloc);
    let mut payload = CONFIG;
    payload[SOURCE_AT..SOURCE_AT + 2].copy_from_slice(&id.to_be_bytes());
    let config = frame_of(alloc, Kind::Cfg2, id, FLOOR, &payload)?;
    if frames.push(config).is_err() {
        return None;
    }
    for number in 1..=count {
        // STAT, a phasor that counts, FREQ and DFREQ.
        let mut words = [0; 10];
        words[2..4].copy_from_slice(&((number % 32768) as u16).to_be_bytes());
        let data = frame_of(
            alloc,
            Kind::DataFrame,
            id,
            FLOOR + u64::from(number),
            &words,
        )?;
        if frames.push(data).is_err() {
            return None;
        }
    }
    Some(frames)
}

impl Frames {
    /// The frames of so many instants, if there is memory for them.
    pub fn new(alloc: Global, count: u32) -> Option<Frames> {
        let mut streams = Vec::new(alloc);
        for k in 0..PMUS {
            let stream = stream_of(alloc, FIRST_STREAM + k as u16, count)?;
            if streams.push(stream).is_err() {
                return None;
            }
        }
        Some(Frames { streams, count })
    }
}
