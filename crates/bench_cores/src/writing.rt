//! From values to bytes.

use crate::reading::shape_of;
use pdc_block::{cut, join};
use pdc_cfg::{read_config, write_config};
use pdc_frame::{Frame, Kind, MAX_PAYLOAD, read_frame, write_frame};
use std::alloc::Global;

/// Reads a configuration frame once and writes it `rounds` times, each with another SOC, into one buffer; mixes the
/// ends of what was written; 0 where it is refused or memory runs out.
#[unsafe(no_mangle)]
pub extern "C" fn dagluwis_write_config(alloc: Global, bytes: &[u8], rounds: u32) -> u64 {
    let Ok(frame) = read_frame(bytes) else {
        return 0;
    };
    let Ok(config) = read_config(&frame) else {
        return 0;
    };
    let mut out = Vec::new(alloc);
    let mut mixed = 0u64;
    for soc in 0..rounds {
        out.clear();
        if write_config(&config, Kind::Cfg2, frame.id, soc, &mut out).is_err() {
            return 0;
        }
        if let Some(last) = out.last() {
            mixed = mixed.rotate_left(1) ^ u64::from(*last);
        }
    }
    mixed
}

/// Reads a data frame of one PMU once and writes it `rounds` times, each with another SOC, into one buffer: its blocks
/// joined and framed. Mixes the ends of what was written; 0 where it is refused or memory runs out.
#[unsafe(no_mangle)]
pub extern "C" fn dagluwis_write_data(
    alloc: Global,
    bytes: &[u8],
    phasors: u8,
    analogs: u8,
    digitals: u8,
    rounds: u32,
) -> u64 {
    let Some(shape) = shape_of(phasors, analogs, digitals) else {
        return 0;
    };
    let Ok(frame) = read_frame(bytes) else {
        return 0;
    };
    let Ok(blocks) = cut(&[shape], frame.payload) else {
        return 0;
    };
    let mut payload = Vec::new(alloc);
    let mut out = Vec::new(alloc);
    let mut mixed = 0u64;
    for soc in 0..rounds {
        payload.clear();
        out.clear();
        if join(blocks.as_slice(), &mut payload).is_err() || payload.len() > MAX_PAYLOAD {
            return 0;
        }
        let again = Frame {
            kind: frame.kind,
            version: frame.version,
            id: frame.id,
            soc,
            quality: frame.quality,
            frac: frame.frac,
            payload: payload.as_slice(),
        };
        if write_frame(&again, &mut out).is_err() {
            return 0;
        }
        if let Some(last) = out.last() {
            mixed = mixed.rotate_left(1) ^ u64::from(*last);
        }
    }
    mixed
}
