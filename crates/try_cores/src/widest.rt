//! The widest node: sixteen PMUs with the most channels, and their frames.

use pdc_frame::{Frame, Kind, StreamId, write_frame};
use pdc_life::{MAX_PMUS, Settings};
use pdc_settings::NodeSettings;
use std::alloc::{AllocError, Global};
use try_script::{SettingsText, Told};

/// How many PMUs it has: their ids are 1 to 16.
pub const PMUS: u16 = 16;

const IDS: [u16; 16] = [1, 2, 3, 4, 5, 6, 7, 8, 9, 10, 11, 12, 13, 14, 15, 16];

/// The second of its first frames.
const SOC: u32 = 1_149_577_200;

/// What precedes the section: TIME_BASE, and one PMU.
const CONFIG_HEAD: [u8; 6] = [0x00, 0x0F, 0x42, 0x40, 0x00, 0x01];

/// FORMAT, and 32 phasors, 32 analog values and 8 digital words.
const MOST_CHANNELS: [u8; 8] = [0x00, 0x00, 0x00, 0x20, 0x00, 0x20, 0x00, 0x08];

/// What follows the names and factors of the channels: FNOM, CFGCNT and DATA_RATE.
const CONFIG_END: [u8; 6] = [0x00, 0x01, 0x00, 0x01, 0x00, 0x32];

/// What it is told.
pub fn told(alloc: Global) -> Result<Option<Told<Settings>>, AllocError> {
    let text = SettingsText::of(201).node(alloc, &IDS, 4811)?;
    match NodeSettings::from_toml(alloc, &text) {
        Ok(settings) => Ok(Some(Told {
            settings: settings.life,
            counts: [0; MAX_PMUS],
        })),
        Err(_) => Ok(None),
    }
}

/// The frame of a PMU with this payload, of the first instant after the first of its second.
fn frame_of(
    alloc: Global,
    kind: Kind,
    id: u16,
    frac: u32,
    payload: &[u8],
) -> Result<Vec<u8>, AllocError> {
    let mut frame = Vec::new(alloc);
    if id == 0 || id > PMUS || frac > 1_000_000 || payload.len() > 4096 {
        return Ok(frame);
    }
    let fields = Frame {
        kind,
        version: 2,
        id: StreamId { value: id },
        soc: SOC,
        quality: 0,
        frac,
        payload,
    };
    write_frame(&fields, &mut frame)?;
    Ok(frame)
}

/// The configuration of a PMU: all names and factors are zeros.
pub fn config_frame(alloc: Global, id: u16) -> Result<Vec<u8>, AllocError> {
    let mut payload = Vec::new(alloc);
    payload.extend_from_slice(&CONFIG_HEAD)?;
    payload.extend_from_slice(&[0; 16])?;
    payload.extend_from_slice(&id.to_be_bytes())?;
    payload.extend_from_slice(&MOST_CHANNELS)?;
    payload.extend_from_slice(&[0; 3360])?;
    payload.extend_from_slice(&CONFIG_END)?;
    frame_of(alloc, Kind::Cfg2, id, 0, &payload)
}

/// Data of a PMU, each byte of whose words is its id.
pub fn data_frame(alloc: Global, id: u16) -> Result<Vec<u8>, AllocError> {
    let mut payload = Vec::new(alloc);
    for _ in 0..214 {
        payload.push((id & 0x3F) as u8)?;
    }
    frame_of(alloc, Kind::DataFrame, id, 20_000, &payload)
}
