//! The values of a block.

use crate::scaling::{scaled_magnitude, scaled_part};
use crate::shown::{ShownAnalog, ShownPhasor};
use crate::station::{Channel, Station};
use std::alloc::{AllocError, Global};
use std::num::{nearest_i64_to_f64, nearest_u64_to_f64};

/// Angles are in ten-thousandths of a radian, and phasors are scaled by hundred-thousandths.
const ANGLE_COUNTS: f64 = 10000.0;

const SCALE_COUNTS: f64 = 100000.0;

/// A phasor of these two words.
fn phasor_of(channel: &Channel, polar: bool, first: u16, second: u16) -> ShownPhasor<'_> {
    let scale = channel.scale();
    let unit = if channel.is_current() { "A" } else { "V" };
    let name = channel.name.as_str();
    if polar {
        return ShownPhasor {
            name,
            unit,
            magnitude: Some(nearest_u64_to_f64(scaled_magnitude(first, scale)) / SCALE_COUNTS),
            angle_rad: Some(f64::from(second.cast_signed()) / ANGLE_COUNTS),
            re: None,
            im: None,
        };
    }
    ShownPhasor {
        name,
        unit,
        magnitude: None,
        angle_rad: None,
        re: Some(nearest_i64_to_f64(scaled_part(first.cast_signed(), scale)) / SCALE_COUNTS),
        im: Some(nearest_i64_to_f64(scaled_part(second.cast_signed(), scale)) / SCALE_COUNTS),
    }
}

/// The phasors of a block with these words.
pub fn phasors_of<'a>(
    alloc: Global,
    station: &'a Station,
    words: &[u16],
) -> Result<Vec<ShownPhasor<'a>>, AllocError> {
    let mut phasors = Vec::new(alloc);
    let pairs = words.get(1..).unwrap_or(&[]).chunks(2);
    for (channel, pair) in station.phasors.as_slice().iter().zip(pairs) {
        let first = pair.first().copied().unwrap_or(0);
        let second = pair.get(1).copied().unwrap_or(0);
        phasors.push(phasor_of(channel, station.polar, first, second))?;
    }
    Ok(phasors)
}

/// The analog values of a block, whose words begin with them.
pub fn analogs_of<'a>(
    alloc: Global,
    station: &'a Station,
    words: &[u16],
) -> Result<Vec<ShownAnalog<'a>>, AllocError> {
    let mut analogs = Vec::new(alloc);
    for (channel, word) in station.analogs.as_slice().iter().zip(words.iter()) {
        analogs.push(ShownAnalog {
            name: channel.name.as_str(),
            value: word.cast_signed(),
        })?;
    }
    Ok(analogs)
}

/// The digital words of a block, whose words begin with them.
pub fn digitals_of(alloc: Global, count: u8, words: &[u16]) -> Result<Vec<u32>, AllocError> {
    let mut digitals = Vec::new(alloc);
    for word in words.iter().take(usize::from(count)) {
        digitals.push(u32::from(*word))?;
    }
    Ok(digitals)
}
