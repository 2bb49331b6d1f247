//! What a configuration says of a PMU.
ghost use Rattle.std.specs.Prelude.{◌≤◌};
ghost use Rattle.pdc_watch.specs.declared.scaling.TheConstants.{MAX_SCALE};

use crate::scaling::{is_current, scale_of};
use pdc_block::{SectionView, Shape};
use std::alloc::{AllocError, Global};

/// The bytes of a name.
const NAME_LEN: usize = 16;

/// Where the names of the channels begin in a section.
const NAMES_PLACE: usize = 26;

/// The names of a digital word, one for each bit.
const NAMES_OF_DIGITAL: usize = 16;

/// The bytes of a unit.
const UNIT_LEN: usize = 4;

/// FNOM and CFGCNT, the last bytes of a section.
const LAST_LEN: usize = 4;

/// A channel that has a unit.
#[derive(Drop)]
pub struct Channel {
    /// Its name, without the spaces behind it.
    pub name: String,
    /// PHUNIT or ANUNIT.
    pub unit: u32,
}

/// What a configuration says of a PMU, as far as it is shown.
#[derive(Drop)]
pub struct Station {
    /// The id of the data's source.
    pub source: u16,
    /// CFGCNT.
    pub count: u16,
    /// How many phasors, analog values and digital words its data has.
    pub shape: Shape,
    /// Phasors are magnitude and angle.
    pub polar: bool,
    /// The nominal frequency is 50 Hz, and not 60 Hz.
    pub is_50: bool,
    /// STN, without the spaces behind it.
    pub name: String,
    /// The phasors.
    pub phasors: Vec<Channel>,
    /// The analog values.
    pub analogs: Vec<Channel>,
}

/// The bytes from this place on; none where it lies behind the end.
fn behind(bytes: &[u8], at: usize) -> &[u8] {
    bytes.get(at..).unwrap_or(&[])
}

/// The byte at this place, or 0.
fn byte_at(bytes: &[u8], at: usize) -> u8 {
    bytes.get(at).copied().unwrap_or(0)
}

/// The first four bytes as a number.
fn long_in(bytes: &[u8]) -> u32 {
    u32::from_be_bytes([
        byte_at(bytes, 0),
        byte_at(bytes, 1),
        byte_at(bytes, 2),
        byte_at(bytes, 3),
    ])
}

/// The name of 16 bytes that these begin with, up to the last that is no space; what is no letter of ASCII is shown as `?`.
fn name_in(alloc: Global, bytes: &[u8]) -> Result<String, AllocError> {
    let mut name = String::new(alloc);
    let mut spaces = 0usize;
    for byte in bytes.iter().take(NAME_LEN) {
        if *byte == b' ' || *byte == 0 {
            spaces = spaces.saturating_add(1);
            continue;
        }
        for _ in 0..spaces {
            name.push(' ')?;
        }
        spaces = 0;
        let shown = if byte.is_ascii_graphic() { *byte } else { b'?' };
        name.push(char::from(shown))?;
    }
    Ok(name)
}

/// So many channels, whose names and units begin so.
fn channels_in(
    alloc: Global,
    count: u8,
    names: &[u8],
    units: &[u8],
) -> Result<Vec<Channel>, AllocError> {
    let mut channels = Vec::new(alloc);
    for (name, unit) in names
        .chunks(NAME_LEN)
        .zip(units.chunks(UNIT_LEN))
        .take(usize::from(count))
    {
        channels.push(Channel {
            name: name_in(alloc, name)?,
            unit: long_in(unit),
        })?;
    }
    Ok(channels)
}

impl Station {
    /// What this section says.
    ///
    /// # Errors
    ///
    /// [`AllocError`] where there is no memory for its names.
    pub fn of(alloc: Global, section: &SectionView) -> Result<Station, AllocError> {
        let shape = section.shape;
        let (phasors, analogs) = (usize::from(shape.phasors), usize::from(shape.analogs));
        let digitals = usize::from(shape.digitals);
        let names = behind(section.bytes, NAMES_PLACE);
        let units = behind(
            names,
            NAME_LEN * (phasors + analogs + NAMES_OF_DIGITAL * digitals),
        );
        let last = behind(section.bytes, section.bytes.len().saturating_sub(LAST_LEN));
        Ok(Station {
            source: section.source,
            count: section.count,
            shape,
            polar: section.polar,
            is_50: byte_at(last, 1) % 2 == 1,
            name: name_in(alloc, section.bytes)?,
            phasors: channels_in(alloc, shape.phasors, names, units)?,
            analogs: channels_in(
                alloc,
                shape.analogs,
                behind(names, NAME_LEN * phasors),
                behind(units, UNIT_LEN * phasors),
            )?,
        })
    }
}

impl Channel {
    /// The scale of a phasor, at most 16777215 hundred-thousandths.
    pub fn scale(&self) -> u32
        ensures { result ≤ MAX_SCALE }
    {
        scale_of(self.unit)
    }

    /// Whether a phasor is a current.
    pub fn is_current(&self) -> bool {
        is_current(self.unit)
    }
}
