//! The channels of a section: what they are called, and what their words stand for.
ghost use Rattle.std.specs.Prelude.{◌≡◌, ◌+◌, ◌-◌, ◌*◌, ◌<◌, ◌≤◌, ◌%◌, ◌^◌, length};
ghost use Rattle.pdc_frame.specs.Bytes.{word_at, long_at};

use crate::field::Field;
use crate::own::is_own;
use crate::phasor::Phasor;
use crate::quantity::{analog_factor, phasor_factor};
use pdc_cfg::{SectionView, Shape};
use pdc_frame::{read_long, read_word};
use std::alloc::{AllocError, Global};

/// The bytes of a name.
const NAME_LEN: usize = 16;

/// Where the names of the channels begin (C37.118.2-2011, table 9).
const NAMES_PLACE: usize = 26;

/// The names of a digital word: one for each bit.
const DIGITAL_NAMES: usize = 16;

/// What the words of a channel stand for.
#[derive(Clone, Copy)]
pub enum Quantity {
    /// A voltage in volts.
    Voltage(Phasor),
    /// A current in amperes.
    Current(Phasor),
    /// An analog value.
    Analog {
        /// Where its word stands in the block.
        place: u8,
        /// What its word is multiplied by.
        factor: i32,
    },
    /// A digital word.
    Digital {
        /// Where it stands in the block.
        place: u8,
    },
}

/// What kind of channel one is.
#[derive(Clone, Copy, PartialEq, Eq)]
pub enum Kind {
    /// A phasor of a voltage.
    Voltage,
    /// A phasor of a current.
    Current,
    /// An analog value.
    Analog,
    /// A digital word.
    Digital,
}

impl Quantity {
    /// Of which kind it is.
    pub fn kind(&self) -> Kind {
        match self {
            Quantity::Voltage(_) => Kind::Voltage,
            Quantity::Current(_) => Kind::Current,
            Quantity::Analog { .. } => Kind::Analog,
            Quantity::Digital { .. } => Kind::Digital,
        }
    }
}

/// A channel of a section.
#[derive(Drop)]
pub struct Channel {
    /// What it is called, unlike any other channel of the section.
    pub label: String,
    /// What its words stand for.
    pub quantity: Quantity,
}

/// Where the factors of the channels begin, behind their names (C37.118.2-2011, table 9).
fn units_place(shape: Shape) -> usize
    ensures { result ≡ 26 + 16 * (shape.phasors + shape.analogs + 16 * shape.digitals) }
{
    let (phasors, analogs) = (usize::from(shape.phasors), usize::from(shape.analogs));
    NAMES_PLACE + NAME_LEN * (phasors + analogs + DIGITAL_NAMES * usize::from(shape.digitals))
}

/// The nominal frequency in hertz: bit 0 of FNOM (C37.118.2-2011, table 9).
pub fn nominal_frequency(section: &SectionView) -> u16
    ensures fifty { word_at section.now.bytes.now (length section.now.bytes.now - 4) % 2 ≡ 1 →
        result ≡ 50 }
    ensures sixty { word_at section.now.bytes.now (length section.now.bytes.now - 4) % 2 ≡ 0 →
        result ≡ 60 }
{
    if read_word(section.bytes, section.bytes.len() - 4) % 2 == 1 {
        50
    } else {
        60
    }
}

/// A name as text: without the blanks and zeros at its end, and with `?` for what is not printable ASCII.
fn name_text(alloc: Global, name: &[u8]) -> Result<String, AllocError> {
    let mut text = String::new(alloc);
    let mut blanks = 0u8;
    for byte in name {
        if *byte == b' ' || *byte == 0 {
            blanks = blanks.saturating_add(1);
            continue;
        }
        for _ in 0..blanks {
            text.push(' ')?;
        }
        blanks = 0;
        text.push(if byte.is_ascii_graphic() {
            char::from(*byte)
        } else {
            '?'
        })?;
    }
    Ok(text)
}

/// The name of the PMU.
///
/// # Errors
///
/// [`AllocError`] where there is no room and none is got.
pub fn station_name(alloc: Global, section: &SectionView) -> Result<String, AllocError> {
    name_text(alloc, &section.bytes[..NAME_LEN])
}

/// Whether a channel is called so.
fn is_taken(channels: &[Channel], label: &str) -> bool {
    channels
        .iter()
        .any(|channel| channel.label.as_str() == label)
}

/// A label that no channel is called by yet: where one is, a `#` and the number of the channel among all stand behind, as often as it takes.
/// Each time it grows, so no label is tried twice, and one more than there are channels are enough.
fn free_label(alloc: Global, channels: &[Channel], label: String) -> Result<String, AllocError> {
    let number = channels.len().saturating_add(1);
    let mut free = label;
    for _ in 0..channels.len() {
        if !is_taken(channels, free.as_str()) {
            return Ok(free);
        }
        free = format!(in alloc; "{free}#{number}")?;
    }
    Ok(free)
}

/// What the channel of this name is called: its name, or its kind and number where it has none. Where another channel before it is called so, a
/// `#` and its number among all channels stand behind.
fn label_of(
    alloc: Global,
    channels: &[Channel],
    name: String,
    kind: &str,
    before: u8,
) -> Result<String, AllocError> {
    let label = if name.is_empty() {
        let number = u16::from(before) + 1;
        format!(in alloc; "{kind}{number}")?
    } else {
        name
    };
    free_label(alloc, channels, label)
}

/// The name of the channel with this number among phasors and analog values, counted from 0.
fn channel_name(alloc: Global, section: &SectionView, k: usize) -> Result<String, AllocError>
    requires { k < section.now.shape.phasors + section.now.shape.analogs }
{
    let start = NAMES_PLACE + NAME_LEN * k;
    name_text(alloc, &section.bytes[start..start + NAME_LEN])
}

/// PHUNIT or ANUNIT of the channel with this number among phasors and analog values, counted from 0.
fn unit_word(section: &SectionView, k: usize) -> u32
    requires { k < section.now.shape.phasors + section.now.shape.analogs }
{
    read_long(section.bytes, units_place(section.shape) + 4 * k)
}

/// What the words of the phasor with this number stand for. Bits 31 to 24 of PHUNIT are 0 for a voltage, and else it is a current
/// (C37.118.2-2011, table 9).
fn phasor_quantity(unit: u32, polar: bool, k: u8) -> Quantity
    requires { k < 32 }
{
    let phasor = Phasor {
        place: 1 + 2 * k,
        factor: phasor_factor(unit),
        polar,
    };
    if unit >> 24 == 0 {
        Quantity::Voltage(phasor)
    } else {
        Quantity::Current(phasor)
    }
}

/// Adds a channel, before which there are so many of its kind.
fn add(
    alloc: Global,
    channels: &mut Vec<Channel>,
    name: String,
    kind: &str,
    before: u8,
    quantity: Quantity,
) -> Result<(), AllocError> {
    let label = label_of(alloc, channels.as_slice(), name, kind, before)?;
    channels
        .push(Channel { label, quantity })
        .map_err(|_| AllocError)
}

/// The channels of the section in the order of a block's words: phasors, analog values, digital words.
///
/// # Errors
///
/// [`AllocError`] where there is no room and none is got.
pub fn channels_of(alloc: Global, section: &SectionView) -> Result<Vec<Channel>, AllocError> {
    let mut channels = Vec::new(alloc);
    let shape = section.shape;
    let (phasors, analogs) = (shape.phasors, shape.analogs);
    for k in 0..phasors {
        let channel = usize::from(k);
        let name = channel_name(alloc, section, channel)?;
        let quantity = phasor_quantity(unit_word(section, channel), section.polar, k);
        add(alloc, &mut channels, name, "phasor", k, quantity)?;
    }
    for k in 0..analogs {
        let channel = usize::from(phasors) + usize::from(k);
        let name = channel_name(alloc, section, channel)?;
        let factor = analog_factor(unit_word(section, channel));
        let place = 3 + 2 * phasors + k;
        add(
            alloc,
            &mut channels,
            name,
            "analog",
            k,
            Quantity::Analog { place, factor },
        )?;
    }
    for k in 0..shape.digitals {
        let place = 3 + 2 * phasors + analogs + k;
        let name = String::new(alloc);
        add(
            alloc,
            &mut channels,
            name,
            "digital",
            k,
            Quantity::Digital { place },
        )?;
    }
    Ok(channels)
}

/// The places of a block that are no channel.
#[derive(Clone, Copy)]
pub struct Fixed {
    /// FREQ.
    pub frequency: Field,
    /// DFREQ.
    pub rocof: Field,
}

/// The frequency and its rate of change, in a block of this section. The own block of a concentrator has neither: it measures nothing.
pub fn fixed_of(section: &SectionView) -> Fixed {
    if is_own(section) {
        return Fixed {
            frequency: Field::Nothing,
            rocof: Field::Nothing,
        };
    }
    let place = 1 + 2 * section.shape.phasors;
    Fixed {
        frequency: Field::Frequency {
            place,
            nominal: nominal_frequency(section),
        },
        rocof: Field::Rocof { place: place + 1 },
    }
}
