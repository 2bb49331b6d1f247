//! Frames as JSON, one object a line.
ghost use Rattle.std.specs.Prelude.{◌≡◌, IfOk, [], ◌∷◌};
ghost use Rattle.json.specs.Print.{print};
ghost use Rattle.json.specs.Token.{string};

use json::Writer;
use pdc_block::Block;
use pdc_cfg::{ConfigView, SectionView};
use pdc_frame::{Command, Frame};
use pdc_values::{
    Channel, Field, Kind, Phasor, Quantity, Template, append_count, append_whole, channels_of,
    fixed_of, nominal_frequency, station_name,
};
use std::alloc::{AllocError, Global};

/// What stands in the place of a value that is absent.
const ABSENT: &str = "null";

/// A text as JSON, with its quotes.
///
/// # Errors
///
/// [`AllocError`] where there is no room and none is got.
pub fn quoted(alloc: Global, text: &str) -> Result<Vec<u8>, AllocError>
    ensures { IfOk result (λ v. v.items ≡ print (string text.now ∷ [])) }
{
    let mut writer = Writer::new(Vec::new(alloc));
    writer.string(text)?;
    Ok(writer.into_inner())
}

/// Adds a text as JSON, with its quotes.
fn add_quoted(alloc: Global, template: &mut Template, text: &str) -> Result<(), AllocError> {
    template.text(quoted(alloc, text)?.as_slice())
}

/// Appends a text as JSON, with its quotes.
fn append_quoted(alloc: Global, text: &str, out: &mut Vec<u8>) -> Result<(), AllocError> {
    out.extend_from_slice(quoted(alloc, text)?.as_slice())
}

/// Adds a member's name, behind a comma where it is not the first.
fn add_name(
    alloc: Global,
    template: &mut Template,
    name: &str,
    is_first: bool,
) -> Result<(), AllocError> {
    if !is_first {
        template.text(b",")?;
    }
    add_quoted(alloc, template, name)?;
    template.text(b":")
}

/// Adds a phasor: `{"unit":"V","magnitude":133987.37645,"angle":0.000000,"re":133987.37645,"im":0.00000}`.
fn add_phasor(template: &mut Template, unit: &str, phasor: Phasor) -> Result<(), AllocError> {
    template.text(b"{\"unit\":\"")?;
    template.text(unit.as_bytes())?;
    template.places(&[
        ("\",\"magnitude\":", Field::Magnitude(phasor)),
        (",\"angle\":", Field::Angle(phasor)),
        (",\"re\":", Field::Real(phasor)),
        (",\"im\":", Field::Imaginary(phasor)),
    ])?;
    template.text(b"}")
}

/// Adds what the words of a channel stand for.
fn add_quantity(template: &mut Template, quantity: Quantity) -> Result<(), AllocError> {
    match quantity {
        Quantity::Voltage(phasor) => add_phasor(template, "V", phasor),
        Quantity::Current(phasor) => add_phasor(template, "A", phasor),
        Quantity::Analog { place, factor } => template.place(Field::Analog { place, factor }),
        Quantity::Digital { place } => template.place(Field::Digital { place }),
    }
}

/// Adds the channels of some kinds, in an object.
fn add_members(
    alloc: Global,
    template: &mut Template,
    channels: &[Channel],
    kinds: &[Kind],
) -> Result<(), AllocError> {
    template.text(b"{")?;
    let mut is_first = true;
    for channel in channels {
        if kinds.contains(&channel.quantity.kind()) {
            add_name(alloc, template, channel.label.as_str(), is_first)?;
            add_quantity(template, channel.quantity)?;
            is_first = false;
        }
    }
    template.text(b"}")
}

/// Adds the name of a PMU, as JSON.
fn add_station(
    alloc: Global,
    template: &mut Template,
    section: &SectionView,
) -> Result<(), AllocError> {
    let name = station_name(alloc, section)?;
    add_quoted(alloc, template, name.as_str())
}

/// Adds the PMU's name and id, STAT, the frequency and its rate of change.
fn add_head(
    alloc: Global,
    template: &mut Template,
    section: &SectionView,
) -> Result<(), AllocError> {
    let fixed = fixed_of(section);
    template.text(b"{\"pmu\":")?;
    add_station(alloc, template, section)?;
    template.text(b",\"id\":")?;
    template.count(u64::from(section.source))?;
    template.places(&[
        (",\"stat\":", Field::Stat),
        (",\"stat_words\":\"", Field::StatWords),
        ("\",\"frequency\":", fixed.frequency),
        (",\"rocof\":", fixed.rocof),
    ])
}

/// Adds the object of a block of this section, which has these channels.
fn add_block(
    alloc: Global,
    template: &mut Template,
    section: &SectionView,
    channels: &[Channel],
) -> Result<(), AllocError> {
    add_head(alloc, template, section)?;
    template.text(b",\"phasors\":")?;
    add_members(alloc, template, channels, &[Kind::Voltage, Kind::Current])?;
    template.text(b",\"analogs\":")?;
    add_members(alloc, template, channels, &[Kind::Analog])?;
    template.text(b",\"digitals\":")?;
    add_members(alloc, template, channels, &[Kind::Digital])?;
    template.text(b"}")
}

/// The object of a block of this section.
///
/// # Errors
///
/// [`AllocError`] where there is no room and none is got.
pub fn block_template(alloc: Global, section: &SectionView) -> Result<Template, AllocError> {
    let channels = channels_of(alloc, section)?;
    let mut template = Template::new(alloc, ABSENT);
    add_block(alloc, &mut template, section, channels.as_slice())?;
    Ok(template)
}

/// Appends a member that is a whole number, behind its name.
fn append_member(name: &[u8], value: i64, out: &mut Vec<u8>) -> Result<(), AllocError> {
    out.extend_from_slice(name)?;
    append_whole(value, out)
}

/// Appends the beginning of the object of a frame: its kind, its time in UTC, or null where it has none, its stream, and the fields that the time
/// is told by.
///
/// # Errors
///
/// [`AllocError`] where there is no room and none is got.
pub fn append_frame(
    kind: &[u8],
    time: Option<&[u8]>,
    frame: &Frame,
    out: &mut Vec<u8>,
) -> Result<(), AllocError> {
    out.extend_from_slice(b"{\"kind\":\"")?;
    out.extend_from_slice(kind)?;
    out.extend_from_slice(b"\",\"time\":")?;
    match time {
        Some(time) => {
            out.extend_from_slice(b"\"")?;
            out.extend_from_slice(time)?;
            out.extend_from_slice(b"\"")?;
        }
        None => out.extend_from_slice(b"null")?,
    }
    append_member(b",\"stream\":", i64::from(frame.id.value), out)?;
    append_member(b",\"soc\":", i64::from(frame.soc), out)?;
    append_member(b",\"frac\":", i64::from(frame.frac), out)?;
    append_member(b",\"quality\":", i64::from(frame.quality), out)
}

/// Appends the rest of the object of a data frame, whose beginning is there.
///
/// # Errors
///
/// [`AllocError`] where there is no room and none is got.
pub fn append_blocks(
    templates: &[Template],
    blocks: &[Block],
    out: &mut Vec<u8>,
) -> Result<(), AllocError> {
    out.extend_from_slice(b",\"pmus\":")?;
    let mut separator = b"[";
    for (template, block) in templates.iter().zip(blocks) {
        out.extend_from_slice(separator)?;
        template.append(block, out)?;
        separator = b",";
    }
    out.extend_from_slice(b"]}\n")
}

/// Appends the object of a channel in a configuration.
fn append_channel(
    alloc: Global,
    channel: &Channel,
    separator: &[u8],
    out: &mut Vec<u8>,
) -> Result<(), AllocError> {
    out.extend_from_slice(separator)?;
    out.extend_from_slice(b"{\"name\":")?;
    append_quoted(alloc, channel.label.as_str(), out)?;
    let kind: &[u8] = match channel.quantity.kind() {
        Kind::Voltage => b",\"kind\":\"voltage\"}",
        Kind::Current => b",\"kind\":\"current\"}",
        Kind::Analog => b",\"kind\":\"analog\"}",
        Kind::Digital => b",\"kind\":\"digital\"}",
    };
    out.extend_from_slice(kind)
}

/// Appends the name of a PMU, as JSON.
fn append_station(
    alloc: Global,
    section: &SectionView,
    out: &mut Vec<u8>,
) -> Result<(), AllocError> {
    let name = station_name(alloc, section)?;
    append_quoted(alloc, name.as_str(), out)
}

/// Appends the objects of the channels of a section.
fn append_channels(
    alloc: Global,
    channels: &[Channel],
    out: &mut Vec<u8>,
) -> Result<(), AllocError> {
    let mut separator: &[u8] = b",\"channels\":[";
    if channels.is_empty() {
        out.extend_from_slice(separator)?;
    }
    for channel in channels {
        append_channel(alloc, channel, separator, out)?;
        separator = b",";
    }
    out.extend_from_slice(b"]}")
}

/// Appends the object of a section.
fn append_section(
    alloc: Global,
    section: &SectionView,
    out: &mut Vec<u8>,
) -> Result<(), AllocError> {
    out.extend_from_slice(b"{\"pmu\":")?;
    append_station(alloc, section, out)?;
    append_member(b",\"id\":", i64::from(section.source), out)?;
    append_member(b",\"count\":", i64::from(section.count), out)?;
    append_member(b",\"nominal\":", i64::from(nominal_frequency(section)), out)?;
    let channels = channels_of(alloc, section)?;
    append_channels(alloc, channels.as_slice(), out)
}

/// Appends the rest of the object of a configuration, whose beginning is there.
///
/// # Errors
///
/// [`AllocError`] where there is no room and none is got.
pub fn append_config(
    alloc: Global,
    config: &ConfigView,
    out: &mut Vec<u8>,
) -> Result<(), AllocError> {
    append_member(b",\"time_base\":", i64::from(config.time_base), out)?;
    append_member(b",\"rate\":", i64::from(config.rate), out)?;
    let mut separator: &[u8] = b",\"pmus\":[";
    for section in config.sections.as_slice() {
        out.extend_from_slice(separator)?;
        append_section(alloc, section, out)?;
        separator = b",";
    }
    out.extend_from_slice(b"]}\n")
}

/// Appends the rest of the object of a header frame, whose beginning is there. Bytes that are no UTF-8 are told by U+FFFD.
///
/// # Errors
///
/// [`AllocError`] where there is no room and none is got.
pub fn append_header(alloc: Global, text: &[u8], out: &mut Vec<u8>) -> Result<(), AllocError> {
    let text = String::from_utf8_lossy(alloc, text)?;
    out.extend_from_slice(b",\"text\":")?;
    append_quoted(alloc, text.as_str(), out)?;
    out.extend_from_slice(b"}\n")
}

/// What a command asks for.
fn command_words(command: Command) -> &'static str {
    match command {
        Command::DataOff => "data off",
        Command::DataOn => "data on",
        Command::SendHeader => "send header",
        Command::SendCfg1 => "send CFG-1",
        Command::SendCfg2 => "send CFG-2",
        Command::SendCfg3 => "send CFG-3",
    }
}

/// Appends the rest of the object of a command frame, whose beginning is there.
///
/// # Errors
///
/// [`AllocError`] where there is no room and none is got.
pub fn append_command(command: Command, out: &mut Vec<u8>) -> Result<(), AllocError> {
    append_member(b",\"command\":", command as i64, out)?;
    out.extend_from_slice(b",\"command_words\":\"")?;
    out.extend_from_slice(command_words(command).as_bytes())?;
    out.extend_from_slice(b"\"}\n")
}

/// Appends the object of a line that is refused.
///
/// # Errors
///
/// [`AllocError`] where there is no room and none is got.
pub fn append_refusal(
    alloc: Global,
    number: u64,
    refusal: &str,
    out: &mut Vec<u8>,
) -> Result<(), AllocError> {
    out.extend_from_slice(b"{\"kind\":\"refused\",\"line\":")?;
    append_count(number, out)?;
    out.extend_from_slice(b",\"refusal\":")?;
    append_quoted(alloc, refusal, out)?;
    out.extend_from_slice(b"}\n")
}
