//! What bytes say that arrived at the merger from a node.
ghost use Rattle.std.specs.Prelude.{◌≡◌, ◌<◌, List, ℕ};
ghost use Rattle.pdc_life.specs.CoreKind.{OfMerger, Says};
ghost use Rattle.pdc_life.specs.pdc_frame.Frame.{fields_of};
ghost use Rattle.pdc_life.specs.pdc_frame.declared.frame.Kind.TheVariants.{DataFrame, Cfg2};
ghost use Rattle.pdc_life.specs.pdc_cfg.Config.{config_fields_of};
ghost use Rattle.pdc_life.specs.MergerReading.{ReadsFrom, stream_from};
ghost use Rattle.pdc_life.specs.Reading.{HasConfig, IsOfStream};
ghost use Rattle.pdc_arrival.specs.Heard.{HearsFrom, HearsForMerger, SaysData, node_of};
ghost use Rattle.pdc_arrival.specs.Views.{arrival_view};

use crate::arrival::Arrival;
use crate::own_stamp::own_stamp;
use crate::placing::place_sections;
use arrayvec::ArrayVec;
use pdc_life::{
    CfgFault, ConfigView, Frame, Kind, MergedNode, MergerSettings, Reading, Refusal, instant,
    read_config, read_frame,
};

/// The nodes whose streams the merger takes.
pub const NODES: usize = 2;

/// What bytes say that arrived for the stream with this number: 0 is node A's, 1 is node B's. It takes no memory.
pub fn read_from_node<'a>(settings: &MergerSettings, stream: usize, bytes: &'a [u8]) -> Arrival<'a>
    requires { stream < NODES }
    ensures { Says (OfMerger settings.now) stream bytes.now (arrival_view result) }
{
    arrival_from_node(settings, stream, hear_from_node(settings, stream, bytes))
}

/// The same in less room: of a configuration it is the CFG-2 frame, which [`arrival_from_node`] reads. It takes no memory.
#[inline]
pub fn hear_from_node<'a>(
    settings: &MergerSettings,
    stream: usize,
    bytes: &'a [u8],
) -> Reading<'a, Frame<'a>>
    requires { stream < NODES }
    ensures heard { HearsForMerger settings.now stream bytes.now result }
    ensures data { SaysData settings.now stream bytes.now result }
{
    hear(settings, node_of(settings, stream), bytes)
}

/// What was heard for the stream with this number says this: a configuration is read. It takes no memory.
pub fn arrival_from_node<'a>(
    settings: &MergerSettings,
    stream: usize,
    heard: Reading<'a, Frame<'a>>,
) -> Arrival<'a>
    requires { stream < NODES }
    ensures { (bytes : List ℕ) → HearsForMerger settings.now stream bytes heard.entry →
        Says (OfMerger settings.now) stream bytes (arrival_view result) }
{
    arrival_of(settings, node_of(settings, stream), heard)
}

/// The node of this stream.
#[inline(always)]
pub(crate) fn node_of(settings: &MergerSettings, stream: usize) -> &MergedNode
    ensures { result.now ≡ node_of settings.now stream }
{
    if stream == 0 {
        &settings.first
    } else {
        &settings.second
    }
}

/// What bytes say that came from this node, before a configuration is read.
#[inline(always)]
fn hear<'a>(settings: &MergerSettings, node: &MergedNode, bytes: &'a [u8]) -> Reading<'a, Frame<'a>>
    ensures { HearsFrom settings.now node.now bytes.now result }
{
    let frame = match read_frame(bytes) {
        Ok(frame) => frame,
        Err(fault) => return Reading::BytesRefused(Refusal::NoFrame(fault)),
    };
    if frame.id.value != node.id.value {
        return Reading::BytesRefused(Refusal::WrongId);
    }
    match frame.kind {
        Kind::DataFrame => hear_data(settings, node, &frame),
        Kind::Cfg2 => Reading::Configuration(frame),
        _ => Reading::BytesRefused(Refusal::NoConfiguration(CfgFault::WrongKind)),
    }
}

/// What a data frame of the node's stream says.
#[inline(always)]
fn hear_data<'a>(
    settings: &MergerSettings,
    node: &MergedNode,
    frame: &Frame<'a>,
) -> Reading<'a, Frame<'a>>
    ensures { (bytes : List ℕ) → IsOfStream (stream_from settings.now node.now) bytes
        (fields_of frame.now) → frame.now.kind ≡ DataFrame
        → HearsFrom settings.now node.now bytes result }
{
    let rate = u32::from(settings.output.rate);
    match instant(frame.soc, frame.frac, node.time_base, rate) {
        Some(instant) => Reading::Data {
            instant,
            quality: frame.quality,
            payload: frame.payload,
        },
        None => Reading::BytesRefused(Refusal::BadTag),
    }
}

/// What was heard from this node says this.
fn arrival_of<'a>(
    settings: &MergerSettings,
    node: &MergedNode,
    heard: Reading<'a, Frame<'a>>,
) -> Arrival<'a>
    ensures { (bytes : List ℕ) → HearsFrom settings.now node.now bytes heard.entry →
        ReadsFrom settings.now node.now bytes (arrival_view result) }
{
    match heard {
        Reading::BytesRefused(refusal) => Arrival::BytesRefused(refusal),
        Reading::Data {
            instant,
            quality,
            payload,
        } => Arrival::Data {
            instant,
            quality,
            payload,
        },
        Reading::Configuration(frame) => read_configuration(settings, node, &frame),
    }
}

/// What a CFG-2 frame of the node's stream says.
#[inline(never)]
fn read_configuration<'a>(
    settings: &MergerSettings,
    node: &MergedNode,
    frame: &Frame<'a>,
) -> Arrival<'a>
    ensures { (bytes : List ℕ) → IsOfStream (stream_from settings.now node.now) bytes
        (fields_of frame.now) → frame.now.kind ≡ Cfg2
        → ReadsFrom settings.now node.now bytes (arrival_view result) }
{
    match read_config(frame) {
        Ok(config) => read_layout(settings, node, &config),
        Err(fault) => Arrival::BytesRefused(Refusal::NoConfiguration(fault)),
    }
}

/// What a configuration of the node's stream says.
fn read_layout<'a>(
    settings: &MergerSettings,
    node: &MergedNode,
    config: &ConfigView<'a>,
) -> Arrival<'a>
    ensures { (bytes : List ℕ) → HasConfig (stream_from settings.now node.now) bytes
        (config_fields_of config.now)
        → ReadsFrom settings.now node.now bytes (arrival_view result) }
{
    if config.time_base != node.time_base {
        return Arrival::BytesRefused(Refusal::WrongTimeBase);
    }
    if config.rate.cast_unsigned() != settings.output.rate {
        return Arrival::BytesRefused(Refusal::WrongRate);
    }
    let own = config.sections[0];
    let others = &config.sections.as_slice()[1..];
    let Some(stamp) = own_stamp(settings, node, own.bytes) else {
        return Arrival::BytesRefused(Refusal::BadOwnBlock);
    };
    let mut sections = ArrayVec::new();
    if place_sections(settings.sources.as_slice(), 0, others, &mut sections) {
        Arrival::Layout {
            stamp: Some(stamp),
            sections,
        }
    } else {
        Arrival::BytesRefused(Refusal::UnknownSource)
    }
}
