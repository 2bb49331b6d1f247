//! Makes the same thousand calls through a hub, whose base is brought up after each seven steps, and on the bare core, and prints whether
//! all answers, counts and layouts were alike: for a node, and for the merger.
ghost use Rattle.std.specs.Prelude.{◌≡◌, length};

use crate::rounds::{Seen, try_core};
use crate::streams::{SOC, Stream, Streams};
use pdc_core::{Core, Opens};
use pdc_life::{MAX_PMUS, Settings};
use pdc_merge::{Merger, copy_of_merger};
use pdc_node::{Node, copy_of};
use pdc_settings::{MergerSettings, NodeSettings};
use pdc_table::RingTable;
use std::alloc::Global;
use std::io;
use std::sync::Wait;
use try_script::SettingsText;

/// The configurations of PMU 11 and of PMU 12: one phasor, count 1.
const CONFIG_11: &str =
    "aa32004a000b448527f000000000000f42400001504d5520313120202020202020202020000b000000010000000056412020202020202020202020202020000df847000100010032c2ce";

const CONFIG_12: &str =
    "aa32004a000c448527f000000000000f42400001504d5520313220202020202020202020000c000000010000000056412020202020202020202020202020000df847000100010032c29b";

/// The payloads of their data: STAT, a phasor, FREQ and DFREQ.
const PAYLOAD_11: &str = "0000392b000009c40000";

const PAYLOAD_12: &str = "00001388ec78fffe0000";

/// The payload of a node's data: its own block, of start 1 and change 1, and the blocks of both PMUs.
const PAYLOAD_NODE: &str = "00000000000000000001000000010000392b000009c4000000001388ec78fffe0000";

/// The bytes of a text in hexadecimal.
fn bytes_of(alloc: Global, text: &str) -> Option<Vec<u8>> {
    hex::decode(alloc, text).ok()
}

/// A stream with these bytes.
fn stream_of(alloc: Global, id: u16, config: &str, payload: &str) -> Option<Stream> {
    Some(Stream {
        id,
        config: bytes_of(alloc, config)?,
        payload: bytes_of(alloc, payload)?,
    })
}

/// The streams of both PMUs.
fn pmu_streams(alloc: Global) -> Option<Streams> {
    Some(Streams {
        first: stream_of(alloc, 11, CONFIG_11, PAYLOAD_11)?,
        second: stream_of(alloc, 12, CONFIG_12, PAYLOAD_12)?,
    })
}

/// The settings of the node with this id.
fn node_settings(alloc: Global, id: u16) -> Option<Settings> {
    let Ok(text) = SettingsText::of(id).node(alloc, &[11, 12], 4811) else {
        return None;
    };
    let Ok(settings) = NodeSettings::from_toml(alloc, text.as_str()) else {
        return None;
    };
    Some(settings.life)
}

/// Appends the layout frame of a node that adopts both PMUs. Whether there was memory for it.
fn append_layout(node: &mut Node<RingTable>, streams: &Streams, layout: &mut Vec<u8>) -> bool
    requires { length node.old.settings.pmus.items ≡ 2 }
{
    let _first = node.put_datagram(0, &streams.first.config);
    let _second = node.put_datagram(1, &streams.second.config);
    let _ticked = Core::tick(node, 57_478_860_000, &[u16::MAX; MAX_PMUS]);
    node.layout_frame(SOC, layout).is_ok()
}

/// The layout frame of a node once it has adopted both PMUs. None where memory was wanted.
fn layout_of(alloc: Global, id: u16, streams: &Streams) -> Option<Vec<u8>> {
    let settings = node_settings(alloc, id)?;
    if settings.pmus.len() != 2 {
        return None;
    }
    let counts = [0; MAX_PMUS];
    let Ok(mut node) = Node::<RingTable>::open_first(alloc, copy_of(&settings), 1, 0, &counts)
    else {
        return None;
    };
    let mut layout = Vec::new(alloc);
    if append_layout(&mut node, streams, &mut layout) {
        Some(layout)
    } else {
        None
    }
}

/// The stream of the node with this id. None where memory was wanted.
fn node_stream(alloc: Global, id: u16, pmus: &Streams) -> Option<Stream> {
    Some(Stream {
        id,
        config: layout_of(alloc, id, pmus)?,
        payload: bytes_of(alloc, PAYLOAD_NODE)?,
    })
}

/// The streams of both nodes.
fn node_streams(alloc: Global) -> Option<Streams> {
    let pmus = pmu_streams(alloc)?;
    Some(Streams {
        first: node_stream(alloc, 201, &pmus)?,
        second: node_stream(alloc, 202, &pmus)?,
    })
}

/// All calls on a node.
fn try_node<R: Wait>(rt: &R, alloc: Global) -> Option<Seen> {
    let settings = node_settings(alloc, 201)?;
    if settings.pmus.len() != 2 {
        return None;
    }
    let streams = pmu_streams(alloc)?;
    let counts = [0; MAX_PMUS];
    let Ok(node) = Node::<RingTable>::open_first(alloc, copy_of(&settings), 1, 0, &counts) else {
        return None;
    };
    try_core(rt, alloc, node, &counts, &streams)
}

/// All calls on the merger.
fn try_merger<R: Wait>(rt: &R, alloc: Global) -> Option<Seen> {
    let Ok(text) = SettingsText::of(301).merger(alloc, &[11, 12]) else {
        return None;
    };
    let Ok(settings) = MergerSettings::from_toml(alloc, &text) else {
        return None;
    };
    let life = settings.life;
    let streams = node_streams(alloc)?;
    let counts = [0; MAX_PMUS];
    let Ok(merger) = Merger::<RingTable>::open_first(alloc, copy_of_merger(&life), 1, 0, &counts)
    else {
        return None;
    };
    try_core(rt, alloc, merger, &counts, &streams)
}

/// Prints what was seen.
fn print_seen<R: Print>(rt: &R, name: &str, seen: Option<Seen>) -> io::Result<()> {
    let Some(seen) = seen else {
        return println!(rt; "{name}: out of memory");
    };
    let (calls, taken, refused) = (seen.calls, seen.taken, seen.refused);
    let (candidate, known) = (seen.candidate, seen.known);
    let (rows, alike) = (seen.rows, seen.alike);
    println!(rt; "{name}: calls={calls} alike={alike}")?;
    println!(rt;
        "  taken={taken} candidate={candidate} known={known} refused={refused} rows={rows}"
    )
}

/// All calls on a node, and on the merger.
pub fn play<R: Wait + Print>(rt: &R, alloc: Global) -> io::Result<()> {
    print_seen(rt, "node", try_node(rt, alloc))?;
    print_seen(rt, "merger", try_merger(rt, alloc))
}
