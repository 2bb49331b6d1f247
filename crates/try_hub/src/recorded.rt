//! Lives of nodes 201 and 202 through a hub, each recorded to a file as a running one is: the numbers of its steps are those that the hub
//! answers. Each record is replayed; and the events of 201 are replayed on what the record of 202 begins with. The life of 203 is recorded to a
//! new file wherever one may begin, and replayed from each of them on.
ghost use Rattle.std.specs.Prelude.{◌≡◌, length};

use crate::life::{Opened, Sent, record_life};
use pdc_core::Opens;
use pdc_journal::Journal;
use pdc_life::{MAX_PMUS, Settings};
use pdc_node::{Node, copy_of};
use pdc_record::{Begun, Role, read_entry};
use pdc_recording::{Limits, Recording, Series, Shelf, write_record};
use pdc_replay::{Player, print_halt};
use pdc_settings::NodeSettings;
use pdc_table::RingTable;
use std::alloc::Global;
use std::env::Env;
use std::rt::{Clock, Files};
use std::sync::Wait;
use std::{env, fs, io, str};
use try_script::SettingsText;

/// The configuration of PMU 11, one phasor and count 1, and its data for 57478860001.
const FIRST: [&str; 2] = [
    "aa32004a000b448527f000000000000f42400001504d5520313120202020202020202020000b000000010000000056412020202020202020202020202020000df847000100010032c2ce",
    "aa02001a000b448527f000004e200000392b000009c400002623",
];

/// Those of PMU 12.
const SECOND: [&str; 2] = [
    "aa32004a000c448527f000000000000f42400001504d5520313220202020202020202020000c000000010000000056412020202020202020202020202020000df847000100010032c29b",
    "aa02001a000c448527f000004e2000001388ec78fffe0000ce65",
];

/// More files than a record has here.
const MOST_FILES: u32 = 16;

/// What the record of a node with this id and these settings begins with.
fn begun_of(id: u16, text: &str) -> Begun<'_> {
    Begun {
        role: Role::Node,
        id,
        rate: 50,
        start: 1,
        floor: 0,
        counts: [0; MAX_PMUS],
        now: 0,
        program: [0, 1, 0],
        settings: text.as_bytes(),
    }
}

/// The life of a node with these settings, recorded. None where memory was wanted.
fn live<R: Wait + Clock>(
    rt: &R,
    alloc: Global,
    settings: &Settings,
    recording: &Recording,
) -> Option<()> {
    if settings.pmus.len() != 2 {
        return None;
    }
    let counts = [0; MAX_PMUS];
    let Ok(core) = Node::<RingTable>::open_first(alloc, copy_of(settings), 1, 0, &counts) else {
        return None;
    };
    let sent = Sent {
        first: &FIRST,
        second: &SECOND,
    };
    let opened = Opened {
        settings,
        counts,
        core,
    };
    record_life(rt, alloc, opened, recording, &sent)
}

/// Writes what was recorded. None where memory was wanted.
fn write_life<R: Wait + Clock + Shelf>(
    rt: &R,
    alloc: Global,
    recording: &Recording,
    series: Series,
) -> Option<()> {
    let journal = Journal::new(alloc, true).ok()?;
    write_record(rt, alloc, recording, series, &journal);
    Some(())
}

/// Lives as node with this id, and writes the record to files of this name and size. None where memory was wanted, or a file could not be made.
fn live_and_record<R: Wait + Clock + Shelf>(
    rt: &R,
    alloc: Global,
    id: u16,
    name: &str,
    size: u64,
) -> Option<()> {
    let Ok(text) = SettingsText::of(id).node(alloc, &[11, 12], 4811) else {
        return None;
    };
    let settings = NodeSettings::from_toml(alloc, text.as_str()).ok()?;
    let limits = Limits {
        size,
        keep: None,
        lives: None,
    };
    let series = Series::open(rt, alloc, name, limits, begun_of(id, &text), 0).ok()?;
    let recording = Recording::new(alloc).ok()?;
    live(rt, alloc, &settings.life, &recording)?;
    recording.close(rt);
    write_life(rt, alloc, &recording, series)
}

/// Plays the entries of these bytes; whether they were as recorded. Where not, why is written.
fn play_entries(
    alloc: Global,
    player: &mut Player,
    bytes: &[u8],
    out: &mut Vec<u8>,
) -> io::Result<bool> {
    let mut at = 0;
    for _ in 0..=bytes.len() {
        let Ok((entry, len)) = read_entry(bytes.get(at..).unwrap_or(&[])) else {
            break;
        };
        at = at.saturating_add(len);
        if let Err(halt) = player.play(&entry) {
            print_halt(out, alloc, &halt)?;
            return Ok(false);
        }
    }
    Ok(true)
}

/// Plays the entries of both on the player, and tells how: the first line of it.
fn tell_played(
    alloc: Global,
    player: &mut Player,
    first: &[u8],
    rest: &[u8],
    out: &mut Vec<u8>,
) -> io::Result<String> {
    let is_alike = play_entries(alloc, player, first, out)?
        && play_entries(alloc, player, rest, out)?;
    if !is_alike {
        let text = str::from_utf8(out).unwrap_or("");
        return Ok(text.lines().next().unwrap_or("").to_string(alloc)?);
    }
    let (steps, frames) = (player.steps(), player.frames());
    Ok(format!(in alloc; "{steps} steps, {frames} frames: as recorded")?)
}

/// The text of how the entries of both are played, those of `rest` behind those of `first`.
fn replayed(alloc: Global, first: &[u8], rest: &[u8]) -> io::Result<String> {
    let mut player = Player::new(alloc);
    let mut out = Vec::new(alloc);
    tell_played(alloc, &mut player, first, rest, &mut out)
}

/// How many bytes the first entry has.
fn first_len(record: &[u8]) -> usize {
    match read_entry(record) {
        Ok((_, len)) => len,
        Err(_) => 0,
    }
}

/// The first entry, with which the life begins.
fn beginning_of(record: &[u8]) -> &[u8] {
    record.get(..first_len(record)).unwrap_or(&[])
}

/// What stands behind it.
fn events_of(record: &[u8]) -> &[u8] {
    record.get(first_len(record)..).unwrap_or(&[])
}

/// The record with this name, whose file is taken away.
fn taken<R: Files + AllocGlobal>(rt: &R, alloc: Global, name: &str) -> io::Result<Vec<u8>> {
    let path = format!(in alloc; "{name}.000001.000001")?;
    let record = fs::read(rt, path.as_str())?;
    fs::remove_file(rt, path.as_str())?;
    Ok(record)
}

/// Prints how the entries of both are played.
fn tell_one<R: Print>(
    rt: &R,
    alloc: Global,
    name: &str,
    first: &[u8],
    rest: &[u8],
) -> io::Result<()> {
    let text = replayed(alloc, first, rest)?;
    println!(rt; "{name}: {text}")
}

/// Replays both records, and the events of the first on the beginning of the second.
fn tell<R: Print>(rt: &R, alloc: Global, a: &[u8], b: &[u8]) -> io::Result<()> {
    tell_one(rt, alloc, "node 201", a, &[])?;
    tell_one(rt, alloc, "node 202", b, &[])?;
    tell_one(
        rt,
        alloc,
        "the events of 201 on the beginning of 202",
        beginning_of(b),
        events_of(a),
    )
}

/// The record of a life as node with this id.
fn record_of<R: Wait + Clock + Shelf + Files + AllocGlobal + Env>(
    rt: &R,
    alloc: Global,
    process: u32,
    id: u16,
) -> io::Result<Vec<u8>> {
    let name = format!(in alloc; "try_hub_{process}.{id}")?;
    let path = env::temp_dir(rt)?.join(alloc, name)?;
    if live_and_record(rt, alloc, id, path.as_str(), 1 << 20).is_none() {
        return Err(io::Error::other("not lived"));
    }
    taken(rt, alloc, path.as_str())
}

/// The name of the file of a record with this number.
fn file_name(alloc: Global, name: &str, number: u32) -> io::Result<String> {
    Ok(format!(in alloc; "{name}.000001.{number:06}")?)
}

/// What the files of a record from this number on have, one behind the other.
fn files_from<R: Files + AllocGlobal>(
    rt: &R,
    alloc: Global,
    name: &str,
    first: u32,
) -> io::Result<Vec<u8>> {
    let mut bytes = Vec::new(alloc);
    for number in first..MOST_FILES {
        let path = file_name(alloc, name, number)?;
        let Ok(file) = fs::read(rt, path.as_str()) else {
            break;
        };
        bytes.extend_from_slice(file.as_slice())?;
    }
    Ok(bytes)
}

/// Replays a record from each of its files on but the first, and takes it away.
fn tell_files<R: Files + AllocGlobal + Print>(rt: &R, alloc: Global, path: &str) -> io::Result<()> {
    for number in 1..MOST_FILES {
        let bytes = files_from(rt, alloc, path, number)?;
        if bytes.is_empty() {
            break;
        }
        if number > 1 {
            let name = format!(in alloc; "node 203 from file {number} on")?;
            tell_one(rt, alloc, name.as_str(), &bytes, &[])?;
        }
        fs::remove_file(rt, file_name(alloc, path, number)?.as_str())?;
    }
    Ok(())
}

/// Lives as node 203, with a file wherever one may begin, and replays the record from each of them on.
fn play_files<R: Wait + Clock + Shelf + Files + AllocGlobal + Env + Print>(
    rt: &R,
    alloc: Global,
    process: u32,
) -> io::Result<()> {
    let name = format!(in alloc; "try_hub_{process}.203")?;
    let path = env::temp_dir(rt)?.join(alloc, name)?;
    if live_and_record(rt, alloc, 203, path.as_str(), 1).is_none() {
        return Err(io::Error::other("not lived"));
    }
    tell_files(rt, alloc, path.as_str())
}

/// Lives as both nodes, and replays the records; and as the third, whose record has a file wherever one may begin.
pub fn play<R: Wait + Clock + Shelf + Files + AllocGlobal + Env + Print>(
    rt: &R,
    alloc: Global,
    process: u32,
) -> io::Result<()> {
    let a = record_of(rt, alloc, process, 201)?;
    let b = record_of(rt, alloc, process, 202)?;
    tell(rt, alloc, &a, &b)?;
    play_files(rt, alloc, process)
}
