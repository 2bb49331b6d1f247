//! What is tried on a record.

use pdc_record::{Entry, read_entry};
use pdc_replay::{Halt, Player, play_plain, print_halt};
use std::alloc::{AllocError, Global};
use std::str;

/// How a record was replayed.
#[derive(Drop)]
pub enum Replayed {
    /// So many steps and frames, as recorded.
    AsRecorded(u64, u64),
    /// Up to where it halted.
    Halted(Halt),
    /// Up to bytes that are no whole entry.
    Unread,
}

/// Replays a record on this player.
fn replay_on(player: &mut Player, record: &[u8]) -> Replayed {
    let mut at = 0;
    for _ in 0..=record.len() {
        let left = record.get(at..).unwrap_or(&[]);
        if left.is_empty() {
            break;
        }
        match read_entry(left) {
            Ok((entry, len)) => {
                at = at.saturating_add(len);
                if let Err(halt) = player.play(&entry) {
                    return Replayed::Halted(halt);
                }
            }
            Err(_) => return Replayed::Unread,
        }
    }
    Replayed::AsRecorded(player.steps(), player.frames())
}

/// Replays a record.
pub fn replay(alloc: Global, record: &[u8]) -> Replayed {
    let mut player = Player::new(alloc);
    replay_on(&mut player, record)
}

/// The text of where a replay halted: the first line of it.
fn halted_text(alloc: Global, halt: &Halt) -> Result<String, AllocError> {
    let mut text = Vec::new(alloc);
    if print_halt(&mut text, alloc, halt).is_err() {
        return Err(AllocError);
    }
    let text = str::from_utf8(&text).unwrap_or("");
    text.lines().next().unwrap_or("").to_string(alloc)
}

/// The text of how a record was replayed.
pub fn replayed_text(alloc: Global, record: &[u8]) -> Result<String, AllocError> {
    match replay(alloc, record) {
        Replayed::AsRecorded(steps, frames) => {
            format!(in alloc; "{steps} steps, {frames} frames: as recorded")
        }
        Replayed::Halted(halt) => halted_text(alloc, &halt),
        Replayed::Unread => "no whole entry".to_string(alloc),
    }
}

/// The entries of a record.
fn entries_of(alloc: Global, record: &[u8]) -> Result<Vec<Entry<'_>>, AllocError> {
    let mut entries = Vec::new(alloc);
    let mut at = 0;
    for _ in 0..=record.len() {
        match read_entry(record.get(at..).unwrap_or(&[])) {
            Ok((entry, len)) => {
                at = at.saturating_add(len);
                entries.push(entry)?;
            }
            Err(_) => return Ok(entries),
        }
    }
    Ok(entries)
}

/// The text of how a record is played on the plain program.
pub fn plain_text(alloc: Global, record: &[u8]) -> Result<String, AllocError> {
    let entries = entries_of(alloc, record)?;
    match play_plain(alloc, &entries) {
        Ok(Ok(steps)) => format!(in alloc; "{steps} steps: as recorded"),
        Ok(Err(step)) => format!(in alloc; "step {step} differs"),
        Err(cause) => cause.to_string(alloc),
    }
}

/// Changes each byte of a record, one after the other, and tells whether each change was found, by a check word or by the replay.
pub fn changed_text(alloc: Global, record: &[u8]) -> Result<String, AllocError> {
    let mut copy = Vec::new(alloc);
    copy.extend_from_slice(record)?;
    for place in 0..record.len() {
        if let Some(byte) = copy.as_mut_slice().get_mut(place) {
            *byte ^= 1;
        }
        if let Replayed::AsRecorded(..) = replay(alloc, &copy) {
            return format!(in alloc; "byte {place} was changed, and nothing was found");
        }
        if let Some(byte) = copy.as_mut_slice().get_mut(place) {
            *byte ^= 1;
        }
    }
    let len = record.len();
    format!(in alloc; "each of {len} bytes")
}
