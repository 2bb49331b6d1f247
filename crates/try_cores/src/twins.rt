//! A table kept sorted and one kept as a ring, which play the same calls.
//!
//! | Call | Answer |
//! |---|---|
//! | `play CALLS SEED WINDOW COLUMNS LANES FLOOR` | `CALLS alike`, where both tables answered each of so many calls the same; else the first call that they did not, and both answers |
//! | `kinds` | how many of the answers `Taken`, `Late`, `OutOfWindow`, `Duplicate`, `Conflict` both gave in all plays so far, at least once: 5 of them |
//!
//! The calls follow from the seed: puts for instants around a window that rises, ticks under each kind of rule, pops, drops, and
//! streams that are waited for or not.

use crate::table_player::TablePlayer;
use pdc_table::RingTable;
use std::alloc::{AllocError, Global};
use try_script::{Player, SortedTable, numbers};

/// The answers of a put that the plays should give.
const KINDS: [&str; 5] = ["Taken", "Late", "OutOfWindow", "Duplicate", "Conflict"];

/// What the calls of a play follow from.
#[derive(Drop)]
struct Play {
    calls: u64,
    seed: u64,
    window: u64,
    columns: u64,
    lanes: u64,
    floor: u64,
}

/// Both tables, and the answers that came.
#[derive(Drop)]
pub struct Twins {
    sorted: TablePlayer<SortedTable>,
    ring: TablePlayer<RingTable>,
    came: [bool; 5],
}

impl Twins {
    /// Two tables of one column and one lane.
    ///
    /// # Errors
    ///
    /// [`AllocError`] where there is no room and none is got.
    pub fn new(alloc: Global) -> Result<Twins, AllocError> {
        Ok(Twins {
            sorted: TablePlayer::new(alloc)?,
            ring: TablePlayer::new(alloc)?,
            came: [false; 5],
        })
    }

    /// Plays the call on both tables; tells where they answer differently.
    fn play_both(&mut self, alloc: Global, call: &str) -> Result<Option<String>, AllocError> {
        let sorted = self.sorted.play(alloc, call)?;
        let ring = self.ring.play(alloc, call)?;
        self.compared(alloc, call, &sorted, &ring)
    }

    /// Notes the answer that both gave; tells where they differ.
    fn compared(
        &mut self,
        alloc: Global,
        call: &str,
        sorted: &str,
        ring: &str,
    ) -> Result<Option<String>, AllocError> {
        if sorted != ring {
            return Ok(Some(format!(in alloc; "{call}: {sorted}, {ring}")?));
        }
        for (kind, came) in KINDS.iter().zip(self.came.iter_mut()) {
            if sorted == *kind {
                *came = true;
            }
        }
        Ok(None)
    }

    /// Plays the calls on two new tables.
    fn play_all(&mut self, alloc: Global, play: &Play) -> Result<String, AllocError> {
        let Play {
            calls,
            seed,
            window,
            columns,
            lanes,
            floor,
        } = play;
        let new = format!(in alloc; "new {window} {columns} {lanes} {floor}")?;
        if let Some(difference) = self.play_both(alloc, new.as_str())? {
            return Ok(difference);
        }
        let mut number = *seed;
        for step in 0..*calls {
            number = next(number);
            let call = call_of(alloc, play, step, number)?;
            if let Some(difference) = self.play_both(alloc, call.as_str())? {
                return Ok(difference);
            }
        }
        format!(in alloc; "{calls} alike")
    }
}

/// The number after this one, in a sequence that looks like chance.
fn next(number: u64) -> u64 {
    number
        .wrapping_mul(6_364_136_223_846_793_005)
        .wrapping_add(1_442_695_040_888_963_407)
}

/// One of so many, by some bits of the number.
fn pick(number: u64, bits: u32, count: u64) -> u64 {
    if count == 0 || bits >= 64 {
        return 0;
    }
    (number >> bits) % 4096 % count
}

/// The name of a block.
fn block_of(number: u64, bits: u32) -> &'static str {
    match pick(number, bits, 8) {
        0 => "other",
        1 => "test",
        2 => "absent",
        _ => "sent",
    }
}

/// A put for an instant somewhat below, in or somewhat above a window that rises as the steps go on.
fn put_of(alloc: Global, play: &Play, step: u64, number: u64) -> Result<String, AllocError> {
    let low = play.floor.saturating_add(step / 16);
    let far = pick(number, 8, play.window.saturating_add(4));
    let instant = low.saturating_add(far);
    let quality = pick(number, 20, 256);
    let first = block_of(number, 28);
    let second = block_of(number, 32);
    if play.lanes == 1 {
        let stream = pick(number, 40, play.columns);
        format!(in alloc; "put {stream} {instant} {quality} {first}")
    } else {
        let stream = pick(number, 40, 2);
        format!(in alloc; "put {stream} {instant} {quality} {first} {second}")
    }
}

/// A tick under each kind of rule.
fn tick_of(alloc: Global, play: &Play, step: u64, number: u64) -> Result<String, AllocError> {
    let limit = play.floor.saturating_add(step / 16);
    let wait = pick(number, 8, 40).saturating_add(1);
    let shapes = if pick(number, 16, 4) == 0 {
        ".xxxxxxxxxxxxxx."
    } else {
        "xxxxxxxxxxxxxxxx"
    };
    match pick(number, 24, 4) {
        0 => format!(in alloc; "tick until={limit} {shapes}"),
        1 => format!(in alloc; "tick until=none {shapes}"),
        _ => format!(in alloc; "tick {wait} {shapes}"),
    }
}

/// The call of a step.
fn call_of(alloc: Global, play: &Play, step: u64, number: u64) -> Result<String, AllocError> {
    let streams = if play.lanes == 1 { play.columns } else { 2 };
    let stream = pick(number, 40, streams);
    let column = pick(number, 40, play.columns);
    match pick(number, 52, 32) {
        0 => format!(in alloc; "drop_stream {stream}"),
        1 => format!(in alloc; "drop_column {column}"),
        2 => format!(in alloc; "require {stream}"),
        3 => format!(in alloc; "free {stream}"),
        4 => format!(in alloc; "last"),
        5 => format!(in alloc; "disagree"),
        6 | 7 | 8 | 9 => tick_of(alloc, play, step, number),
        10 | 11 | 12 | 13 => format!(in alloc; "pop"),
        _ => put_of(alloc, play, step, number),
    }
}

/// What the words say that is to be played.
fn play_of(words: &[&str]) -> Option<Play> {
    let [calls, seed, window, columns, lanes, floor] = numbers::<6>(words)?;
    Some(Play {
        calls,
        seed,
        window,
        columns,
        lanes,
        floor,
    })
}

impl Twins {
    /// What the call of these words is answered.
    fn answer(&mut self, alloc: Global, words: &[&str]) -> Result<String, AllocError> {
        match words {
            ["play", words @ ..] => match play_of(words) {
                Some(play) => self.play_all(alloc, &play),
                None => "no such call".to_string(alloc),
            },
            ["kinds"] => {
                let came = self.came.iter().filter(|came| **came).count();
                came.to_string(alloc)
            }
            _ => "no such call".to_string(alloc),
        }
    }
}

impl Player for Twins {
    fn play(&mut self, alloc: Global, call: &str) -> Result<String, AllocError> {
        let words: Vec<&str> = call.split_whitespace().collect(alloc)?;
        self.answer(alloc, &words)
    }
}
