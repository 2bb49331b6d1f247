//! A node, or the merger, whose life is recorded.
//!
//! | Call | Answer |
//! |---|---|
//! | `node WINDOW WAIT PMUS [absolute] [counts COUNT ..]` | `ok` where the record of the life before is as replayed, else why not; a new node 201 begins |
//! | `merger WINDOW WAIT [absolute] [counts COUNT ..]` | the same of the merger 301 |
//! | `at MS` | `ok`; what follows is so many milliseconds after 2006-06-06 06:59:59 UTC |
//! | `arrive STREAM FRAME [LENGTH]` | the outcome; the frame is one of the names, or its first bytes |
//! | `as FRAME arrive STREAM FRAME` | the same, where the first frame is what is recorded |
//! | `unanswered STREAM FRAME` | `ok`; that it was not answered |
//! | `tick NOW [COUNT ..]` | how many rows closed, and behind `change` the change number; with no count the counts that wait are handed in |
//! | `waiting` | the counts that wait |
//! | `pop` | the row's instant, quality and stamp, or `none`; its frame is published |
//! | `published` | the frames that are published, in hexadecimal |
//! | `layout SOC` | the length of the layout's frame, its first 14 bytes and its last two; it is laid |
//! | `replayed` | how the record is replayed |
//! | `plain` | how it is played on the plain program |
//! | `changed` | whether each changed byte of the record is found |
//! | `told INSTANT LINE`, `told absent LINE`, `told delays LINE` | a line of what is explained, from 0 |
//! | `of ID node ..`, `of ID merger ..` | as without `of`, and its id is this |
//! | `keep`, `keep cut` | `ok`; the record is kept beside those that were; or all but its last byte |
//! | `compared LINE` | a line of what is told where those that are kept are compared, from 0; none is kept any more behind `compared end` |

use crate::comparing::compared_line;
use crate::lives::{Beginning, Lives};
use crate::replaying::{changed_text, plain_text, replayed_text};
use crate::tellers::told_line;
use pdc_frame::SECONDS;
use pdc_life::{MAX_PMUS, Outcome};
use pdc_record::{Begun, Entry, What, write_entry};
use pdc_row::{Output, append_row};
use std::alloc::{AllocError, Global};
use std::mem;
use try_script::{
    Frames, LifeCall, Player, counts_text, frame_text, life_call, row_text, tick_text,
};

/// 2006-06-06 06:59:59 UTC, in nanoseconds since 1970.
const START: u64 = 1_149_577_199_000_000_000;

/// A core and the record of its life.
#[derive(Drop)]
pub struct Recorder<'a, C: Lives> {
    core: C,
    output: Output,
    frames: &'a Frames,
    /// The number of the next step.
    step: u64,
    /// The time of what follows.
    time: u64,
    record: Vec<u8>,
    published: Vec<u8>,
    /// The records that are kept.
    kept: Vec<Vec<u8>>,
}

/// What a record begins with.
fn begun_of<'b, C: Lives>(beginning: &'b Beginning) -> Begun<'b> {
    Begun {
        role: C::role(),
        id: beginning.id,
        rate: 50,
        start: 1,
        floor: 0,
        counts: beginning.counts,
        now: 0,
        program: [0, 1, 0],
        settings: beginning.text.as_bytes(),
    }
}

impl<'a, C: Lives> Recorder<'a, C> {
    /// The life with this id that is told of; none where there is no such one.
    ///
    /// # Errors
    ///
    /// [`AllocError`] where there is no room and none is got.
    pub fn new(
        alloc: Global,
        frames: &'a Frames,
        id: u16,
        words: &[&str],
    ) -> Result<Option<Recorder<'a, C>>, AllocError> {
        let Some(beginning) = C::beginning(alloc, id, words)? else {
            return Ok(None);
        };
        let begun = begun_of::<C>(&beginning);
        let Ok(core) = C::begin(alloc, &begun, beginning.text.as_str()) else {
            return Ok(None);
        };
        let output = core.output();
        let mut recorder = Recorder {
            core,
            output,
            frames,
            step: 0,
            time: START,
            record: Vec::new(alloc),
            published: Vec::new(alloc),
            kept: Vec::new(alloc),
        };
        recorder.write(What::Begun(begun))?;
        Ok(Some(recorder))
    }

    /// Writes an entry down.
    fn write(&mut self, what: What<'_>) -> Result<(), AllocError> {
        let entry = Entry {
            step: self.step,
            time: self.time,
            what,
        };
        write_entry(&entry, &mut self.record).map_err(|_| AllocError)
    }

    /// Writes a step down.
    fn write_step(&mut self, what: What<'_>) -> Result<(), AllocError> {
        self.write(what)?;
        self.step = self.step.saturating_add(1);
        Ok(())
    }

    /// Begins another life with this id, where the record of this one is as replayed.
    fn begin(&mut self, alloc: Global, id: u16, words: &[&str]) -> Result<String, AllocError> {
        let text = replayed_text(alloc, &self.record)?;
        if !text.as_str().ends_with(": as recorded") {
            return Ok(text);
        }
        match Recorder::new(alloc, self.frames, id, words)? {
            Some(mut recorder) => {
                mem::swap(&mut recorder.kept, &mut self.kept);
                *self = recorder;
                "ok".to_string(alloc)
            }
            None => "no such life".to_string(alloc),
        }
    }

    /// What the bytes are answered; these are recorded.
    fn arrive(
        &mut self,
        alloc: Global,
        stream: usize,
        bytes: &[u8],
        recorded: &[u8],
    ) -> Result<String, AllocError> {
        if stream >= self.core.streams() {
            return "no such stream".to_string(alloc);
        }
        let outcome: Outcome = self.core.put_datagram(stream, bytes);
        self.write_step(What::Arrived {
            stream: u16::try_from(stream).unwrap_or(0),
            outcome,
            datagram: recorded,
        })?;
        format!(in alloc; "{outcome:?}")
    }

    /// A tick that hands in these counts, or those that wait.
    fn tick(
        &mut self,
        alloc: Global,
        now: u64,
        counts: Option<[u16; MAX_PMUS]>,
    ) -> Result<String, AllocError> {
        let counts = match counts {
            Some(counts) => counts,
            None => self.core.waiting(),
        };
        let ticked = self.core.tick(now, &counts);
        self.write_step(What::Ticked {
            now,
            counts,
            closed: ticked.closed,
            change: ticked.change,
            used_up: ticked.used_up,
        })?;
        tick_text(alloc, ticked.closed, ticked.change)
    }

    /// Takes the row out that waits, and publishes it.
    fn pop(&mut self, alloc: Global) -> Result<String, AllocError> {
        let Some(row) = self.core.pop_due() else {
            self.write_step(What::FoundNone)?;
            return "none".to_string(alloc);
        };
        let mut frame = Vec::new(alloc);
        if row.instant < SECONDS * u64::from(self.output.rate) {
            append_row(&self.output, &row, &mut frame)?;
        }
        self.write_step(What::Popped {
            instant: row.instant,
            frame: Some(&frame),
        })?;
        self.published.extend_from_slice(&frame)?;
        row_text(alloc, &row)
    }

    /// What is told of the layout's frame, which is laid.
    fn layout(&mut self, alloc: Global, soc: u32) -> Result<String, AllocError> {
        let mut frame = Vec::new(alloc);
        self.core.layout_frame(soc, &mut frame)?;
        let entry = Entry {
            step: self.step.saturating_sub(1),
            time: self.time,
            what: What::Laid { frame: &frame },
        };
        write_entry(&entry, &mut self.record).map_err(|_| AllocError)?;
        frame_text(alloc, &frame)
    }

    /// The counts that wait, one for each column.
    fn waiting_text(&self, alloc: Global) -> Result<String, AllocError> {
        let counts = self.core.waiting();
        let columns = self.core.columns();
        counts_text(alloc, counts.get(..columns).unwrap_or(&[]))
    }

    /// What a call on the life is answered.
    fn answer(&mut self, alloc: Global, call: LifeCall<'a>) -> Result<String, AllocError> {
        match call {
            LifeCall::Arrive { stream, bytes } => self.arrive(alloc, stream, bytes, bytes),
            LifeCall::Tick { now, counts } => self.tick(alloc, now, counts),
            LifeCall::Waiting => self.waiting_text(alloc),
            LifeCall::Pop => self.pop(alloc),
            LifeCall::Published => hex::encode_upper(alloc, self.published.as_slice()),
            LifeCall::Layout { soc } => self.layout(alloc, soc),
        }
    }

    /// What follows is at another time.
    fn set_time(&mut self, alloc: Global, millis: &str) -> Result<String, AllocError> {
        match millis.parse::<u64>() {
            Ok(millis) => {
                self.time = START.saturating_add(millis.saturating_mul(1_000_000));
                "ok".to_string(alloc)
            }
            Err(_) => "no such time".to_string(alloc),
        }
    }

    /// A datagram that was not answered.
    fn leave(&mut self, alloc: Global, stream: &str, name: &str) -> Result<String, AllocError> {
        let (Ok(stream), Some(datagram)) = (stream.parse::<u16>(), self.frames.named(name)) else {
            return "no such frame".to_string(alloc);
        };
        let entry = Entry {
            step: 0,
            time: self.time,
            what: What::Unanswered { stream, datagram },
        };
        write_entry(&entry, &mut self.record).map_err(|_| AllocError)?;
        "ok".to_string(alloc)
    }

    /// Begins another life with this id.
    fn begin_of(&mut self, alloc: Global, id: &str, words: &[&str]) -> Result<String, AllocError> {
        match id.parse::<u16>() {
            Ok(id) => self.begin(alloc, id, words),
            Err(_) => "no such id".to_string(alloc),
        }
    }

    /// Keeps the record, but for so many bytes of its end.
    fn keep(&mut self, alloc: Global, cut: usize) -> Result<String, AllocError> {
        let mut copy = Vec::new(alloc);
        copy.extend_from_slice(&self.record)?;
        copy.truncate(copy.len().saturating_sub(cut));
        self.kept.push(copy)?;
        "ok".to_string(alloc)
    }

    /// A line of what is told where the records that are kept are compared.
    fn compared(&mut self, alloc: Global, line: &str) -> Result<String, AllocError> {
        if line == "end" {
            self.kept.clear();
            return "ok".to_string(alloc);
        }
        compared_line(alloc, &self.kept, line)
    }

    /// A datagram in whose place another one is recorded.
    fn swap(
        &mut self,
        alloc: Global,
        recorded: &str,
        words: &[&str],
    ) -> Result<String, AllocError> {
        let (Some(recorded), Some(LifeCall::Arrive { stream, bytes })) = (
            self.frames.named(recorded),
            life_call(self.frames, words),
        ) else {
            return "no such frame".to_string(alloc);
        };
        self.arrive(alloc, stream, bytes, recorded)
    }
}

/// What a call on a record is answered.
fn told_of(alloc: Global, record: &[u8], words: &[&str]) -> Result<String, AllocError> {
    match words {
        ["replayed"] => replayed_text(alloc, record),
        ["plain"] => plain_text(alloc, record),
        ["changed"] => changed_text(alloc, record),
        ["told", question, line] => told_line(alloc, record, question, line),
        _ => "no such call".to_string(alloc),
    }
}

impl<C: Lives> Recorder<'_, C> {
    /// What a call is answered that is none on the life.
    fn other(&mut self, alloc: Global, words: &[&str]) -> Result<String, AllocError> {
        match words {
            ["node" | "merger", ..] => self.begin(alloc, C::id(), words),
            ["of", id, words @ ..] => self.begin_of(alloc, id, words),
            ["keep"] => self.keep(alloc, 0),
            ["keep", "cut"] => self.keep(alloc, 1),
            ["compared", line] => self.compared(alloc, line),
            ["at", millis] => self.set_time(alloc, millis),
            ["unanswered", stream, name] => self.leave(alloc, stream, name),
            ["as", recorded, words @ ..] => self.swap(alloc, recorded, words),
            _ => told_of(alloc, &self.record, words),
        }
    }
}

impl<C: Lives> Player for Recorder<'_, C> {
    fn play(&mut self, alloc: Global, call: &str) -> Result<String, AllocError> {
        let words: Vec<&str> = call.split_whitespace().collect(alloc)?;
        match life_call(self.frames, &words) {
            Some(call) => self.answer(alloc, call),
            None => self.other(alloc, &words),
        }
    }
}
