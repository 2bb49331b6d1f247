//! A life of a node or of the merger that a script tells, lived by the plain program.
//!
//! | Call | Answer |
//! |---|---|
//! | `node WINDOW WAIT PMUS [absolute] [counts COUNT ..]` | `ok`; a new life of node 201 with the PMUs 11 and 12, or 11 to 13, and these opening counts |
//! | `merger WINDOW WAIT [absolute] [counts COUNT ..]` | `ok`; a new life of merger 301 with the nodes 201 and 202 and the sources 11 and 12 |
//! | `arrive STREAM FRAME [LENGTH]` | the outcome; the frame is one of the names, or its first bytes |
//! | `tick NOW [COUNT ..]` | how many rows closed, and behind `adopts` the columns that it adopted; with no count the counts that wait are handed in |
//! | `waiting` | the counts that wait, one for each column |
//! | `pop` | the row's instant, quality and stamp, as `5/0 (1, 1)`, or `none` |
//! | `rows` | the instants and stamps of the rows that closed |
//! | `published` | the frames that are published, in hexadecimal |
//! | `layout SOC` | the length of the layout's frame, its first 14 bytes and its last two |
//!
//! A stream is a PMU's at a node, and at the merger 0 for node 201 and 1 for node 202. Counts that are not told are 0. What is
//! none of these is answered `no such call`.

use pdc_arrival::NODES;
use pdc_life::{MAX_PMUS, MergerSettings, Settings};
use pdc_plain::{Life, Opening, live_merger, live_node};
use pdc_plain_steps::{Answered, LifeStep, are_for_streams};
use pdc_row::DueRow;
use std::alloc::{AllocError, Global};
use try_script::{
    Frames, LifeCall, PLAIN_TIMING, Player, counts_text, frame_text, life_call, node, row_text,
    told_merger, told_node,
};

/// The first life, with these counts.
fn first_opening(counts: [u16; MAX_PMUS]) -> Opening {
    Opening {
        start: 1,
        floor: 0,
        counts,
        first_now: 0,
    }
}

/// A concentrator that lives.
#[derive(Drop)]
enum Concentrator {
    Node(Settings),
    Merger(MergerSettings),
}

impl Concentrator {
    /// The number of its columns.
    fn columns(&self) -> usize {
        match self {
            Concentrator::Node(settings) => settings.pmus.len(),
            Concentrator::Merger(settings) => settings.sources.len(),
        }
    }

    /// The life that takes these steps, where each arrival is for one of its streams.
    fn live<'a>(
        &self,
        alloc: Global,
        opening: &Opening,
        steps: &[LifeStep<'a>],
    ) -> Result<Option<Life<'a>>, AllocError> {
        match self {
            Concentrator::Node(settings) => {
                if !are_for_streams(settings.pmus.len(), steps) {
                    return Ok(None);
                }
                Ok(Some(live_node(alloc, settings, opening, steps)?))
            }
            Concentrator::Merger(settings) => {
                if !are_for_streams(NODES, steps) {
                    return Ok(None);
                }
                Ok(Some(live_merger(alloc, settings, opening, steps)?))
            }
        }
    }
}

/// A life, and the frames that its steps name.
#[derive(Drop)]
pub struct LifePlayer<'a> {
    concentrator: Concentrator,
    opening: Opening,
    steps: Vec<LifeStep<'a>>,
    frames: &'a Frames,
}

impl<'a> LifePlayer<'a> {
    /// The life of a node of two PMUs, without steps.
    pub fn new(alloc: Global, frames: &'a Frames) -> LifePlayer<'a> {
        LifePlayer {
            concentrator: Concentrator::Node(node(PLAIN_TIMING, false)),
            opening: first_opening([0; MAX_PMUS]),
            steps: Vec::new(alloc),
            frames,
        }
    }

    /// Begins another life, of this concentrator.
    fn begin(
        &mut self,
        alloc: Global,
        concentrator: Concentrator,
        counts: [u16; MAX_PMUS],
    ) -> Result<String, AllocError> {
        self.opening = first_opening(counts);
        self.concentrator = concentrator;
        self.steps = Vec::new(alloc);
        "ok".to_string(alloc)
    }

    /// Begins another life of a node, where it can be told so.
    fn begin_node(&mut self, alloc: Global, words: &[&str]) -> Result<String, AllocError> {
        match told_node(words) {
            Some(told) => {
                let counts = told.counts;
                self.begin(alloc, Concentrator::Node(told.settings), counts)
            }
            None => "no such life".to_string(alloc),
        }
    }

    /// Begins another life of the merger, where it can be told so.
    fn begin_merger(&mut self, alloc: Global, words: &[&str]) -> Result<String, AllocError> {
        match told_merger(words) {
            Some(told) => {
                let counts = told.counts;
                self.begin(alloc, Concentrator::Merger(told.settings), counts)
            }
            None => "no such life".to_string(alloc),
        }
    }

    /// The life of the steps so far.
    fn live(&self, alloc: Global) -> Result<Option<Life<'a>>, AllocError> {
        self.concentrator.live(alloc, &self.opening, &self.steps)
    }

    /// The counts that wait.
    fn waiting(&self, alloc: Global) -> Result<[u16; MAX_PMUS], AllocError> {
        match self.live(alloc)? {
            Some(life) => Ok(life.waiting()),
            None => Ok([0; MAX_PMUS]),
        }
    }

    /// The counts that wait, one for each column.
    fn waiting_text(&self, alloc: Global) -> Result<String, AllocError> {
        let counts = self.waiting(alloc)?;
        let columns = self.concentrator.columns();
        counts_text(alloc, counts.get(..columns).unwrap_or(&[]))
    }

    /// What this step is answered after those before it.
    fn step(&mut self, alloc: Global, step: LifeStep<'a>) -> Result<String, AllocError> {
        self.steps.push(step)?;
        let Some(life) = self.live(alloc)? else {
            self.steps.pop();
            return "no such stream".to_string(alloc);
        };
        match life.entries.first() {
            Some(answered) => answer_text(alloc, answered),
            None => Ok(String::new(alloc)),
        }
    }

    /// What a tick is answered.
    fn tick(
        &mut self,
        alloc: Global,
        now: u64,
        counts: Option<[u16; MAX_PMUS]>,
    ) -> Result<String, AllocError> {
        let counts = match counts {
            Some(counts) => counts,
            None => self.waiting(alloc)?,
        };
        self.step(alloc, LifeStep::Tick { now, counts })
    }

    /// The rows that closed, the first of them first.
    fn rows_text(&self, alloc: Global) -> Result<String, AllocError> {
        match self.live(alloc)? {
            Some(life) => {
                let rows = life.rows(alloc)?;
                texts_of(alloc, &rows)
            }
            None => Ok(String::new(alloc)),
        }
    }

    /// The frames that are published, one after the other.
    fn published_text(&self, alloc: Global) -> Result<String, AllocError> {
        match self.live(alloc)? {
            Some(life) => {
                let frames = life.published(alloc)?;
                joined(alloc, &frames)
            }
            None => Ok(String::new(alloc)),
        }
    }

    /// What is told of the layout's frame.
    fn layout_text(&self, alloc: Global, soc: u32) -> Result<String, AllocError> {
        let mut frame = Vec::new(alloc);
        if let Some(life) = self.live(alloc)? {
            life.layout(soc, &mut frame)?;
        }
        frame_text(alloc, &frame)
    }

    /// What a call on the life is answered.
    fn answer(&mut self, alloc: Global, call: LifeCall<'a>) -> Result<String, AllocError> {
        match call {
            LifeCall::Arrive { stream, bytes } => {
                self.step(alloc, LifeStep::Arrive { stream, bytes })
            }
            LifeCall::Tick { now, counts } => self.tick(alloc, now, counts),
            LifeCall::Waiting => self.waiting_text(alloc),
            LifeCall::Pop => self.step(alloc, LifeStep::Pop),
            LifeCall::Published => self.published_text(alloc),
            LifeCall::Layout { soc } => self.layout_text(alloc, soc),
        }
    }
}

/// The instants and stamps of rows.
fn texts_of(alloc: Global, rows: &[DueRow]) -> Result<String, AllocError> {
    let mut texts = Vec::new(alloc);
    for row in rows {
        texts.push(row_text(alloc, row)?)?;
    }
    texts.as_slice().join(alloc, " ")
}

/// Frames, one after the other.
fn joined(alloc: Global, frames: &[Vec<u8>]) -> Result<String, AllocError> {
    let mut bytes = Vec::new(alloc);
    for frame in frames {
        bytes.extend_from_slice(frame)?;
    }
    hex::encode_upper(alloc, bytes.as_slice())
}

/// How many rows closed, and the columns that were adopted.
fn tick_text(alloc: Global, closed: usize, adopted: &[usize]) -> Result<String, AllocError> {
    let mut texts = Vec::new(alloc);
    texts.push(closed.to_string(alloc)?)?;
    if !adopted.is_empty() {
        texts.push("adopts".to_string(alloc)?)?;
    }
    for column in adopted {
        texts.push(column.to_string(alloc)?)?;
    }
    texts.as_slice().join(alloc, " ")
}

/// What a step was answered.
fn answer_text(alloc: Global, answered: &Answered) -> Result<String, AllocError> {
    match answered {
        Answered::Arrival { answer, .. } => format!(in alloc; "{:?}", answer.outcome),
        Answered::Tick { answer, .. } => tick_text(alloc, answer.rows.len(), &answer.adopted),
        Answered::Pop { row: Some(row) } => row_text(alloc, row),
        Answered::Pop { row: None } => "none".to_string(alloc),
    }
}

impl LifePlayer<'_> {
    /// What a call is answered that is none on the life.
    fn other(&mut self, alloc: Global, words: &[&str]) -> Result<String, AllocError> {
        match words {
            ["node", words @ ..] => self.begin_node(alloc, words),
            ["merger", words @ ..] => self.begin_merger(alloc, words),
            ["rows"] => self.rows_text(alloc),
            _ => "no such call".to_string(alloc),
        }
    }
}

impl Player for LifePlayer<'_> {
    fn play(&mut self, alloc: Global, call: &str) -> Result<String, AllocError> {
        let words: Vec<&str> = call.split_whitespace().collect(alloc)?;
        match life_call(self.frames, &words) {
            Some(call) => self.answer(alloc, call),
            None => self.other(alloc, &words),
        }
    }
}
