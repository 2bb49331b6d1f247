//! A node, or the merger, with its publisher over a mark in memory.
//!
//! | Call | Answer |
//! |---|---|
//! | `node WINDOW WAIT PMUS [absolute] [counts COUNT ..]` | `ok`; a new node 201 with the PMUs 11 and 12, or 11 to 13, and these opening counts |
//! | `merger WINDOW WAIT [absolute] [counts COUNT ..]` | `ok`; a new merger 301 of the nodes 201 and 202 and the sources 11 and 12, with these opening counts |
//! | `widest` | `ok`; a new node 201 with sixteen PMUs of 32 phasors, 32 analog values and 8 digital words |
//! | `lead LEAD` | `ok`; a new publisher, which reserves so many instants ahead |
//! | `arrive STREAM FRAME [LENGTH]` | the outcome; the frame is one of the names, or its first bytes |
//! | `tick NOW [COUNT ..]` | how many rows closed, and behind `change` the change number where columns were adopted; with no count the counts that wait are handed in |
//! | `waiting` | the counts that wait, one for each column |
//! | `pop` | the row's instant, quality and stamp, as `5/0 (1, 1)`, or `none`; the row is published |
//! | `published` | the frames that are published, in hexadecimal |
//! | `layout SOC` | the length of the layout's frame, its first 14 bytes and its last two |
//! | `configs`, `data` | how many configurations of the widest node's PMUs are candidates, and of their data of the second instant taken |
//! | `published_len` | how many bytes are published |
//! | `counts` | how many arrivals were taken, candidates, known and refused |
//! | `disagree` | how often both nodes' blocks of a column differed at a closing of the merger |
//!
//! At the merger stream 0 is that of node 201, stream 1 that of node 202. Counts that are not told are 0. What is none of these is
//! answered `no such call`.
ghost use Rattle.std.specs.Prelude.{◌≡◌, IfSome};
ghost use Rattle.pdc_publisher.specs.Publisher.{output_in};

use crate::scripted::Scripted;
use crate::{steps, widest};
use pdc_frame::SECONDS;
use pdc_life::{MAX_PMUS, Outcome};
use pdc_mark::ModelMark;
use pdc_publisher::{MAX_LEAD, Publisher};
use pdc_row::Output;
use std::alloc::{AllocError, Global};
use try_script::{
    Frames, LifeCall, Player, counts_text, frame_text, life_call, row_text, tick_text,
};

/// A core, its publisher and what it published.
#[derive(Drop)]
pub struct CorePlayer<'a, C: Scripted> {
    core: C,
    /// Arrivals, ticks and pops are handed to it as steps.
    by_steps: bool,
    output: Output,
    publisher: Publisher<ModelMark>,
    published: Vec<u8>,
    frames: &'a Frames,
    ghost rate_kept: { (output_in publisher).rate ≡ output.rate },
}

/// A publisher over a new mark.
fn new_publisher(output: Output, lead: &str) -> Option<Publisher<ModelMark>>
    ensures { IfSome result (λ p. (output_in p).rate ≡ output.rate) }
{
    let lead: u16 = lead.parse().ok()?;
    if lead > MAX_LEAD {
        return None;
    }
    Some(Publisher::new(ModelMark::new(1, 0), output, lead))
}

impl<'a, C: Scripted> CorePlayer<'a, C> {
    /// With the core that is told this; none where there is no such core.
    ///
    /// # Errors
    ///
    /// [`AllocError`] where there is no room and none is got.
    pub fn new(
        alloc: Global,
        frames: &'a Frames,
        words: &[&str],
        by_steps: bool,
    ) -> Result<Option<CorePlayer<'a, C>>, AllocError> {
        let Some(core) = C::opened(alloc, words)? else {
            return Ok(None);
        };
        let output = core.output();
        Ok(Some(CorePlayer {
            core,
            by_steps,
            output,
            publisher: Publisher::new(ModelMark::new(1, 0), output, 0),
            published: Vec::new(alloc),
            frames,
        }))
    }

    /// Begins another life, where it can be told so.
    fn begin(&mut self, alloc: Global, words: &[&str]) -> Result<String, AllocError> {
        match CorePlayer::new(alloc, self.frames, words, self.by_steps)? {
            Some(player) => {
                *self = player;
                "ok".to_string(alloc)
            }
            None => "no such life".to_string(alloc),
        }
    }

    /// Another publisher, with this lead.
    fn lead(&mut self, alloc: Global, lead: &str) -> Result<String, AllocError> {
        match new_publisher(self.output, lead) {
            Some(publisher) => {
                self.publisher = publisher;
                "ok".to_string(alloc)
            }
            None => "no such lead".to_string(alloc),
        }
    }

    /// How many configurations, or data frames, of the widest node are answered so.
    fn arrive_widest(
        &mut self,
        alloc: Global,
        is_data: bool,
        wanted: Outcome,
    ) -> Result<String, AllocError> {
        let mut answered: u32 = 0;
        for id in 1..=widest::PMUS {
            let frame = if is_data {
                widest::data_frame(alloc, id)?
            } else {
                widest::config_frame(alloc, id)?
            };
            let stream = usize::from(id.saturating_sub(1));
            if stream < self.core.streams() && self.core.put_datagram(stream, &frame) == wanted {
                answered = answered.saturating_add(1);
            }
        }
        answered.to_string(alloc)
    }

    /// What the bytes are answered.
    fn arrive(&mut self, alloc: Global, stream: usize, bytes: &[u8]) -> Result<String, AllocError> {
        if stream >= self.core.streams() {
            return "no such stream".to_string(alloc);
        }
        let outcome = if self.by_steps {
            steps::arrive(alloc, &mut self.core, stream, bytes)?
        } else {
            self.core.put_datagram(stream, bytes)
        };
        format!(in alloc; "{outcome:?}")
    }

    /// A tick that hands in these counts, or those that wait.
    fn tick(
        &mut self,
        alloc: Global,
        now: u64,
        counts: Option<[u16; MAX_PMUS]>,
    ) -> Result<String, AllocError> {
        let counts = match counts {
            Some(counts) => counts,
            None => self.core.waiting(),
        };
        let ticked = if self.by_steps {
            steps::tick(&mut self.core, now, counts)
        } else {
            self.core.tick(now, &counts)
        };
        tick_text(alloc, ticked.closed, ticked.change)
    }

    /// The counts that wait, one for each column.
    fn waiting_text(&self, alloc: Global) -> Result<String, AllocError> {
        let counts = self.core.waiting();
        let columns = self.core.columns();
        counts_text(alloc, counts.get(..columns).unwrap_or(&[]))
    }

    /// Takes the row out that waits, and publishes it.
    fn pop(&mut self, alloc: Global) -> Result<String, AllocError> {
        let due = if self.by_steps {
            steps::pop(&mut self.core)
        } else {
            self.core.pop_due()
        };
        let Some(row) = due else {
            return "none".to_string(alloc);
        };
        let end = SECONDS * u64::from(self.output.rate);
        if row.instant <= self.publisher.last() || row.instant >= end {
            return "not to be published".to_string(alloc);
        }
        let text = row_text(alloc, &row)?;
        match self.publisher.publish(row, &mut self.published) {
            Ok(_) => Ok(text),
            Err(_) => "not published".to_string(alloc),
        }
    }

    /// What is told of the layout's frame.
    fn layout_text(&self, alloc: Global, soc: u32) -> Result<String, AllocError> {
        let mut frame = Vec::new(alloc);
        self.core.layout_frame(soc, &mut frame)?;
        frame_text(alloc, &frame)
    }

    /// How arrivals were answered.
    fn counts_text(&self, alloc: Global) -> Result<String, AllocError> {
        let counts = self.core.counts();
        let mut texts = Vec::new(alloc);
        for count in [counts.taken, counts.candidate, counts.known, counts.refused] {
            texts.push(count.to_string(alloc)?)?;
        }
        texts.as_slice().join(alloc, " ")
    }

    /// How often both nodes' blocks differed.
    fn disagree_text(&self, alloc: Global) -> Result<String, AllocError> {
        match self.core.disagree() {
            Some(count) => count.to_string(alloc),
            None => "no such call".to_string(alloc),
        }
    }

    /// What a call on the life is answered.
    fn answer(&mut self, alloc: Global, call: LifeCall<'a>) -> Result<String, AllocError> {
        match call {
            LifeCall::Arrive { stream, bytes } => self.arrive(alloc, stream, bytes),
            LifeCall::Tick { now, counts } => self.tick(alloc, now, counts),
            LifeCall::Waiting => self.waiting_text(alloc),
            LifeCall::Pop => self.pop(alloc),
            LifeCall::Published => hex::encode_upper(alloc, self.published.as_slice()),
            LifeCall::Layout { soc } => self.layout_text(alloc, soc),
        }
    }

    /// What another call is answered, of one word.
    fn told(&mut self, alloc: Global, word: &str) -> Result<String, AllocError> {
        match word {
            "published_len" => self.published.len().to_string(alloc),
            "configs" => self.arrive_widest(alloc, false, Outcome::Candidate),
            "data" => self.arrive_widest(alloc, true, Outcome::Taken),
            "counts" => self.counts_text(alloc),
            "disagree" => self.disagree_text(alloc),
            _ => "no such call".to_string(alloc),
        }
    }
}

impl<C: Scripted> CorePlayer<'_, C> {
    /// What a call is answered that is none on the life.
    fn other(&mut self, alloc: Global, words: &[&str]) -> Result<String, AllocError> {
        match words {
            ["node" | "merger" | "widest", ..] => self.begin(alloc, words),
            ["lead", lead] => self.lead(alloc, lead),
            [word] => self.told(alloc, word),
            _ => "no such call".to_string(alloc),
        }
    }
}

impl<C: Scripted> Player for CorePlayer<'_, C> {
    fn play(&mut self, alloc: Global, call: &str) -> Result<String, AllocError> {
        let words: Vec<&str> = call.split_whitespace().collect(alloc)?;
        match life_call(self.frames, &words) {
            Some(call) => self.answer(alloc, call),
            None => self.other(alloc, &words),
        }
    }
}
