//! A life is followed, step by step.

use crate::about::{About, Unexplained};
use crate::gap::{Gap, Hold};
use crate::moments::instant_near;
use crate::sections::{Held, Sections, is_configuration};
use crate::stories::Stories;
use crate::story::{Arrived, Cell, Closed, Opened, RefusedConfig, Story, cells_of};
use crate::wanted::Selection;
use arrayvec::ArrayVec;
use pdc_align::{Arrival, ColumnSection};
use pdc_cfg::{read_config, read_frame};
use pdc_life::{MAX_PMUS, OWN_BLOCK_LEN, Outcome};
use pdc_record::Begun;
use std::alloc::{AllocError, Global};

/// The sections of a node's layout, in their order.
type Layout = ArrayVec<Held, MAX_PMUS>;

/// Rows that closed at a tick.
#[derive(Clone, Copy)]
pub(crate) struct Closing {
    tick: Closed,
    /// How many of them were not popped yet.
    left: u32,
}

/// A life that is followed.
#[derive(Drop)]
pub(crate) struct Followed {
    pub about: About,
    sections: Sections,
    /// At the merger the layout that is held of each node.
    layouts: [Option<Layout>; 2],
    /// For each stream the last configurations, if they were refused.
    refused: [Option<RefusedConfig>; MAX_PMUS],
    pub stories: Stories,
    closings: Vec<Closing>,
    /// Each row that waits closed at one of these.
    has_closings: bool,
    /// The instant behind that of the last row that was popped.
    next_row: u64,
    /// The record tells all of the life up to here.
    is_whole: bool,
    /// The times in which no tick came.
    pub holds: Vec<Hold>,
    /// The tick before.
    last: Option<Closed>,
    /// How many ticks there were.
    ticks: u64,
}

/// A datagram and its answer.
#[derive(Clone, Copy)]
pub(crate) struct Heard<'a> {
    pub step: u64,
    pub time: u64,
    pub stream: usize,
    pub outcome: Option<Outcome>,
    pub datagram: &'a [u8],
}

impl Followed {
    pub fn new(
        alloc: Global,
        begun: &Begun<'_>,
        first: u64,
        wanted: Selection,
    ) -> Result<Followed, Unexplained> {
        let about = About::of(alloc, begun, first)?;
        let is_first = first == 0;
        let stories = Stories::new(alloc, about.streams(), wanted.instant(about.rate()))?;
        Ok(Followed {
            about,
            sections: Sections::new(is_first),
            layouts: [None, None],
            refused: [None; MAX_PMUS],
            stories,
            closings: Vec::new(alloc),
            has_closings: is_first,
            next_row: 0,
            is_whole: is_first,
            holds: Vec::new(alloc),
            last: None,
            ticks: 0,
        })
    }

    /// The instant that is now, or nearest to this time before the first tick.
    fn now(&self, time: u64) -> u64 {
        match self.last {
            Some(tick) => tick.now,
            None => instant_near(time, self.about.rate()),
        }
    }

    /// The instant behind that of the last row that was popped.
    pub fn next_row(&self) -> u64 {
        self.next_row
    }

    /// Steps are not in the record: what they changed is not known, up to the next frame of the layout, the next layouts of nodes, and the
    /// next time that no row waits.
    pub fn miss(&mut self, gap: Gap) {
        self.sections = Sections::new(false);
        for layout in self.layouts.as_mut_slice() {
            *layout = None;
        }
        self.refused = [None; MAX_PMUS];
        self.closings.clear();
        self.has_closings = false;
        self.is_whole = false;
        self.last = None;
        self.stories.miss(gap);
    }

    /// Whether the sections in force are known.
    pub fn is_known(&self) -> bool {
        self.sections.in_force().is_some()
    }

    /// A file carries over what a core must know of the steps before it: each section that was held, what was adopted, and what was taken of
    /// instants above this one. No row waits.
    pub fn carry(&mut self, floor: u64) {
        self.sections = Sections::new(true);
        self.closings.clear();
        self.has_closings = true;
        self.stories.carry(floor);
    }

    /// A tick that is carried over: the rows that it closed were popped.
    pub fn tick_carried(
        &mut self,
        time: u64,
        now: u64,
        counts: &[u16; MAX_PMUS],
        is_changed: bool,
    ) {
        self.ticks = self.ticks.saturating_add(1);
        self.last = Some(Closed {
            time,
            now,
            ticks: self.ticks,
            in_force: self.sections.in_force(),
        });
        let adopted = self.sections.adopt(counts, is_changed);
        if is_changed {
            self.stories.adopt(&adopted, self.ticks);
        }
    }

    /// No row waited.
    pub fn find_none(&mut self) {
        self.closings.clear();
        self.has_closings = true;
    }

    /// What each column has in a payload that was taken; none where that is not known.
    fn cells(&self, stream: usize, payload: &[u8]) -> Option<[Cell; MAX_PMUS]> {
        self.sections.in_force()?;
        if !self.about.is_merger() {
            let held = self.sections.of_column(stream)?;
            return cells_of(payload, 0, &[held]);
        }
        let layout = self.layouts.get(stream)?.as_ref()?;
        let mut cells = cells_of(payload, OWN_BLOCK_LEN, layout.as_slice())?;
        for held in layout.as_slice() {
            let is_same = match self.sections.of_column(held.column) {
                Some(in_force) => in_force.count == held.count,
                None => false,
            };
            if let Some(cell) = cells.get_mut(held.column) {
                if !is_same {
                    *cell = Cell::OtherCount(held.count);
                }
            }
        }
        Some(cells)
    }

    /// Data came for a stream.
    fn hear_data(
        &mut self,
        heard: &Heard<'_>,
        instant: u64,
        payload: &[u8],
    ) -> Result<(), AllocError> {
        let is_taken = heard.outcome == Some(Outcome::Taken);
        let cells = if is_taken {
            self.cells(heard.stream, payload)
        } else {
            None
        };
        let waiting = if self.about.is_merger() {
            None
        } else {
            self.sections.waiting(heard.stream)
        };
        let (now, ticks) = (self.now(heard.time), self.ticks);
        let arrived = Arrived {
            step: heard.step,
            time: heard.time,
            outcome: heard.outcome,
            is_whole: self.is_whole,
            ticks,
            refused: self.refused.get(heard.stream).copied().unwrap_or(None),
            waiting: waiting.map(|held| held.count),
            adopted: None,
        };
        let Some(story) = self.stories.at(instant, now)? else {
            self.stories.pass(heard.stream, instant, heard.time);
            return Ok(());
        };
        if is_taken && story.opened.is_none() {
            story.opened = Some(Opened {
                step: heard.step,
                time: heard.time,
                ticks,
                stream: heard.stream,
            });
        }
        let Some(came) = story.came.as_mut_slice().get_mut(heard.stream) else {
            return Ok(());
        };
        came.note(arrived);
        if is_taken {
            came.take(arrived, payload)?;
            came.cells = cells.unwrap_or([Cell::Unknown; MAX_PMUS]);
        }
        Ok(())
    }

    /// A configuration came for a stream, and is held.
    fn hear_layout(&mut self, stream: usize, sections: &[ColumnSection<'_>]) {
        let mut layout = Layout::new();
        for part in sections {
            let held = Held::of(part.column, &part.section);
            self.sections.hold(held);
            if !layout.is_full() {
                layout.push(held);
            }
        }
        if let Some(place) = self.layouts.get_mut(stream) {
            *place = Some(layout);
        }
    }

    /// Notes whether a configuration was refused that came for a stream.
    fn note_config(&mut self, heard: &Heard<'_>) {
        if !is_configuration(heard.datagram) {
            return;
        }
        if let (Some(outcome), Some(place)) = (heard.outcome, self.refused.get_mut(heard.stream)) {
            *place = match outcome {
                Outcome::Refused(refusal) => Some(RefusedConfig::with(*place, refusal, heard.time)),
                _ => None,
            };
        }
    }

    /// A datagram came.
    pub fn hear(&mut self, heard: &Heard<'_>) -> Result<(), AllocError> {
        self.note_config(heard);
        let read = self.about.read(heard.stream, heard.datagram);
        match &read {
            Some(
                Arrival::Data {
                    instant,
                    payload,
                    ..
                },
            ) => self.hear_data(heard, *instant, payload),
            Some(Arrival::Layout { sections, .. }) => {
                if matches!(heard.outcome, Some(Outcome::Candidate | Outcome::Known)) {
                    self.hear_layout(heard.stream, sections.as_slice());
                }
                Ok(())
            }
            _ => Ok(()),
        }
    }

    /// A tick.
    pub fn tick(
        &mut self,
        time: u64,
        now: u64,
        counts: &[u16; MAX_PMUS],
        closed: u32,
        is_changed: bool,
    ) -> Result<(), AllocError> {
        self.ticks = self.ticks.saturating_add(1);
        let tick = Closed {
            time,
            now,
            ticks: self.ticks,
            in_force: self.sections.in_force(),
        };
        if let Some(hold) = self.last.and_then(|before| Hold::between(before, tick)) {
            self.holds.push(hold)?;
        }
        self.last = Some(tick);
        self.stories.reach(now.saturating_add(self.about.ahead()));
        if closed > 0 {
            self.closings.push(Closing { tick, left: closed })?;
        }
        let adopted = self.sections.adopt(counts, is_changed);
        if is_changed {
            self.stories.adopt(&adopted, self.ticks);
        }
        Ok(())
    }

    /// The tick at which the row closed that is popped, where it is known.
    fn closing(&mut self) -> Option<Closed> {
        if !self.has_closings {
            return None;
        }
        let Some(first) = self.closings.as_mut_slice().first_mut() else {
            return self.last;
        };
        let tick = first.tick;
        first.left = first.left.saturating_sub(1);
        if first.left == 0 {
            self.closings.remove(0);
        }
        Some(tick)
    }

    /// A row was popped.
    pub fn pop(
        &mut self,
        alloc: Global,
        time: u64,
        instant: u64,
        frame: Option<&[u8]>,
    ) -> Result<(), AllocError> {
        let closed = self.closing();
        self.next_row = instant.saturating_add(1);
        let now = self.now(time).max(instant);
        let Some(story) = self.stories.at(instant, now)? else {
            return Ok(());
        };
        story.popped = Some(time);
        story.closed = closed;
        if let Some(frame) = frame {
            show_in(alloc, story, closed, frame)?;
        }
        Ok(())
    }

    /// The frame of the layout was put.
    pub fn lay(&mut self, frame: &[u8]) {
        if let Ok(frame) = read_frame(frame) {
            if let Ok(config) = read_config(&frame) {
                self.sections.lay(&self.about, &config);
            }
        }
    }
}

/// Notes the frame that was published of an instant.
fn show_in(
    alloc: Global,
    story: &mut Story,
    closed: Option<Closed>,
    bytes: &[u8],
) -> Result<(), AllocError> {
    let Ok(frame) = read_frame(bytes) else {
        return Ok(());
    };
    let mut payload = Vec::new(alloc);
    payload.extend_from_slice(frame.payload)?;
    story.payload = Some(payload);
    if let Some(
        Closed {
            in_force: Some(in_force),
            ..
        },
    ) = closed
    {
        let mut sections = Layout::new();
        for held in in_force {
            if let Some(held) = held {
                if !sections.is_full() {
                    sections.push(held);
                }
            }
        }
        story.shown = cells_of(frame.payload, OWN_BLOCK_LEN, sections.as_slice());
    }
    Ok(())
}
