//! How a run stands, for those who ask.

use crate::histogram::Histogram;
use crate::left_out::MAX_SOURCES;
use crate::missing::section_of;
use crate::tags::Tags;
use arrayvec::ArrayVec;
use pdc_block::{Block, cut, is_absent};
use pdc_cfg::{ConfigView, MAX_SECTIONS, Shape};
use pdc_frame::Frame;
use std::rt::Clock;
use std::sync::{Mutex, Wait};
use std::time::SystemTime;

/// The most instants that are open at once: as many as the largest window has.
const MAX_OPEN: usize = 256;

/// A source of the settings, as the layout in force has it.
#[derive(Clone, Copy, Debug)]
pub struct MeasuredSource {
    /// Its id; 0 where there is none in this place.
    pub source: u16,
    /// The configuration count that was adopted; 0 where the layout has no section of it.
    pub count: u16,
    /// In how many frames its block was absent.
    pub absent: u64,
    /// Which section of the layout is of it, if one is.
    section: Option<usize>,
}

/// How a run stands.
#[derive(Clone, Copy, Debug)]
pub struct Standing {
    /// How many data frames were published.
    pub published: u64,
    /// The instant of the last one, if there was one.
    pub last: Option<u64>,
    /// Its second, and the counts of FRACSEC.
    pub tag: (u32, u32),
    /// How many instants are open: data for them was taken, and they are not published.
    pub open: usize,
    /// The start and the change of the layout in force; 0 where there is none.
    pub start: u32,
    pub change: u32,
    /// The sources of the settings, in their order.
    pub sources: [MeasuredSource; MAX_SOURCES],
    /// How long it took from an instant's time to its publishing, by the system's clock.
    pub latency: Histogram,
    /// How long it took from the last data that was taken for an instant to its publishing, likewise.
    pub holding: Histogram,
}

/// An instant that is open, and when data was taken for it last, in microseconds since 1970.
#[derive(Clone, Copy, Debug, Default)]
struct OpenInstant {
    instant: u64,
    last: u64,
}

/// What is kept of a run.
#[derive(Drop)]
struct Kept {
    standing: Standing,
    /// The shapes of the layout in force, the own one first.
    shapes: ArrayVec<Shape, MAX_SECTIONS>,
    /// The instants that are open.
    open: ArrayVec<OpenInstant, MAX_OPEN>,
}

/// How a run stands: the threads that take and send tell it, and whoever asks is answered at once.
#[derive(Drop)]
pub struct Measured {
    /// How the tags of its frames are read.
    pub tags: Tags,
    kept: Mutex<Kept>,
}

/// The place of no source.
const NO_SOURCE: MeasuredSource = MeasuredSource {
    source: 0,
    count: 0,
    absent: 0,
    section: None,
};

/// The shapes of a configuration.
fn shapes_of(config: &ConfigView) -> ArrayVec<Shape, MAX_SECTIONS> {
    let mut shapes = ArrayVec::new();
    for section in &config.sections {
        let _full = shapes.try_push(section.shape);
    }
    shapes
}

/// These sources, of none of which a layout has a section yet. More than 16 are passed over.
fn sources_of(sources: &[u16]) -> [MeasuredSource; MAX_SOURCES] {
    let mut measured = [NO_SOURCE; MAX_SOURCES];
    for (place, source) in measured.iter_mut().zip(sources) {
        place.source = *source;
    }
    measured
}

/// The configuration count of a section; 0 where there is none.
fn count_in(config: &ConfigView, section: Option<usize>) -> u16 {
    let Some(number) = section else {
        return 0;
    };
    match config.sections.get(number) {
        Some(section) => section.count,
        None => 0,
    }
}

/// Looks which sections of a layout are of these sources.
fn find_sections(sources: &mut [MeasuredSource], config: &ConfigView) {
    for measured in sources.iter_mut() {
        measured.section = section_of(config, measured.source);
        measured.count = count_in(config, measured.section);
    }
}

/// Whether this section has a block, and it is absent.
fn is_absent_in(blocks: &[Block], section: Option<usize>) -> bool {
    let Some(number) = section else {
        return false;
    };
    match blocks.get(number) {
        Some(block) => is_absent(block),
        None => false,
    }
}

/// Counts the sources whose blocks are absent.
fn count_absent(sources: &mut [MeasuredSource], blocks: &[Block]) {
    for measured in sources.iter_mut() {
        if is_absent_in(blocks, measured.section) {
            measured.absent = measured.absent.saturating_add(1);
        }
    }
}

/// Microseconds since 1970; 0 where the clock cannot be read.
fn micros_now<R: Clock>(rt: &R) -> u64 {
    let Ok(now) = SystemTime::now(rt) else {
        return 0;
    };
    match now.duration_since(SystemTime::UNIX_EPOCH) {
        Ok(since) => u64::try_from(since.as_micros()).unwrap_or(u64::MAX),
        Err(_) => 0,
    }
}

/// The microseconds since 1970 of a time tag: a second, and counts of which so many are a second.
fn micros_of(soc: u32, frac: u32, time_base: u32) -> u64 {
    let parts = (u64::from(frac) * 1_000_000)
        .checked_div(u64::from(time_base))
        .unwrap_or(0);
    u64::from(soc) * 1_000_000 + parts
}

/// When data was taken last for this instant, if it is open.
fn last_of(open: &[OpenInstant], instant: u64) -> Option<u64> {
    for one in open {
        if one.instant == instant {
            return Some(one.last);
        }
    }
    None
}

/// The instants of these that lie above this one.
fn above(open: &[OpenInstant], instant: u64) -> ArrayVec<OpenInstant, MAX_OPEN> {
    let mut left = ArrayVec::new();
    for one in open {
        if one.instant > instant {
            let _full = left.try_push(*one);
        }
    }
    left
}

impl Measured {
    /// Nothing was taken and published yet of these sources.
    pub fn new(tags: Tags, sources: &[u16]) -> Measured {
        Measured {
            tags,
            kept: Mutex::new(Kept {
                standing: Standing {
                    published: 0,
                    last: None,
                    tag: (0, 0),
                    open: 0,
                    start: 0,
                    change: 0,
                    sources: sources_of(sources),
                    latency: Histogram::new(),
                    holding: Histogram::new(),
                },
                shapes: ArrayVec::new(),
                open: ArrayVec::new(),
            }),
        }
    }

    /// This layout was adopted.
    pub fn adopt<R: Wait>(&self, rt: &R, config: &ConfigView, start: u32, change: u32) {
        let mut kept = self.kept.lock(rt);
        kept.shapes = shapes_of(config);
        find_sections(&mut kept.standing.sources, config);
        kept.standing.start = start;
        kept.standing.change = change;
    }

    /// This data frame was published, now by the system's clock.
    pub fn publish<R: Wait + Clock>(&self, rt: &R, frame: &Frame) {
        let now = micros_now(rt);
        let time = micros_of(frame.soc, frame.frac, self.tags.time_base);
        let instant = self.tags.instant(frame.soc, frame.frac);
        let mut kept = self.kept.lock(rt);
        if let Ok(blocks) = cut(&kept.shapes, frame.payload) {
            count_absent(&mut kept.standing.sources, &blocks);
        }
        kept.standing.latency.observe(now.saturating_sub(time));
        if let Some(instant) = instant {
            if let Some(last) = last_of(&kept.open, instant) {
                kept.standing.holding.observe(now.saturating_sub(last));
            }
            kept.open = above(&kept.open, instant);
        }
        kept.standing.published = kept.standing.published.saturating_add(1);
        kept.standing.last = instant;
        kept.standing.tag = (frame.soc, frame.frac);
    }

    /// Data for this instant was taken, now by the system's clock.
    pub fn take<R: Wait + Clock>(&self, rt: &R, instant: u64) {
        let last = micros_now(rt);
        let mut kept = self.kept.lock(rt);
        let is_published = match kept.standing.last {
            Some(last) => instant <= last,
            None => false,
        };
        if is_published {
            return;
        }
        for one in kept.open.iter_mut() {
            if one.instant == instant {
                one.last = last;
                return;
            }
        }
        let _full = kept.open.try_push(OpenInstant { instant, last });
    }

    /// How the run stands.
    pub fn standing<R: Wait>(&self, rt: &R) -> Standing {
        let kept = self.kept.lock(rt);
        let mut standing = kept.standing;
        standing.open = kept.open.len();
        standing
    }
}
