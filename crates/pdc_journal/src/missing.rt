//! PMUs of which no data comes from either node.

use crate::journal::Journal;
use crate::left_out::MAX_SOURCES;
use crate::moment::Moment;
use crate::presence::{News, Presence};
use crate::spell::LONG;
use arrayvec::ArrayVec;
use pdc_block::{Block, cut, is_absent};
use pdc_cfg::{ConfigView, MAX_SECTIONS, Shape};
use pdc_frame::{Frame, Kind};
use std::alloc::{AllocError, Global};
use std::rt::Clock;
use std::sync::{Mutex, Wait};

/// A PMU of the merger's settings.
#[derive(Clone, Copy, Debug)]
struct SoughtPmu {
    /// The id of its source; 0 where there is none in this place.
    source: u16,
    /// Which section of the layout in force is of it, if one is.
    section: Option<usize>,
    presence: Presence,
}

/// What is looked for.
#[derive(Drop)]
struct Sought {
    pmus: [SoughtPmu; MAX_SOURCES],
    /// The shapes of the layout in force, the own one first.
    shapes: ArrayVec<Shape, MAX_SECTIONS>,
}

/// Of which PMUs of its settings the merger's frames have no data: of one that stopped, and of one that never came. It is told once when it has
/// lasted for five seconds, and once when data comes again.
#[derive(Drop)]
pub struct Missing {
    sought: Mutex<Sought>,
}

/// The place of this source among the sections of a configuration.
pub fn section_of(config: &ConfigView, source: u16) -> Option<usize> {
    for (number, section) in config.sections.iter().enumerate() {
        if number > 0 && section.source == source {
            return Some(number);
        }
    }
    None
}

/// Whether the block of this section is there.
fn is_present(blocks: &[Block], section: Option<usize>) -> bool {
    let Some(number) = section else {
        return false;
    };
    match blocks.get(number) {
        Some(block) => !is_absent(block),
        None => false,
    }
}

/// The line about a PMU.
fn news_text(alloc: Global, source: u16, news: News) -> Result<String, AllocError> {
    match news {
        News::Missing => {
            format!(in alloc; "no data of PMU {source} from either node for {LONG} seconds")
        }
        News::Back => format!(in alloc; "data of PMU {source} comes again"),
    }
}

/// Tells what there is to tell of a PMU.
fn tell<R: Wait + Clock>(
    rt: &R,
    alloc: Global,
    journal: &Journal,
    source: u16,
    news: Option<News>,
) {
    match news {
        Some(News::Missing) => journal.tell(rt, news_text(alloc, source, News::Missing)),
        Some(News::Back) => journal.note(rt, news_text(alloc, source, News::Back)),
        None => {}
    }
}

/// The blocks of a data frame of these shapes; none of what is none.
fn blocks_of(
    shapes: &ArrayVec<Shape, MAX_SECTIONS>,
    frame: &Frame,
) -> ArrayVec<Block, MAX_SECTIONS> {
    if frame.kind != Kind::DataFrame {
        return ArrayVec::new();
    }
    match cut(shapes, frame.payload) {
        Ok(blocks) => blocks,
        Err(_) => ArrayVec::new(),
    }
}

impl Missing {
    /// These PMUs are looked for. More than 16 are passed over.
    pub fn new(sources: &[u16]) -> Missing {
        let blank = SoughtPmu {
            source: 0,
            section: None,
            presence: Presence::new(),
        };
        let mut pmus = [blank; MAX_SOURCES];
        for (pmu, source) in pmus.iter_mut().zip(sources) {
            pmu.source = *source;
        }
        Missing {
            sought: Mutex::new(Sought {
                pmus,
                shapes: ArrayVec::new(),
            }),
        }
    }

    /// The merger sent this layout.
    pub fn adopt<R: Wait>(&self, rt: &R, config: &ConfigView) {
        let mut sought = self.sought.lock(rt);
        sought.shapes.clear();
        for section in &config.sections {
            let _full = sought.shapes.try_push(section.shape);
        }
        for pmu in sought.pmus.iter_mut() {
            pmu.section = section_of(config, pmu.source);
        }
    }

    /// The merger sent this frame: what there is to tell is told. A frame that is none of data, or not of the layout, has no data of any PMU.
    pub fn see<R: Wait + Clock>(&self, rt: &R, alloc: Global, journal: &Journal, frame: &Frame) {
        let now = Moment::now(rt);
        let mut sought = self.sought.lock(rt);
        let blocks = blocks_of(&sought.shapes, frame);
        for pmu in sought.pmus.iter_mut() {
            if pmu.source > 0 {
                let news = pmu.presence.look(is_present(&blocks, pmu.section), now);
                tell(rt, alloc, journal, pmu.source, news);
            }
        }
    }

    /// The PMUs that were told to be missing, in the order of the settings.
    pub fn pmus<R: Wait>(&self, rt: &R) -> ArrayVec<u16, MAX_SOURCES> {
        let mut missing = ArrayVec::new();
        for pmu in self.sought.lock(rt).pmus.iter() {
            if pmu.presence.is_missing() {
                let _full = missing.try_push(pmu.source);
            }
        }
        missing
    }
}
