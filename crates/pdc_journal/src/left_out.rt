//! Blocks that the merger leaves out.

use crate::missing::Missing;
use arrayvec::ArrayVec;
use pdc_block::{cut, is_absent};
use pdc_cfg::{ConfigView, MAX_SECTIONS, Shape, read_config};
use pdc_frame::{Frame, Kind, read_frame};
use pdc_ports::Outcome;
use std::mem;
use std::sync::{Mutex, Wait};

/// The most sources that are merged.
pub const MAX_SOURCES: usize = 16;

/// A source that is merged.
#[derive(Clone, Copy, Debug)]
pub struct MergedSource {
    /// Its id; 0 where there is none in this place.
    pub source: u16,
    /// The count that is in force with the merger.
    pub count: Option<u16>,
    /// How many present blocks of it came under another count, and were left out.
    pub left_out: u64,
}

/// How many blocks the merger left out of each source, since they came under a count that is not in force with it. It is told of the merger's
/// layouts, and of what its nodes send. Beside it stands of which sources no data comes.
#[derive(Drop)]
pub struct LeftOut {
    sources: Mutex<[MergedSource; MAX_SOURCES]>,
    /// The sources of which its frames have no data.
    pub missing: Missing,
}

impl LeftOut {
    /// Nothing is in force, and nothing was left out yet. More than 16 sources are passed over.
    pub fn new(sources: &[u16]) -> LeftOut {
        let blank = MergedSource {
            source: 0,
            count: None,
            left_out: 0,
        };
        let mut merged = [blank; MAX_SOURCES];
        for (place, source) in merged.iter_mut().zip(sources) {
            place.source = *source;
        }
        LeftOut {
            sources: Mutex::new(merged),
            missing: Missing::new(sources),
        }
    }

    /// The merger adopted this layout.
    pub fn adopt<R: Wait>(&self, rt: &R, config: &ConfigView) {
        self.missing.adopt(rt, config);
        let mut sources = self.sources.lock(rt);
        for section in config.sections.iter().skip(1) {
            for merged in sources.iter_mut() {
                if merged.source == section.source {
                    merged.count = Some(section.count);
                }
            }
        }
    }

    /// A present block of the source came under this count.
    fn came<R: Wait>(&self, rt: &R, source: u16, count: u16) {
        let mut sources = self.sources.lock(rt);
        for merged in sources.iter_mut() {
            if merged.source == source && merged.count != Some(count) {
                merged.left_out = merged.left_out.saturating_add(1);
            }
        }
    }

    /// The sources, with what was left out of each.
    pub fn sources<R: Wait>(&self, rt: &R) -> [MergedSource; MAX_SOURCES] {
        *self.sources.lock(rt)
    }
}

/// A section of a node's layout.
#[derive(Clone, Copy, Debug, Default)]
struct SentSection {
    source: u16,
    count: u16,
    shape: Shape,
    /// Whether its block is present in the data frame that came last.
    is_present: bool,
}

/// The stream of a node, whose blocks are compared with what is in force with the merger.
#[derive(Drop)]
pub struct Compared<'a> {
    left_out: &'a LeftOut,
    /// The layout that was taken last.
    layout: ArrayVec<SentSection, MAX_SECTIONS>,
    /// The layout that came last.
    offered: ArrayVec<SentSection, MAX_SECTIONS>,
}

/// The sections of a configuration.
fn sections_of(config: &ConfigView) -> ArrayVec<SentSection, MAX_SECTIONS> {
    let mut sections = ArrayVec::new();
    for section in &config.sections {
        let sent = SentSection {
            source: section.source,
            count: section.count,
            shape: section.shape,
            is_present: false,
        };
        let _full = sections.try_push(sent);
    }
    sections
}

/// Notes which blocks of the data frame are present; none where it is not of this layout.
fn note_present(layout: &mut ArrayVec<SentSection, MAX_SECTIONS>, frame: &Frame) {
    let mut shapes: ArrayVec<Shape, MAX_SECTIONS> = ArrayVec::new();
    for sent in layout.iter() {
        let _full = shapes.try_push(sent.shape);
    }
    for sent in layout.iter_mut() {
        sent.is_present = false;
    }
    let Ok(blocks) = cut(&shapes, frame.payload) else {
        return;
    };
    for (sent, block) in layout.iter_mut().zip(blocks.iter()) {
        sent.is_present = !is_absent(block);
    }
}

impl<'a> Compared<'a> {
    /// No layout came yet.
    pub fn new(left_out: &'a LeftOut) -> Compared<'a> {
        Compared {
            left_out,
            layout: ArrayVec::new(),
            offered: ArrayVec::new(),
        }
    }

    /// A datagram came.
    pub fn see(&mut self, bytes: &[u8]) {
        let Ok(frame) = read_frame(bytes) else {
            return;
        };
        match frame.kind {
            Kind::DataFrame => note_present(&mut self.layout, &frame),
            Kind::Cfg2 => {
                if let Ok(config) = read_config(&frame) {
                    self.offered = sections_of(&config);
                }
            }
            _ => {}
        }
    }

    /// The datagram that came last was answered so.
    pub fn answered<R: Wait>(&mut self, rt: &R, outcome: Outcome) {
        match outcome {
            Outcome::Candidate => mem::swap(&mut self.layout, &mut self.offered),
            Outcome::Taken => {
                for sent in self.layout.iter().skip(1) {
                    if sent.is_present {
                        self.left_out.came(rt, sent.source, sent.count);
                    }
                }
            }
            _ => {}
        }
    }
}
