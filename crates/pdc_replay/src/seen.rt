//! A row that was popped, as it is compared with those of other concentrators.

use arrayvec::ArrayVec;
use pdc_row::{Block, read_config, read_frame};

/// What is told of a section: the source that it names, and its count.
#[derive(Clone, Copy, Debug, Default, PartialEq, Eq)]
pub struct Section {
    /// The id of the source.
    pub source: u16,
    /// The count.
    pub count: u16,
}

/// The sections of PMUs of a layout, in the order of the columns.
#[derive(Drop)]
pub(crate) struct Layout {
    /// The change number.
    pub change: u32,
    /// The sections.
    pub sections: ArrayVec<Section, 16>,
}

/// A row that was popped.
#[derive(Clone, Copy, Debug)]
pub struct SeenRow<'a> {
    /// The instant.
    pub instant: u64,
    /// Its blocks,
    pub blocks: &'a [Block],
    /// and the section of each.
    pub sections: &'a [Section],
}

impl<'a> SeenRow<'a> {
    /// The block of a source, where it is present, with its count.
    pub fn present(&self, source: u16) -> Option<(u16, &'a Block)> {
        for (section, block) in self.sections.iter().zip(self.blocks) {
            if section.source == source {
                if pdc_block::is_absent(block) {
                    return None;
                }
                return Some((section.count, block));
            }
        }
        None
    }
}

/// The layout with this change number, whose frame these bytes are.
pub(crate) fn layout_of(change: u32, bytes: &[u8]) -> Layout {
    let mut sections = ArrayVec::new();
    if let Ok(frame) = read_frame(bytes) {
        if let Ok(config) = read_config(&frame) {
            for section in config.sections.as_slice().get(1..).unwrap_or(&[]) {
                if !sections.is_full() {
                    sections.push(Section {
                        source: section.source,
                        count: section.count,
                    });
                }
            }
        }
    }
    Layout { change, sections }
}

/// Lets the layouts go of which no row is to come, where the last one was of this change number.
pub(crate) fn drop_layouts(layouts: &mut Vec<Layout>, change: u32) {
    let count = layouts
        .iter()
        .take_while(|layout| layout.change < change)
        .count();
    for _ in 0..count {
        if !layouts.is_empty() {
            layouts.remove(0);
        }
    }
}
