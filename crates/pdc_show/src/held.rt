//! What is kept of a configuration, to read data by it.
ghost use Rattle.std.specs.Prelude.{◌≡◌, ◌≤◌, sum_by};
ghost use Rattle.pdc_block.specs.Block.{body_len_of};
ghost use Rattle.pdc_cfg.specs.declared.config.TheConstants.{MAX_TIME_BASE};
ghost use Rattle.pdc_show.specs.declared.held.HeldSection.{HeldSection as HeldSectionData};

use arrayvec::ArrayVec;
use pdc_cfg::{ConfigView, Shape};
use pdc_frame::{Frame, MAX_RATE, StreamId, instant};

/// What is kept of a section.
#[derive(Clone, Copy, Debug, Default)]
pub struct HeldSection {
    /// The id of the data's source.
    pub source: u16,
    /// How many phasors, analog values and digital words its data has.
    pub shape: Shape,
    /// Phasors are magnitude and angle.
    pub polar: bool,
}

/// What is kept of the CFG-2 frame that was shown last.
#[derive(Debug, Drop)]
pub struct Held {
    /// The stream's id.
    pub id: StreamId,
    /// The counts of FRACSEC in a second.
    pub time_base: u32,
    /// The frames in a second, where it is above zero.
    pub rate: i16,
    /// What data frames of this stream have, in order.
    pub sections: ArrayVec<HeldSection, 17>,
    pub ghost time_base_fits: { time_base ≤ MAX_TIME_BASE },
}

impl Held {
    /// What is kept of a configuration of this stream.
    pub fn new(id: StreamId, config: &ConfigView) -> Held {
        let mut sections = ArrayVec::new();
        for section in config.sections.as_slice() {
            sections.push(HeldSection {
                source: section.source,
                shape: section.shape,
                polar: section.polar,
            });
        }
        Held {
            id,
            time_base: config.time_base,
            rate: config.rate,
            sections,
        }
    }

    /// The instant of a data frame's tag; `None` where the tag has none, or the rate is not 1 to 240.
    pub fn instant(&self, frame: &Frame) -> Option<u64> {
        let rate = u32::try_from(self.rate).ok()?;
        if rate == 0 || rate > MAX_RATE {
            return None;
        }
        instant(frame.soc, frame.frac, self.time_base, rate)
    }

    /// The bytes that the blocks of a data frame take, one after the other.
    pub fn payload_len(&self) -> usize
        ensures { result
            ≡ sum_by (λ (section : HeldSectionData). body_len_of section.shape)
            self.now.sections.items }
    {
        let mut len = 0;
        for section in self.sections.as_slice() {
            len += 2 * section.shape.word_count();
        }
        len
    }
}
