//! What is known of a pair.
ghost use Rattle.std.specs.Prelude.{◌≡◌, ◌≤◌, ◌↔◌, All, Contains, IfNone, IfOk, IfSome, IsTrue};
ghost use Rattle.pdc_watch.specs.Agreement.{AllAgree};
ghost use Rattle.pdc_watch.specs.declared.published.PublishedFrame.{PublishedFrame as FrameData};
ghost use Rattle.pdc_watch.specs.declared.cell.TheConstants.{MAX_RATE};

use crate::agreement::Agreement;
use crate::cell::MAX_RATE;
use crate::heard::Heard;
use crate::now::Now;
use crate::pmu::{Moment, Pmu};
use crate::present::PresentBlock;
use crate::published::{Published, PublishedFrame};
use crate::station::Station;
use crate::who::{Three, Who};
use crate::within::Lateness;
use pdc_block::{ConfigView, Frame, Kind, read_body, read_config};
use std::alloc::{AllocError, Global};

/// The most PMUs that are shown, as many as a concentrator has.
const MOST_PMUS: usize = 16;

/// What is known of a pair, out of the frames of both nodes and the merger.
#[derive(Drop)]
pub struct Watch {
    /// Frames a second, 1 to 240.
    pub rate: u32,
    /// Since when it is known, in ms since 1970.
    pub begun_ms: u64,
    /// The streams.
    pub heard: Three<Heard>,
    /// The PMUs, at most 16, in the order in which they were told of.
    pub pmus: Vec<Pmu>,
    /// The newest instant of all data, in ms since 1970.
    pub newest_ms: u64,
    /// How often both nodes agreed.
    pub agreement: Agreement,
    /// What each node published to which the other one has published nothing yet.
    first: Published,
    second: Published,
    pub ghost rate_fits: { rate ≤ MAX_RATE },
}

/// The PMU of this source.
fn pmu_of(pmus: &mut [Pmu], source: u16) -> Option<&mut Pmu> {
    pmus.iter_mut().find(|pmu| pmu.source == source)
}

/// Whether there is one of this source.
fn has_pmu(pmus: &[Pmu], source: u16) -> bool {
    pmus.iter().any(|pmu| pmu.source == source)
}

/// Adds the PMUs that were not told of yet, as long as there is room.
fn add_pmus(alloc: Global, stations: &[Station], pmus: &mut Vec<Pmu>) -> Result<(), AllocError> {
    for station in stations.iter().skip(1) {
        if pmus.len() < MOST_PMUS && !has_pmu(pmus.as_slice(), station.source) {
            pmus.push(Pmu::new(alloc, station.source)?)?;
        }
    }
    Ok(())
}

/// Takes the blocks of a frame, the concentrator's own left out, and gives those that are present.
fn take_blocks(
    alloc: Global,
    who: Who,
    moment: Moment,
    stations: &[Station],
    payload: &[u8],
    pmus: &mut Vec<Pmu>,
) -> Result<Vec<PresentBlock>, AllocError> {
    let mut present = Vec::new(alloc);
    let mut at = 0usize;
    for station in stations {
        let end = at.saturating_add(2 * station.shape.word_count());
        let bytes = payload.get(at..end).unwrap_or(&[]);
        at = end;
        let Ok(block) = read_body(station.shape, bytes) else {
            continue;
        };
        let Some(pmu) = pmu_of(pmus.as_mut_slice(), station.source) else {
            continue;
        };
        if pmu.take(who, moment, &block)? {
            present.push(PresentBlock {
                source: station.source,
                count: station.count,
                words: Vec::from_slice(alloc, block.words())?,
            })?;
        }
    }
    Ok(present)
}

/// Compares a frame that a node published with the other one's frame of the same instant, where that has come; else keeps it.
fn compare_with(
    own: &mut Published,
    others: &mut Published,
    frame: PublishedFrame,
) -> Result<Option<bool>, AllocError>
    ensures equal { IfOk result (λ answer. IfSome answer (λ is_equal. (other : FrameData)
        × Contains others.old other × (other.instant ≡ frame.instant)
        × (IsTrue is_equal ↔ AllAgree frame.blocks.items other.blocks.items))) }
    ensures none { IfOk result (λ answer. IfNone answer (All (λ other. other.instant ≡
        frame.instant → ⊥) others.old)) }
{
    match others.take(frame.instant) {
        Some(other) => Ok(Some(frame.agrees(&other))),
        None => {
            own.keep(frame)?;
            Ok(None)
        }
    }
}

impl Watch {
    /// Nothing yet of a pair with this rate.
    ///
    /// # Errors
    ///
    /// [`AllocError`] where there is no memory for it.
    pub fn new(alloc: Global, rate: u32, now: Now) -> Result<Watch, AllocError>
        requires { rate ≤ MAX_RATE }
    {
        Ok(Watch {
            rate,
            begun_ms: now.utc_ms,
            heard: Three {
                a: Heard::new(alloc, now)?,
                b: Heard::new(alloc, now)?,
                m: Heard::new(alloc, now)?,
            },
            pmus: Vec::new(alloc),
            newest_ms: 0,
            agreement: Agreement {
                equal: 0,
                different: 0,
            },
            first: Published::new(alloc),
            second: Published::new(alloc),
        })
    }

    /// Takes whether there is a connection.
    pub fn connect(&mut self, who: Who, connected: bool) {
        self.heard.of_mut(who).connected = connected;
    }

    /// Takes what a concentrator counts itself of how late it published; nothing where its counters cannot be read.
    ///
    /// # Errors
    ///
    /// [`AllocError`] where there is no memory for it.
    pub fn meter(&mut self, who: Who, reading: Option<&Lateness>) -> Result<(), AllocError> {
        let metered = &mut self.heard.of_mut(who).metered;
        match reading {
            Some(reading) => metered.note(reading),
            None => {
                metered.forget();
                Ok(())
            }
        }
    }

    /// Takes a configuration.
    fn take_config(
        &mut self,
        alloc: Global,
        who: Who,
        config: &ConfigView,
    ) -> Result<(), AllocError> {
        let mut stations = Vec::new(alloc);
        for section in config.sections.as_slice() {
            stations.push(Station::of(alloc, section)?)?;
        }
        add_pmus(alloc, stations.as_slice(), &mut self.pmus)?;
        let heard = self.heard.of_mut(who);
        heard.stations = stations;
        heard.time_base = config.time_base;
        Ok(())
    }

    /// Takes a frame that a node published, and counts its instant where the other one has published it as well.
    fn compare(&mut self, who: Who, frame: PublishedFrame) -> Result<(), AllocError> {
        let answer = match who {
            Who::A => compare_with(&mut self.first, &mut self.second, frame)?,
            Who::B => compare_with(&mut self.second, &mut self.first, frame)?,
            Who::M => return Ok(()),
        };
        if let Some(is_equal) = answer {
            self.agreement = self.agreement.counted(is_equal);
        }
        Ok(())
    }

    /// Takes a data frame, and answers whether it fits the configuration that came.
    fn take_data(
        &mut self,
        alloc: Global,
        who: Who,
        frame: &Frame,
        now: Now,
    ) -> Result<bool, AllocError> {
        let rate = self.rate;
        let heard = self.heard.of_mut(who);
        heard.note(rate, now);
        let Some(moment) = heard.moment(frame, rate, now) else {
            heard.unread = heard.unread.saturating_add(1);
            return Ok(false);
        };
        self.newest_ms = self.newest_ms.max(moment.ms);
        let blocks = take_blocks(
            alloc,
            who,
            moment,
            self.heard.of(who).stations.as_slice(),
            frame.payload,
            &mut self.pmus,
        )?;
        self.compare(
            who,
            PublishedFrame {
                instant: moment.instant,
                blocks,
            },
        )?;
        Ok(true)
    }

    /// Takes a frame of a stream that came now, and answers whether it fits: data under another configuration than the one that came is
    /// counted, and passed over, as is a frame that is neither data nor CFG-2.
    ///
    /// # Errors
    ///
    /// [`AllocError`] where there is no memory for what it says.
    pub fn take(
        &mut self,
        alloc: Global,
        who: Who,
        frame: &Frame,
        now: Now,
    ) -> Result<bool, AllocError> {
        match frame.kind {
            Kind::DataFrame => self.take_data(alloc, who, frame, now),
            Kind::Cfg2 => {
                if let Ok(config) = read_config(frame) {
                    self.take_config(alloc, who, &config)?;
                }
                Ok(true)
            }
            _ => Ok(true),
        }
    }
}
