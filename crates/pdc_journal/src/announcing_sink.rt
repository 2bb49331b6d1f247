//! A sink that tells of layouts.
ghost use Rattle.std.specs.Prelude.{◌≡◌, List, ℕ};

use crate::journal::Journal;
use crate::left_out::LeftOut;
use crate::measured::Measured;
use pdc_cfg::{ConfigView, read_config};
use pdc_frame::{Kind, read_frame};
use pdc_ports::{Sink, SinkFault};
use std::alloc::{AllocError, Global};
use std::rt::Clock;
use std::sync::Wait;

/// Where the four words of the stamp stand, in bytes from the end of the own section: each is the first half of a DIGUNIT, and FNOM and
/// CFGCNT stand behind the four.
const STAMP_FROM_END: usize = 20;

/// Who is told what is sent: who compares blocks with the layout in force, and who measures the run.
#[derive(Clone, Copy)]
pub struct Followers<'a> {
    pub left_out: Option<&'a LeftOut>,
    pub measured: Option<&'a Measured>,
}

/// Hands each frame to the inner sink, and tells of each layout frame whose change number is another than the last one's: the start and the
/// change, and the sources of its sections with their counts. Its followers are told of layouts and of data frames.
#[derive(Drop)]
pub struct AnnouncingSink<'a, K: Sink + Drop, R: Wait + Clock> {
    rt: &'a R,
    alloc: Global,
    journal: &'a Journal,
    followers: Followers<'a>,
    pub inner: K,
    /// The change that was told last.
    told: Option<u32>,
}

impl<'a, K: Sink + Drop, R: Wait + Clock> AnnouncingSink<'a, K, R> {
    /// Sends by `inner`; no layout was told yet.
    pub fn new(
        rt: &'a R,
        alloc: Global,
        journal: &'a Journal,
        followers: Followers<'a>,
        inner: K,
    ) -> AnnouncingSink<'a, K, R>
        ensures { result.inner ≡ inner }
    {
        AnnouncingSink {
            rt,
            alloc,
            journal,
            followers,
            inner,
            told: None,
        }
    }
}

/// The long word here, where there is one, of words that stand four bytes apart.
fn long_word(bytes: &[u8], at: usize) -> Option<u32> {
    let high = bytes.get(at..)?.first_chunk::<2>()?;
    let low = bytes.get(at.checked_add(4)?..)?.first_chunk::<2>()?;
    Some(u32::from(u16::from_be_bytes(*high)) << 16 | u32::from(u16::from_be_bytes(*low)))
}

/// The start and the change that an own section bears.
fn stamp_of(own: &[u8]) -> Option<(u32, u32)> {
    let at = own.len().checked_sub(STAMP_FROM_END)?;
    Some((long_word(own, at)?, long_word(own, at.checked_add(8)?)?))
}

/// What is told of a layout.
fn layout_text(
    alloc: Global,
    start: u32,
    change: u32,
    config: &ConfigView,
) -> Result<String, AllocError> {
    let mut text = format!(in alloc; "layout adopted: start={start} change={change}")?;
    for section in config.sections.iter().skip(1) {
        let (source, count) = (section.source, section.count);
        let more = format!(in alloc; ", PMU {source} count={count}")?;
        text.push_str(more.as_str())?;
    }
    Ok(text)
}

/// Tells of the layout in this frame, if it is one whose change was not told last, and the followers of the frame.
fn announce<R: Wait + Clock>(
    rt: &R,
    alloc: Global,
    journal: &Journal,
    followers: Followers<'_>,
    told: &mut Option<u32>,
    bytes: &[u8],
) {
    let Ok(frame) = read_frame(bytes) else {
        return;
    };
    if let (Kind::DataFrame, Some(measured)) = (frame.kind, followers.measured) {
        measured.publish(rt, &frame);
    }
    if let Some(left_out) = followers.left_out {
        left_out.missing.see(rt, alloc, journal, &frame);
    }
    if frame.kind != Kind::Cfg2 {
        return;
    }
    let Ok(config) = read_config(&frame) else {
        return;
    };
    if let Some(left_out) = followers.left_out {
        left_out.adopt(rt, &config);
    }
    let Some(own) = config.sections.first() else {
        return;
    };
    let Some((start, change)) = stamp_of(own.bytes) else {
        return;
    };
    if let Some(measured) = followers.measured {
        measured.adopt(rt, &config, start, change);
    }
    if *told != Some(change) {
        *told = Some(change);
        journal.note(rt, layout_text(alloc, start, change, &config));
    }
}

/// It takes what the inner sink takes.
impl<'a, K: Sink + Drop, R: Wait + Clock> Sink for AnnouncingSink<'a, K, R> {
    ghost took = { λ before now given. K.took before.inner now.inner given };

    ghost nothing = { λ s. K.nothing s.inner };

    ghost failures_of = { λ s. K.failures_of s.inner };

    fn send(&mut self, bytes: &[u8]) -> Result<(), SinkFault> {
        let sent = self.inner.send(bytes);
        announce(
            self.rt,
            self.alloc,
            self.journal,
            self.followers,
            &mut self.told,
            bytes,
        );
        sent
    }

    fn failures(&self) -> u64 {
        self.inner.failures()
    }
}
