//! Whose record it is.
ghost use Rattle.std.specs.Prelude.{◌<◌, ◌≤◌};
ghost use Rattle.pdc_story.specs.declared.moments.TheConstants.{MAX_RATE};

use crate::moments::MAX_RATE;
use pdc_align::Arrival;
use pdc_core::Reads;
use pdc_life::{MergerSettings, Settings, WaitKind};
use pdc_record::{Begun, Role};
use pdc_settings::SettingsFault;
use std::alloc::{AllocError, AllocFailed, Global};
use std::str;
use thiserror::Error;

/// The streams of the merger.
const NODES: usize = 2;

/// Why a record cannot be explained.
#[derive(Clone, Copy, Debug, PartialEq, Eq, Error)]
pub enum Unexplained {
    /// The text of its settings is none.
    #[error("{0}")]
    Settings(SettingsFault),
    /// It does not begin with how the life began.
    #[error("the record does not say how the life began")]
    NoBeginning,
    /// No memory was left.
    #[error("out of memory")]
    Memory,
}

impl From<AllocError> for Unexplained {
    fn from(_error: AllocError) -> Unexplained {
        Unexplained::Memory
    }
}

impl<T: Drop> From<AllocFailed<T>> for Unexplained {
    fn from(_error: AllocFailed<T>) -> Unexplained {
        Unexplained::Memory
    }
}

/// By which settings a life was lived.
#[derive(Drop)]
enum Lived {
    Node(Settings),
    Merger(MergerSettings),
}

/// Whose record it is: the settings of its life, and the number of its start.
#[derive(Drop)]
pub struct About {
    lived: Lived,
    /// The number of the start.
    pub start: u32,
    /// The number of the first step of the record; 0 where it has the whole life.
    pub first: u64,
    /// The instant up to which all was published or given up before that step.
    pub floor: u64,
}

/// The settings of a life that begins so.
fn lived_of(alloc: Global, begun: &Begun<'_>) -> Result<Lived, SettingsFault> {
    let Ok(text) = str::from_utf8(begun.settings) else {
        return Err(SettingsFault::Toml);
    };
    match begun.role {
        Role::Node => Ok(Lived::Node(pdc_settings::NodeSettings::from_toml(alloc, text)?.life)),
        Role::Merger => Ok(Lived::Merger(
            pdc_settings::MergerSettings::from_toml(alloc, text)?.life,
        )),
    }
}

impl About {
    /// Of a life that begins so, recorded from the step of this number on.
    ///
    /// # Errors
    ///
    /// The text of the settings is none, or there is no memory to read it.
    pub fn of(alloc: Global, begun: &Begun<'_>, first: u64) -> Result<About, Unexplained> {
        match lived_of(alloc, begun) {
            Ok(lived) => Ok(About {
                lived,
                start: begun.start,
                first,
                floor: begun.floor,
            }),
            Err(fault) => Err(Unexplained::Settings(fault)),
        }
    }

    /// Whether it is the merger's.
    pub fn is_merger(&self) -> bool {
        matches!(self.lived, Lived::Merger(_))
    }

    /// The id of its frames.
    pub fn id(&self) -> u16 {
        match &self.lived {
            Lived::Node(settings) => settings.output.id.value,
            Lived::Merger(settings) => settings.output.id.value,
        }
    }

    /// Its frames a second, 1 to 240.
    pub fn rate(&self) -> u64
        ensures low { 0 < result }
        ensures high { result ≤ MAX_RATE }
    {
        let rate = match &self.lived {
            Lived::Node(settings) => settings.output.rate,
            Lived::Merger(settings) => settings.output.rate,
        };
        u64::from(rate).clamp(1, MAX_RATE)
    }

    /// How long an open instant waits.
    pub fn wait(&self) -> u64 {
        match &self.lived {
            Lived::Node(settings) => settings.timing.wait,
            Lived::Merger(settings) => settings.timing.wait,
        }
    }

    /// How far above the last tick's now an instant may lie.
    pub fn ahead(&self) -> u64 {
        match &self.lived {
            Lived::Node(settings) => settings.timing.ahead,
            Lived::Merger(settings) => settings.timing.ahead,
        }
    }

    /// Whether the wait is counted in ticks after the first data, not in instants up to now.
    pub fn is_relative(&self) -> bool {
        let kind = match &self.lived {
            Lived::Node(settings) => settings.timing.wait_kind,
            Lived::Merger(settings) => settings.timing.wait_kind,
        };
        kind == WaitKind::Relative
    }

    /// How many columns a row has at most.
    pub fn columns(&self) -> usize {
        match &self.lived {
            Lived::Node(settings) => settings.pmus.len(),
            Lived::Merger(settings) => settings.sources.len(),
        }
    }

    /// The id by which a column is told: of the PMU's stream at a node, of its source at the merger.
    pub fn column_id(&self, column: usize) -> u16 {
        match &self.lived {
            Lived::Node(_) => self.stream_id(column),
            Lived::Merger(settings) => {
                settings
                    .sources
                    .as_slice()
                    .get(column)
                    .copied()
                    .unwrap_or(0)
            }
        }
    }

    /// The column whose section names this source.
    pub fn column_of(&self, source: u16) -> Option<usize> {
        (0..self.columns()).find(|column| self.source(*column) == source)
    }

    /// The source that the section of a column names.
    fn source(&self, column: usize) -> u16 {
        match &self.lived {
            Lived::Node(settings) => match settings.pmus.as_slice().get(column) {
                Some(pmu) => pmu.source,
                None => 0,
            },
            Lived::Merger(_) => self.column_id(column),
        }
    }

    /// How many streams arrive.
    pub fn streams(&self) -> usize {
        match &self.lived {
            Lived::Node(settings) => settings.pmus.len(),
            Lived::Merger(_) => NODES,
        }
    }

    /// The id of a stream.
    pub fn stream_id(&self, stream: usize) -> u16 {
        match &self.lived {
            Lived::Node(settings) => match settings.pmus.as_slice().get(stream) {
                Some(pmu) => pmu.stream.value,
                None => 0,
            },
            Lived::Merger(settings) if stream == 0 => settings.first.id.value,
            Lived::Merger(settings) => settings.second.id.value,
        }
    }

    /// What the bytes say that came for a stream; none where there is no such stream.
    pub fn read<'a>(&self, stream: usize, bytes: &'a [u8]) -> Option<Arrival<'a>> {
        match &self.lived {
            Lived::Node(settings) if stream < settings.pmus.len() => {
                Some(settings.read(stream, bytes))
            }
            Lived::Merger(settings) if stream < NODES => Some(settings.read(stream, bytes)),
            _ => None,
        }
    }
}
