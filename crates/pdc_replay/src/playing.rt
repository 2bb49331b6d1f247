//! A record on the plain program.

use crate::comparing::first_difference;
use pdc_life::{MergerSettings, Settings};
use pdc_plain::{Life, Opening, live_merger, live_node};
use pdc_plain_steps::{LifeStep, are_for_streams};
use pdc_record::{Begun, Entry, Role, What};
use pdc_settings::SettingsFault;
use std::alloc::{AllocError, AllocFailed, Global};
use std::str;
use thiserror::Error;

/// The streams of the merger.
const NODES: usize = 2;

/// The most steps of a record that is played so.
pub const MOST_STEPS: usize = 4000;

/// Why a record is not played on the plain program.
#[derive(Clone, Copy, Debug, PartialEq, Eq, Error)]
pub enum NotPlayed {
    /// It does not begin with the beginning of a life, or it goes on with another one, or steps are not in it.
    #[error("it is not one whole life")]
    NotOneLife,
    /// A datagram of it was not kept whole.
    #[error("a datagram of it, which is no frame, was not kept whole")]
    NotKept,
    /// It has more steps than [`MOST_STEPS`].
    #[error("it has more than {MOST_STEPS} steps")]
    TooLong,
    /// The text of its settings is none.
    #[error("{0}")]
    Settings(SettingsFault),
    /// A datagram is for a stream that the life does not have.
    #[error("a datagram is for a stream that the life does not have")]
    NoStream,
    /// No memory was left.
    #[error("out of memory")]
    Memory,
}

impl From<AllocError> for NotPlayed {
    fn from(_error: AllocError) -> NotPlayed {
        NotPlayed::Memory
    }
}

impl<T: Drop> From<AllocFailed<T>> for NotPlayed {
    fn from(_error: AllocFailed<T>) -> NotPlayed {
        NotPlayed::Memory
    }
}

impl From<SettingsFault> for NotPlayed {
    fn from(fault: SettingsFault) -> NotPlayed {
        NotPlayed::Settings(fault)
    }
}

/// The step that an entry is.
fn step_of<'a>(what: &What<'a>) -> Option<LifeStep<'a>> {
    match what {
        What::Arrived {
            stream,
            datagram,
            ..
        } => Some(LifeStep::Arrive {
            stream: usize::from(*stream),
            bytes: datagram,
        }),
        What::Ticked { now, counts, .. } => Some(LifeStep::Tick {
            now: *now,
            counts: *counts,
        }),
        What::FoundNone | What::Popped { .. } => Some(LifeStep::Pop),
        _ => None,
    }
}

/// What a node's record begins with lives.
fn live_as_node<'a>(
    alloc: Global,
    settings: &Settings,
    opening: &Opening,
    steps: &[LifeStep<'a>],
) -> Result<Life<'a>, NotPlayed> {
    if !are_for_streams(settings.pmus.len(), steps) {
        return Err(NotPlayed::NoStream);
    }
    Ok(live_node(alloc, settings, opening, steps)?)
}

/// What the merger's record begins with lives.
fn live_as_merger<'a>(
    alloc: Global,
    settings: &MergerSettings,
    opening: &Opening,
    steps: &[LifeStep<'a>],
) -> Result<Life<'a>, NotPlayed> {
    if !are_for_streams(NODES, steps) {
        return Err(NotPlayed::NoStream);
    }
    Ok(live_merger(alloc, settings, opening, steps)?)
}

/// The life of these steps that begins so.
fn live<'a>(
    alloc: Global,
    begun: &Begun<'_>,
    steps: &[LifeStep<'a>],
) -> Result<Life<'a>, NotPlayed> {
    let Ok(text) = str::from_utf8(begun.settings) else {
        return Err(NotPlayed::Settings(SettingsFault::Toml));
    };
    let opening = Opening {
        start: begun.start,
        floor: begun.floor,
        counts: begun.counts,
        first_now: begun.now,
    };
    match begun.role {
        Role::Node => {
            let settings = pdc_settings::NodeSettings::from_toml(alloc, text)?.life;
            live_as_node(alloc, &settings, &opening, steps)
        }
        Role::Merger => {
            let settings = pdc_settings::MergerSettings::from_toml(alloc, text)?.life;
            live_as_merger(alloc, &settings, &opening, steps)
        }
    }
}

/// What a record begins with, where it is one whole life.
fn beginning<'e, 'a>(entries: &'e [Entry<'a>]) -> Option<&'e Begun<'a>> {
    let first = entries.first()?;
    let mut next: u64 = 0;
    for entry in entries {
        match &entry.what {
            What::Begun(_) if entry.step != next => return None,
            What::Missing { .. } => return None,
            what if step_of(what).is_some() => {
                if entry.step != next {
                    return None;
                }
                next = next.saturating_add(1);
            }
            _ => {}
        }
    }
    match &first.what {
        What::Begun(begun) => Some(begun),
        _ => None,
    }
}

/// Plays the entries of the record of one life, and gives the number of the first step that was not as recorded, or the number of steps.
///
/// # Errors
///
/// Why it is not played.
pub fn play_plain(alloc: Global, entries: &[Entry<'_>]) -> Result<Result<u64, u64>, NotPlayed> {
    if entries
        .iter()
        .any(|entry| matches!(entry.what, What::NoFrame { .. }))
    {
        return Err(NotPlayed::NotKept);
    }
    let Some(begun) = beginning(entries) else {
        return Err(NotPlayed::NotOneLife);
    };
    let mut steps = Vec::new(alloc);
    for entry in entries {
        if let Some(step) = step_of(&entry.what) {
            if steps.len() == MOST_STEPS {
                return Err(NotPlayed::TooLong);
            }
            steps.push(step)?;
        }
    }
    let life = live(alloc, begun, &steps)?;
    let frames = life.published(alloc)?;
    match first_difference(entries, &life.entries, &frames) {
        Some(step) => Ok(Err(step)),
        None => Ok(Ok(steps.len() as u64)),
    }
}
