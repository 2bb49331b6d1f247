//! What a refusal says of a sender.
ghost use Rattle.std.specs.Prelude.{◌≡◌, None};
ghost use Rattle.pdc_complaints.specs.Complaint.{complaint_of, count_of, lower_in, lower_than};
ghost use Rattle.pdc_complaints.specs.Complaint.{of_configuration, of_first, only_count, stale};
ghost use Rattle.pdc_complaints.specs.Complaint.{unplaced_in};

use crate::expected::Expected;
use crate::said::{Said, SaidConfiguration, SaidSection};
use pdc_life::{CfgFault, Refusal};

/// What is wrong with a sender, with what came and what was expected.
#[derive(Clone, Copy, Debug, PartialEq, Eq)]
pub enum Complaint {
    /// The frames are of another stream.
    OtherStream { came: u16, expected: u16 },
    /// Its configuration has another TIME_BASE.
    OtherTimeBase { came: u32, expected: u32 },
    /// Its configuration has another DATA_RATE.
    OtherRate { came: i16, expected: u16 },
    /// Its configuration is of another source.
    OtherSource { came: u16, expected: u16 },
    /// Its configuration has values in floating point.
    FloatFormat,
    /// Its configuration has a lower count of this source than one that is held of the stream.
    LowerCount { source: u16, came: u16, held: u16 },
    /// Its configuration has a lower count than one before; which it has, where it is of one section.
    StaleCount { came: Option<u16> },
    /// Another configuration has the same count; which it is, where it is of one section.
    SameCount { count: Option<u16> },
    /// A node's layout is of another node.
    OtherNode { came: u16, expected: u16 },
    /// The first section of its layout has the node's id, and is not one that a node makes.
    NoOwnSection,
    /// Its layout has a source that is not in the settings, or not in their order.
    OtherPmu { came: u16 },
}

/// The count that these sections have of a source.
fn count_of(sections: &[SaidSection], source: u16) -> Option<u16>
    ensures { result ≡ count_of source sections.now }
{
    match sections.split_first() {
        Some((section, later)) => {
            if section.source == source {
                Some(section.count)
            } else {
                count_of(later, source)
            }
        }
        None => None,
    }
}

/// The complaint that a section has a lower count than this one.
fn lower_than(section: SaidSection, held: Option<u16>) -> Option<Complaint>
    ensures { result ≡ lower_than section held }
{
    match held {
        Some(held) => {
            if section.count < held {
                Some(Complaint::LowerCount {
                    source: section.source,
                    came: section.count,
                    held,
                })
            } else {
                None
            }
        }
        None => None,
    }
}

/// The first of these sections whose count is lower than that of its source among those that are held.
fn lower_in(sections: &[SaidSection], held: &[SaidSection]) -> Option<Complaint>
    ensures { result ≡ lower_in held.now sections.now }
{
    match sections.split_first() {
        Some((section, later)) => {
            match lower_than(*section, count_of(held, section.source)) {
                Some(complaint) => Some(complaint),
                None => lower_in(later, held),
            }
        }
        None => None,
    }
}

/// The first of these sections whose source is not among the sources in their order.
fn unplaced_in(sections: &[SaidSection], sources: &[u16]) -> Option<Complaint>
    ensures { result ≡ unplaced_in sources.now sections.now }
{
    let Some((section, later)) = sections.split_first() else {
        return None;
    };
    let Some((source, others)) = sources.split_first() else {
        return Some(Complaint::OtherPmu {
            came: section.source,
        });
    };
    if *source == section.source {
        unplaced_in(later, others)
    } else {
        unplaced_in(sections, others)
    }
}

/// The count of a configuration that has one section.
fn only_count(said: &SaidConfiguration) -> Option<u16>
    ensures { result ≡ only_count said.now }
{
    match said.others.as_slice().split_first() {
        Some(_) => None,
        None => Some(said.first.count),
    }
}

/// What is wrong with a count that is too low, beside the configuration that is held of the stream, where one is.
fn stale(said: &SaidConfiguration, held: &Option<SaidConfiguration>) -> Complaint
    ensures { result ≡ stale said.now held.now }
{
    let unknown = Complaint::StaleCount {
        came: only_count(said),
    };
    let Some(held) = held else {
        return unknown;
    };
    let first = if held.first.source == said.first.source {
        lower_than(said.first, Some(held.first.count))
    } else {
        None
    };
    match first {
        Some(complaint) => complaint,
        None => match lower_in(&said.others, &held.others) {
            Some(complaint) => complaint,
            None => unknown,
        },
    }
}

/// What is wrong with a layout whose first section is not the node's own.
fn of_first(came: u16, expected: u16) -> Complaint
    ensures { result ≡ of_first came expected }
{
    if came == expected {
        Complaint::NoOwnSection
    } else {
        Complaint::OtherNode { came, expected }
    }
}

/// What is wrong with a configuration that is refused by this cause.
fn of_configuration(
    cause: Refusal,
    said: &SaidConfiguration,
    expected: &Expected,
    held: &Option<SaidConfiguration>,
) -> Option<Complaint>
    ensures { result ≡ of_configuration cause said.now expected.now held.now }
{
    match cause {
        Refusal::WrongTimeBase => Some(Complaint::OtherTimeBase {
            came: said.time_base,
            expected: expected.time_base,
        }),
        Refusal::WrongRate => Some(Complaint::OtherRate {
            came: said.rate,
            expected: expected.rate,
        }),
        Refusal::WrongSource => Some(Complaint::OtherSource {
            came: said.first.source,
            expected: expected.source,
        }),
        Refusal::StaleCount => Some(stale(said, held)),
        Refusal::CountConflict => Some(Complaint::SameCount {
            count: only_count(said),
        }),
        Refusal::BadOwnBlock => Some(of_first(said.first.source, expected.source)),
        Refusal::UnknownSource => unplaced_in(&said.others, &expected.others),
        _ => None,
    }
}

/// What is wrong with the sender of a datagram that was refused by this cause, beside what the settings say, and the configuration that is held
/// of the stream, where one is; nothing where the cause comes and goes.
pub fn complaint_of(
    cause: Refusal,
    said: &Said,
    expected: &Expected,
    held: &Option<SaidConfiguration>,
) -> Option<Complaint>
    ensures { result ≡ complaint_of cause said.now expected.now held.now }
{
    match cause {
        Refusal::WrongId => match said.id {
            Some(came) => Some(Complaint::OtherStream {
                came,
                expected: expected.id,
            }),
            None => None,
        },
        Refusal::NoConfiguration(CfgFault::FloatFormat) => Some(Complaint::FloatFormat),
        _ => match &said.configuration {
            Some(configuration) => of_configuration(cause, configuration, expected, held),
            None => None,
        },
    }
}
