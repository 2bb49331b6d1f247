//! Sections, and what is held of them.
ghost use Rattle.std.specs.Prelude.{◌≡◌, option_map};
ghost use Rattle.pdc_life.specs.pdc_cfg.Section.{fields_of_view};
ghost use Rattle.pdc_life.specs.Given.{count_for};
ghost use Rattle.pdc_life.specs.Life.{is_candidate};
ghost use Rattle.pdc_life.specs.Merger.{differs_from};
ghost use Rattle.pdc_life.specs.Node.{section_after, section_answer};

use pdc_life::{MAX_PMUS, Outcome, Refusal, SectionView};

/// The count of a column; past the last of 16 it is 0.
pub fn count_for(column: usize, counts: &[u16; MAX_PMUS]) -> u16
    ensures { result ≡ count_for column counts.now }
{
    if column < MAX_PMUS { counts[column] } else { 0 }
}

/// A section below the opening count is stale, also where nothing is held.
pub fn section_answer(opening: u16, held: Option<SectionView>, section: &SectionView) -> Outcome
    ensures { result ≡ section_answer opening (option_map fields_of_view held.entry)
        (fields_of_view section.now) }
{
    if section.count < opening {
        Outcome::Refused(Refusal::StaleCount)
    } else {
        section_after(held, section)
    }
}

/// A section is stale below the held count, new above it, and at the same count known where it has the same bytes.
fn section_after(held: Option<SectionView>, section: &SectionView) -> Outcome
    ensures { result ≡ section_after (option_map fields_of_view held.entry)
        (fields_of_view section.now) }
{
    let Some(held) = held else {
        return Outcome::Candidate;
    };
    if section.count < held.count {
        Outcome::Refused(Refusal::StaleCount)
    } else if held.count < section.count {
        Outcome::Candidate
    } else if held.bytes == section.bytes {
        Outcome::Known
    } else {
        Outcome::Refused(Refusal::CountConflict)
    }
}

/// Whether the section has this count and other bytes.
pub fn differs(other: Option<SectionView>, section: &SectionView) -> bool
    ensures { result ≡ differs_from (option_map fields_of_view other.entry)
        (fields_of_view section.now) }
{
    match other {
        Some(other) => other.count == section.count && other.bytes != section.bytes,
        None => false,
    }
}

/// Whether the outcome is that of a new configuration.
pub fn is_candidate(outcome: Outcome) -> bool
    ensures { result ≡ is_candidate outcome }
{
    match outcome {
        Outcome::Candidate => true,
        _ => false,
    }
}
