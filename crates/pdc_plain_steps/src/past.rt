//! What the steps so far say, each question asked of the whole list. A life is kept newest first.
ghost use Rattle.std.specs.Prelude.{◌≡◌, ◌≤◌, ◌<◌, ◌+◌, ◌==◌, ◌++◌, ℕ, List, filter, length, map};
ghost use Rattle.std.specs.Prelude.{nat_le, option_map};
ghost use Rattle.std.specs.List.{list_any};
ghost use Rattle.pdc_cfg.specs.Section.{SectionFields, fields_of_view};
ghost use Rattle.pdc_row.specs.Quality.{greatest};
ghost use Rattle.pdc_row.specs.RowView.{row_instants, row_view};
ghost use Rattle.pdc_life.specs.Life.{changes, cleared_count, first_greatest, greater};
ghost use Rattle.pdc_life.specs.Life.{held_section, is_adoption, is_adoption_of, is_of_column};
ghost use Rattle.pdc_life.specs.Life.{last_of, now_of, section_in_force, sections_at};
ghost use Rattle.pdc_life.specs.Run.{IsTicked};
ghost use Rattle.pdc_arrival.specs.Views.{section_part};
ghost use Rattle.pdc_plain_steps.specs.Views.{entry_view, given_view, life_view};

use crate::given::Given;
use crate::steps::{Answer, Answered};
use pdc_arrival::{Arrival, ColumnSection, count_for};
use pdc_cfg::SectionView;
use pdc_life::Outcome;
use pdc_row::DueRow;

/// The now of the last tick, else the opening one.
pub fn now_of(given: &Given, life: &[Answered]) -> u64
    ensures { result ≡ now_of (given_view given.now) (life_view life.now) }
{
    match life.split_first() {
        Some((Answered::Tick { now, .. }, _)) => *now,
        Some((_, earlier)) => now_of(given, earlier),
        None => given.opening,
    }
}

/// The greatest instant closed, else the floor.
pub fn last_of(given: &Given, life: &[Answered]) -> u64
    ensures { result ≡ last_of (given_view given.now) (life_view life.now) }
{
    match life.split_first() {
        Some((Answered::Tick { answer, .. }, earlier)) => {
            greatest(&answer.rows, last_of(given, earlier))
        }
        Some((_, earlier)) => last_of(given, earlier),
        None => given.floor,
    }
}

/// The greatest instant of these rows and this one.
fn greatest(rows: &[DueRow], last: u64) -> u64
    ensures { result ≡ greatest last (row_instants (map row_view rows.now)) }
{
    let mut greatest = last;
    for row in rows {
        greatest = greatest.max(row.instant);
    }
    greatest
}

/// Cleared of a column: the greatest of its opening count and those that the ticks handed in.
pub fn cleared_count(given: &Given, life: &[Answered], column: usize) -> u16
    ensures { result ≡ cleared_count (given_view given.now) (life_view life.now) column }
{
    match life.split_first() {
        Some((Answered::Tick { counts, .. }, earlier)) => {
            cleared_count(given, earlier, column).max(count_for(column, counts))
        }
        Some((_, earlier)) => cleared_count(given, earlier, column),
        None => count_for(column, &given.counts),
    }
}

/// The section held of a column: of the greatest count that came and is not below the opening one, the first of that count.
pub fn held_section<'a>(
    given: &Given,
    life: &[Answered<'a>],
    column: usize,
) -> Option<SectionView<'a>>
    ensures { option_map fields_of_view result ≡
        held_section (given_view given.now) (life_view life.now) column }
{
    let (newest, earlier) = life.split_first()?;
    let held = held_section(given, earlier, column);
    let opening = count_for(column, &given.counts);
    greatest_section(accepted_sections(newest), column, opening, held)
}

/// The sections that a step brought in a layout that was accepted, each beside its column.
fn accepted_sections<'l, 'a>(step: &'l Answered<'a>) -> &'l [ColumnSection<'a>]
    ensures { (c : ℕ) → sections_at c (entry_view step.now) ≡ map
        (λ (part : ℕ × SectionFields). part.1) (filter (is_of_column c)
        (map section_part result.now)) }
{
    match step {
        Answered::Arrival {
            arrival: Arrival::Layout { sections, .. },
            answer: Answer {
                outcome: Outcome::Candidate,
                ..
            },
            ..
        } => sections.as_slice(),
        _ => &[],
    }
}

/// The section of the greatest count among these of the column, not below the opening count, and what was held before them.
fn greatest_section<'a>(
    sections: &[ColumnSection<'a>],
    column: usize,
    opening: u16,
    held: Option<SectionView<'a>>,
) -> Option<SectionView<'a>>
    ensures { (earlier : List SectionFields) →
        option_map fields_of_view held.entry ≡ first_greatest earlier →
        option_map fields_of_view result
        ≡ first_greatest (filter (λ (s : SectionFields). nat_le opening s.count) (map (λ (part : ℕ
        × SectionFields). part.1) (filter (is_of_column column) (map section_part sections.now))) ++
        earlier) }
{
    let Some((first, later)) = sections.split_first() else {
        return held;
    };
    let greatest = greatest_section(later, column, opening, held);
    if first.column == column && opening <= first.section.count {
        Some(greater(greatest, first.section))
    } else {
        greatest
    }
}

/// Of two sections the one of the greater count, and of one count the first.
fn greater<'a>(held: Option<SectionView<'a>>, section: SectionView<'a>) -> SectionView<'a>
    ensures { Some (fields_of_view result) ≡
        greater (option_map fields_of_view held.entry) (fields_of_view section.entry) }
{
    match held {
        Some(held) => {
            if held.count < section.count {
                section
            } else {
                held
            }
        }
        None => section,
    }
}

/// Whether the column is one of these.
fn has_column(columns: &[usize], column: usize) -> bool
    ensures { result ≡ list_any (λ d. d == column) columns.now }
{
    for other in columns {
        if *other == column {
            return true;
        }
    }
    false
}

/// Whether the step is a tick that adopted the column.
pub fn is_adoption_of(step: &Answered, column: usize) -> bool
    ensures { result ≡ is_adoption_of column (entry_view step.now) }
{
    match step {
        Answered::Tick { answer, .. } => has_column(&answer.adopted, column),
        _ => false,
    }
}

/// The section of a column that is in force: what was held before the last tick that adopted the column.
pub fn section_in_force<'a>(
    given: &Given,
    life: &[Answered<'a>],
    column: usize,
) -> Option<SectionView<'a>>
    ensures { option_map fields_of_view result ≡
        section_in_force (given_view given.now) (life_view life.now) column }
{
    let (newest, earlier) = life.split_first()?;
    if is_adoption_of(newest, column) {
        held_section(given, earlier, column)
    } else {
        section_in_force(given, earlier, column)
    }
}

/// Whether the step is a tick that adopted some column.
fn is_adoption(step: &Answered) -> bool
    ensures { result ≡ is_adoption (entry_view step.now) }
{
    match step {
        Answered::Tick { answer, .. } => !answer.adopted.is_empty(),
        _ => false,
    }
}

/// How many ticks adopted.
pub fn changes(life: &[Answered]) -> u64
    ensures count { result ≡ changes (life_view life.now) }
    ensures most { result ≤ length life.now }
{
    match life.split_first() {
        Some((newest, earlier)) => {
            if is_adoption(newest) {
                changes(earlier) + 1
            } else {
                changes(earlier)
            }
        }
        None => 0,
    }
}

/// The change number: how many ticks adopted. A life has no more of them than there are numbers.
pub fn change_number(given: &Given, life: &[Answered]) -> u32
    requires { IsTicked (given_view given.now) (life_view life.now) }
    ensures { result ≡ changes (life_view life.now) }
{
    changes(life) as u32
}
