//! What ticks and pops are answered, asked of the whole list. A life is kept newest first.
ghost use Rattle.std.specs.Prelude.{◌≡◌, ◌++◌, [], ◌∷◌, IfOk, OnOk, if◌then◌else◌, max, option_map};
ghost use Rattle.pdc_cfg.specs.Section.{fields_of_view};
ghost use Rattle.pdc_life.specs.Answer.{greatest_count, has_change, is_newer, is_ready};
ghost use Rattle.pdc_life.specs.Answer.{pop_answer, ready_columns, tick_answer, waiting_counts};
ghost use Rattle.pdc_life.specs.Given.{count_for};
ghost use Rattle.pdc_life.specs.Life.{Pop, Tick, cleared_count, held_section, section_in_force};
ghost use Rattle.pdc_life.specs.Run.{IsTicked};
ghost use Rattle.pdc_plain_steps.specs.Views.{entry_view, given_view, life_view, tick_view};

use crate::given::Given;
use crate::instants::waiting;
use crate::past::{changes, cleared_count, held_section, section_in_force};
use crate::row_of::rows_of;
use crate::steps::{Answered, TickAnswer};
use pdc_arrival::count_for;
use pdc_cfg::SectionView;
use pdc_life::MAX_PMUS;
use std::alloc::{AllocError, Global};

/// Whether the count is greater than the one in force, or the first.
fn is_newer(held: &SectionView, in_force: Option<SectionView>) -> bool
    ensures { result ≡ is_newer (fields_of_view held.now)
        (option_map fields_of_view in_force.entry) }
{
    match in_force {
        Some(in_force) => in_force.count < held.count,
        None => true,
    }
}

/// Whether what is held is newer than what is in force, and cleared.
fn is_ready(held: Option<SectionView>, in_force: Option<SectionView>, cleared: u16) -> bool
    ensures { result ≡ is_ready (option_map fields_of_view held.entry)
        (option_map fields_of_view in_force.entry) cleared }
{
    match held {
        Some(held) => is_newer(&held, in_force) && held.count <= cleared,
        None => false,
    }
}

/// Whether a tick with these counts adopts the column, where a change number is left.
fn is_ready_column(
    given: &Given,
    life: &[Answered],
    counts: &[u16; MAX_PMUS],
    column: usize,
) -> bool
    ensures { result ≡ is_ready (held_section (given_view given.now) (life_view life.now) column)
        (section_in_force (given_view given.now) (life_view life.now) column)
        (max (cleared_count (given_view given.now) (life_view life.now) column)
        (count_for column counts.now)) }
{
    let cleared = cleared_count(given, life, column).max(count_for(column, counts));
    let held = held_section(given, life, column);
    let in_force = section_in_force(given, life, column);
    is_ready(held, in_force, cleared)
}

/// Appends the column, if it is ready.
fn push_ready(column: usize, ready: bool, columns: &mut Vec<usize>) -> Result<(), AllocError>
    ensures { OnOk result (columns.new.items ≡ columns.old.items ++
        (if ready then column ∷ [] else [])) }
{
    if ready {
        columns.push(column)?;
    }
    Ok(())
}

/// The columns that a tick with these counts adopts, in rising order, where a change number is left.
fn ready_columns(
    alloc: Global,
    given: &Given,
    life: &[Answered],
    counts: &[u16; MAX_PMUS],
) -> Result<Vec<usize>, AllocError>
    ensures { IfOk result (λ columns. columns.items ≡
        ready_columns (given_view given.now) (life_view life.now) counts.now) }
{
    let mut columns = Vec::new(alloc);
    for column in 0..given.columns {
        let ready = is_ready_column(given, life, counts, column);
        push_ready(column, ready, &mut columns)?;
    }
    Ok(columns)
}

/// Whether a change number is left.
fn has_change(life: &[Answered]) -> bool
    ensures { result ≡ has_change (life_view life.now) }
{
    changes(life) < u64::from(u32::MAX)
}

/// What a tick does with this now and these counts.
fn tick_answer(
    alloc: Global,
    given: &Given,
    life: &[Answered],
    now: u64,
    counts: &[u16; MAX_PMUS],
) -> Result<TickAnswer, AllocError>
    requires { IsTicked (given_view given.now) (life_view life.now) }
    ensures { IfOk result (λ answer. tick_view answer ≡
        tick_answer (given_view given.now) (life_view life.now) now counts.now) }
{
    let rows = rows_of(alloc, given, life, now)?;
    let ready = ready_columns(alloc, given, life, counts)?;
    if has_change(life) {
        Ok(TickAnswer {
            rows,
            adopted: ready,
            used_up: false,
        })
    } else {
        Ok(TickAnswer {
            rows,
            adopted: Vec::new(alloc),
            used_up: !ready.is_empty(),
        })
    }
}

/// A tick with what it does.
///
/// # Errors
///
/// [`AllocError`] where there is no room and none is got.
pub fn tick<'a>(
    alloc: Global,
    given: &Given,
    life: &[Answered<'a>],
    now: u64,
    counts: &[u16; MAX_PMUS],
) -> Result<Answered<'a>, AllocError>
    requires { IsTicked (given_view given.now) (life_view life.now) }
    ensures { IfOk result (λ answered. entry_view answered ≡
        Tick now counts.now (tick_answer (given_view given.now) (life_view life.now) now
        counts.now)) }
{
    Ok(Answered::Tick {
        now,
        counts: *counts,
        answer: tick_answer(alloc, given, life, now, counts)?,
    })
}

/// A pop with the row that it gives: the first that waits.
///
/// # Errors
///
/// [`AllocError`] where there is no room and none is got.
pub fn pop<'a>(alloc: Global, life: &[Answered<'a>]) -> Result<Answered<'a>, AllocError>
    ensures { IfOk result (λ answered. entry_view answered ≡
        Pop (pop_answer (life_view life.now))) }
{
    let mut rows = waiting(alloc, life)?;
    if rows.is_empty() {
        Ok(Answered::Pop { row: None })
    } else {
        Ok(Answered::Pop {
            row: Some(rows.remove(0)),
        })
    }
}

/// The greater of a cleared count and that of the section held.
fn greatest_count(cleared: u16, held: Option<SectionView>) -> u16
    ensures { result ≡ greatest_count cleared (option_map fields_of_view held.entry) }
{
    match held {
        Some(held) => cleared.max(held.count),
        None => cleared,
    }
}

/// For each column the greater of its cleared count and its held one; 0 past the last column.
pub fn waiting_counts(given: &Given, life: &[Answered]) -> [u16; MAX_PMUS]
    ensures { result ≡ waiting_counts (given_view given.now) (life_view life.now) }
{
    let mut counts = [0; MAX_PMUS];
    for column in 0..given.columns {
        let cleared = cleared_count(given, life, column);
        counts[column] = greatest_count(cleared, held_section(given, life, column));
    }
    counts
}
