//! The common end of all answers to data, asked of the whole list. A life is kept newest first.
ghost use Rattle.std.specs.Prelude.{◌≡◌, ◌+◌, ℕ, IfOk, map, nat_lt, option_map};
ghost use Rattle.std.specs.List.{list_any};
ghost use Rattle.pdc_row.specs.CellView.{block_view, same_block};
ghost use Rattle.pdc_row.specs.CellView.{CellView};
ghost use Rattle.pdc_life.specs.Answer.{again_answer, answer_in_time, bare, is_other};
ghost use Rattle.pdc_life.specs.Answer.{outcome_in_time};
ghost use Rattle.pdc_life.specs.Life.{cell_of};
ghost use Rattle.pdc_plain_steps.specs.Views.{answer_view, cell_at, given_view, life_view};
ghost use Rattle.pdc_plain_steps.specs.Views.{part_view, take_view};

use crate::given::Given;
use crate::instants::is_near_held;
use crate::past::{last_of, now_of};
use crate::steps::{Answer, Answered, ColumnCell};
use crate::taking::{Take, cell_of, take_of};
use pdc_block::Block;
use pdc_life::{Outcome, Refusal};
use std::alloc::{AllocError, Global};

/// An outcome with no cells.
pub fn bare(alloc: Global, outcome: Outcome) -> Answer
    ensures { answer_view result ≡ bare outcome }
{
    Answer {
        outcome,
        cells: Vec::new(alloc),
    }
}

/// Whether the blocks have one shape and the same words.
fn is_same_block(first: &Block, second: &Block) -> bool
    ensures { result ≡ same_block (block_view first.now) (block_view second.now) }
{
    first.shape == second.shape && first.words() == second.words()
}

/// Whether the cell is there and has another block than the one that is given.
fn is_other(held: Option<&ColumnCell>, cell: &ColumnCell) -> bool
    ensures { result ≡ is_other (option_map (λ cell. cell_at cell.now) held.entry)
        (cell_at cell.now) }
{
    match held {
        Some(held) => !is_same_block(&held.block, &cell.block),
        None => false,
    }
}

/// Whether some of these cells has another block than the one that is there.
fn conflicts(life: &[Answered], stream: usize, instant: u64, cells: &[ColumnCell]) -> bool
    ensures { result ≡ list_any (λ (part : ℕ × CellView). is_other
        (cell_of (life_view life.now) stream part.0 instant) part.1) (map part_view cells.now) }
{
    for cell in cells {
        if is_other(cell_of(life, stream, cell.column, instant), cell) {
            return true;
        }
    }
    false
}

/// The first to be taken stays: other blocks conflict with it, and the rest is a duplicate.
fn again_answer(taken: Option<Take>, conflicts: bool) -> Outcome
    ensures { result ≡ again_answer (option_map take_view taken.entry) conflicts }
{
    if taken.is_none() {
        Outcome::Taken
    } else if conflicts {
        Outcome::Refused(Refusal::Conflict)
    } else {
        Outcome::Refused(Refusal::Duplicate)
    }
}

/// Whether the instant is more than `ahead` above now. It does not wrap.
fn is_ahead(now: u64, ahead: u64, instant: u64) -> bool
    ensures { result ≡ nat_lt (now + ahead) instant }
{
    now < instant && ahead < instant - now
}

/// The outcome of data with these cells: the first cause that holds.
fn outcome_in_time(
    alloc: Global,
    given: &Given,
    life: &[Answered],
    stream: usize,
    instant: u64,
    cells: &[ColumnCell],
) -> Result<Outcome, AllocError>
    ensures { IfOk result (λ outcome. outcome ≡
        outcome_in_time (given_view given.now) (life_view life.now) stream instant
        (map part_view cells.now)) }
{
    if instant <= last_of(given, life) {
        return Ok(Outcome::Refused(Refusal::Late));
    }
    if is_ahead(now_of(given, life), given.ahead, instant) {
        return Ok(Outcome::Refused(Refusal::Ahead));
    }
    if !is_near_held(alloc, given, life, instant)? {
        return Ok(Outcome::Refused(Refusal::OutOfWindow));
    }
    let taken = take_of(given, life, stream, instant);
    Ok(again_answer(taken, conflicts(life, stream, instant, cells)))
}

/// The answer to data with these cells.
///
/// # Errors
///
/// [`AllocError`] where there is no room and none is got.
pub fn answer_in_time(
    alloc: Global,
    given: &Given,
    life: &[Answered],
    stream: usize,
    instant: u64,
    cells: Vec<ColumnCell>,
) -> Result<Answer, AllocError>
    ensures { IfOk result (λ answer. answer_view answer ≡
        answer_in_time (given_view given.now) (life_view life.now) stream instant
        (map part_view cells.items)) }
{
    let outcome = outcome_in_time(alloc, given, life, stream, instant, &cells)?;
    match outcome {
        Outcome::Taken => Ok(Answer { outcome, cells }),
        _ => Ok(bare(alloc, outcome)),
    }
}
