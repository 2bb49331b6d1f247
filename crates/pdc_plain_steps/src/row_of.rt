//! The rows that instants close to, asked of the whole list. A life is kept newest first.
ghost use Rattle.std.specs.Prelude.{◌≡◌, ◌<◌, ◌≤◌, ◌+◌, ◌++◌, ℕ, List, IfOk, IfSome, length, map};
ghost use Rattle.std.specs.Prelude.{option_map};
ghost use Rattle.std.specs.List.{filter_map};
ghost use Rattle.std.specs.Option.{option_to_list};
ghost use Rattle.pdc_row.specs.CellView.{block_view};
ghost use Rattle.pdc_row.specs.Chosen.{present_of};
ghost use Rattle.pdc_row.specs.Quality.{quality_of, worst_of};
ghost use Rattle.pdc_row.specs.RowView.{row_view};
ghost use Rattle.pdc_life.specs.Given.{columns_of};
ghost use Rattle.pdc_life.specs.Life.{section_in_force};
ghost use Rattle.pdc_life.specs.Row.{block_in, chosen_of, first_cell, quality_in, row_of};
ghost use Rattle.pdc_life.specs.Row.{rows_of, second_cell};
ghost use Rattle.pdc_life.specs.Run.{IsTicked};
ghost use Rattle.pdc_plain_steps.specs.Views.{cell_at, given_view, life_view};

use crate::blocks::copy_of;
use crate::closing::closing;
use crate::given::Given;
use crate::past::{change_number, section_in_force};
use crate::steps::{Answered, ColumnCell};
use crate::taking::cell_of;
use arrayvec::ArrayVec;
use pdc_block::{Block, absent};
use pdc_life::MAX_PMUS;
use pdc_row::{DueRow, RowBlocks, is_present};
use std::alloc::{AllocError, Global};

/// The quality of a row in which no block is present.
const WORST_QUALITY: u8 = 15;

/// What the first lane of a column holds; with one lane each column has its own stream.
fn first_cell<'a>(
    given: &Given,
    life: &'a [Answered],
    column: usize,
    instant: u64,
) -> Option<&'a ColumnCell>
    ensures { option_map (λ cell. cell_at cell.now) result ≡
        first_cell (given_view given.now) (life_view life.now) column instant }
{
    let stream = if given.lanes == 1 { column } else { 0 };
    cell_of(life, stream, column, instant)
}

/// What the second lane of a column holds, where there are two.
fn second_cell<'a>(
    given: &Given,
    life: &'a [Answered],
    column: usize,
    instant: u64,
) -> Option<&'a ColumnCell>
    ensures { option_map (λ cell. cell_at cell.now) result ≡
        second_cell (given_view given.now) (life_view life.now) column instant }
{
    if given.lanes == 1 {
        None
    } else {
        cell_of(life, 1, column, instant)
    }
}

/// The cell, where its block is present.
fn present_of<'a>(cell: Option<&'a ColumnCell>) -> Option<&'a ColumnCell>
    ensures { option_map (λ cell. cell_at cell.now) result ≡
        present_of (option_map (λ cell. cell_at cell.now) cell.entry) }
{
    let cell = cell?;
    if is_present(&cell.block) {
        Some(cell)
    } else {
        None
    }
}

/// The cell of the lowest lane whose block is present.
fn chosen_of<'a>(
    given: &Given,
    life: &'a [Answered],
    column: usize,
    instant: u64,
) -> Option<&'a ColumnCell>
    ensures { option_map (λ cell. cell_at cell.now) result ≡
        chosen_of (given_view given.now) (life_view life.now) column instant }
{
    match present_of(first_cell(given, life, column, instant)) {
        Some(cell) => Some(cell),
        None => present_of(second_cell(given, life, column, instant)),
    }
}

/// The block of a column under the section in force: the chosen one, else the absent one; none without a section.
fn block_at(given: &Given, life: &[Answered], instant: u64, column: usize) -> Option<Block>
    ensures { option_map block_view result
        ≡ block_in (section_in_force (given_view given.now) (life_view life.now) column)
        (chosen_of (given_view given.now) (life_view life.now) column instant) }
{
    let section = section_in_force(given, life, column)?;
    match chosen_of(given, life, column, instant) {
        Some(cell) => Some(copy_of(&cell.block)),
        None => Some(absent(section.shape)),
    }
}

/// The time quality that a column gives: that of the chosen block.
fn quality_at(given: &Given, life: &[Answered], instant: u64, column: usize) -> Option<u8>
    ensures quality { result
        ≡ quality_in (section_in_force (given_view given.now) (life_view life.now) column)
        (chosen_of (given_view given.now) (life_view life.now) column instant) }
    ensures most { IfSome result (λ n. n ≤ 15) }
{
    section_in_force(given, life, column)?;
    let cell = chosen_of(given, life, column, instant)?;
    Some(cell.quality % 16)
}

/// The blocks of the row of an instant: one for each column with a section in force, in column order.
#[tactic(auto, using(crate::proofs::Ranges::filter_map_step))]
fn blocks_at(given: &Given, life: &[Answered], instant: u64) -> ArrayVec<Block, MAX_PMUS>
    ensures blocks { map block_view result.items
        ≡ filter_map (λ c. block_in (section_in_force (given_view given.now) (life_view life.now)
        c) (chosen_of (given_view given.now) (life_view life.now) c instant))
        (columns_of (given_view given.now)) }
    ensures few { length result.items ≤ MAX_PMUS }
{
    let mut blocks = ArrayVec::new();
    for column in 0..given.columns {
        push_some(block_at(given, life, instant, column), &mut blocks);
    }
    blocks
}

/// Appends the block, if there is one.
fn push_some(block: Option<Block>, blocks: &mut ArrayVec<Block, MAX_PMUS>)
    requires { length blocks.old.items < MAX_PMUS }
    ensures blocks { map block_view blocks.new.items ≡ map block_view blocks.old.items ++
        option_to_list (option_map block_view block) }
    ensures grown { length blocks.new.items ≤ length blocks.old.items + 1 }
{
    if let Some(block) = block {
        blocks.push(block);
    }
}

/// The time quality of the row of an instant: the worst that its chosen blocks give.
#[tactic(auto, using(crate::proofs::Ranges::filter_map_step))]
fn row_quality(given: &Given, life: &[Answered], instant: u64) -> u8
    ensures worst { result ≡ quality_of (filter_map
        (λ c. quality_in (section_in_force (given_view given.now) (life_view life.now) c)
        (chosen_of (given_view given.now) (life_view life.now) c instant))
        (columns_of (given_view given.now))) }
    ensures most { result ≤ 15 }
{
    let mut worst = None;
    for column in 0..given.columns {
        worst = worse(worst, quality_at(given, life, instant, column));
    }
    worst.unwrap_or(WORST_QUALITY)
}

/// The worse of two qualities, where there are two.
fn worse(worst: Option<u8>, quality: Option<u8>) -> Option<u8>
    requires worst { IfSome worst (λ n. n ≤ 15) }
    requires quality { IfSome quality (λ n. n ≤ 15) }
    ensures worse { (ns : List ℕ) →
        worst_of result ns ≡ worst_of worst (option_to_list quality ++ ns) }
    ensures most { IfSome result (λ n. n ≤ 15) }
{
    match (worst, quality) {
        (Some(worst), Some(quality)) => Some(worst.max(quality)),
        (None, quality) => quality,
        (worst, None) => worst,
    }
}

/// The row that the instant closes to at the next tick, under the sections in force and the stamp before it.
fn row_of(given: &Given, life: &[Answered], instant: u64) -> DueRow
    requires { IsTicked (given_view given.now) (life_view life.now) }
    ensures { row_view result ≡ row_of (given_view given.now) (life_view life.now) instant }
{
    DueRow {
        instant,
        start: given.start,
        change: change_number(given, life),
        quality: row_quality(given, life, instant),
        blocks: RowBlocks::from_blocks(blocks_at(given, life, instant).as_slice()),
    }
}

/// The rows that close at a tick with this now, in rising order.
///
/// # Errors
///
/// [`AllocError`] where there is no room and none is got.
pub fn rows_of(
    alloc: Global,
    given: &Given,
    life: &[Answered],
    now: u64,
) -> Result<Vec<DueRow>, AllocError>
    requires { IsTicked (given_view given.now) (life_view life.now) }
    ensures { IfOk result (λ rows. map row_view rows.items ≡
        rows_of (given_view given.now) (life_view life.now) now) }
{
    let closing = closing(alloc, given, life, now)?;
    rows_at(alloc, given, life, &closing)
}

/// The rows of these instants.
fn rows_at(
    alloc: Global,
    given: &Given,
    life: &[Answered],
    instants: &[u64],
) -> Result<Vec<DueRow>, AllocError>
    requires { IsTicked (given_view given.now) (life_view life.now) }
    ensures { IfOk result (λ rows. map row_view rows.items ≡
        map (row_of (given_view given.now) (life_view life.now)) instants.now) }
{
    let mut rows = Vec::new(alloc);
    for instant in instants {
        rows.push(row_of(given, life, *instant))?;
    }
    Ok(rows)
}
