//! All columns of an alignment, one call for each thing that is asked of them.
ghost use Rattle.std.specs.Prelude.{◌≡◌, ℕ, ◌+◌, ◌-◌, ◌<◌, ◌≤◌, ◌++◌, [], ◌∷◌, if◌then◌else◌};
ghost use Rattle.std.specs.Prelude.{IfOk, length, map, replicate, OnErr};
ghost use Rattle.pdc_table.specs.pdc_memory.Asking.{SomeWasRefused};
ghost use Rattle.std.specs.List.{All, list_any, range_with_len};
ghost use Rattle.pdc_arrival.specs.pdc_life.Answer.{greatest_count};
ghost use Rattle.pdc_arrival.specs.Views.{section_part};
ghost use Rattle.pdc_arrival.specs.declared.arrival.ColumnSection.{ColumnSection as ColumnSectionData};
ghost use Rattle.pdc_align.specs.State.{shape_in};
ghost use Rattle.pdc_align.specs.Align.{ColumnState};
ghost use Rattle.pdc_align.specs.Calls.{cleared_from, is_ready_in, new_column, ready_from};
ghost use Rattle.pdc_align.specs.Calls.{with_adoption, with_sections};

use crate::Column;
use arrayvec::ArrayVec;
use pdc_arrival::{ColumnSection, MAX_PMUS, Shape};
use pdc_table::Held;
use std::alloc::{AllocError, Global};

/// So many columns for which nothing came, each with its opening count.
pub fn new_columns(
    alloc: Global,
    count: usize,
    counts: &[u16; MAX_PMUS],
) -> Result<Held<Column>, AllocError>
    requires { count ≤ MAX_PMUS }
    ensures items { IfOk result (λ columns. columns.items ≡
        map (new_column counts.now) (range_with_len 0 count)) }
    ensures refused { OnErr result SomeWasRefused }
{
    let mut columns = Held::with_capacity(alloc, count)?;
    for place in 0..count {
        columns.push(Column::new(alloc, counts[place])?);
    }
    Ok(columns)
}

/// Holds each section in its column, where it is not below the opening count and above what is held.
pub fn hold(columns: &mut [Column], sections: &[ColumnSection<'_>])
    requires { All (λ (s : ColumnSectionData). s.column < length columns.old) sections.now }
    ensures { columns.new ≡ with_sections (map section_part sections.now) columns.old }
{
    for section in sections {
        columns[section.column].hold(&section.section);
    }
}

/// The shape in force of each column.
pub fn shapes(columns: &[Column]) -> ArrayVec<Option<Shape>, MAX_PMUS>
    requires { length columns.now ≤ MAX_PMUS }
    ensures { result.items ≡ map (λ (column : ColumnState). shape_in column.in_force) columns.now }
{
    let mut shapes = ArrayVec::new();
    for column in columns {
        shapes.push(column.shape());
    }
    shapes
}

/// The count of each column that waits to be stored, and 0 past the last column.
pub fn waiting(columns: &[Column]) -> [u16; MAX_PMUS]
    requires { length columns.now ≤ MAX_PMUS }
    ensures { result ≡ map (λ (column : ColumnState). greatest_count column.cleared column.held)
        columns.now ++ replicate (MAX_PMUS - length columns.now) 0 }
{
    let mut counts = [0; MAX_PMUS];
    for (place, column) in columns.iter().enumerate() {
        counts[place] = column.waiting();
    }
    counts
}

/// Clears the count of each column. Whether some column is ready then.
pub fn clear(columns: &mut [Column], counts: &[u16; MAX_PMUS]) -> bool
    requires { length columns.old ≤ MAX_PMUS }
    ensures columns { columns.new ≡ cleared_from 0 counts.now columns.old }
    ensures ready { result ≡ list_any is_ready_in columns.new }
{
    let count = columns.len();
    let mut any_ready = false;
    for place in 0..count {
        let column = &mut columns[place];
        column.clear(counts[place]);
        any_ready |= column.is_ready();
    }
    any_ready
}

/// The numbers of the columns that are ready, in rising order.
pub fn ready(columns: &[Column]) -> ArrayVec<usize, MAX_PMUS>
    requires { length columns.now ≤ MAX_PMUS }
    ensures ready { result.items ≡ ready_from 0 columns.now }
    ensures exist { All (λ (column : ℕ). column < length columns.now) result.items }
{
    let mut ready = ArrayVec::new();
    for (place, column) in columns.iter().enumerate() {
        push_ready(place, column.is_ready(), &mut ready);
    }
    ready
}

/// Appends the number, if its column is ready.
fn push_ready(place: usize, is_ready: bool, ready: &mut ArrayVec<usize, MAX_PMUS>)
    requires { length ready.old.items < MAX_PMUS }
    ensures ready { ready.new.items ≡ ready.old.items ++ (if is_ready then place ∷ [] else []) }
    ensures grown { length ready.new.items ≤ length ready.old.items + 1 }
{
    if is_ready {
        ready.push(place);
    }
}

/// Puts into force what is held of the columns that are ready.
pub fn adopt(columns: &mut [Column])
    ensures { columns.new ≡ map with_adoption columns.old }
{
    for column in columns.iter_mut() {
        column.adopt();
    }
}
