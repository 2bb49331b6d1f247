//! Which instants are open and which are held, asked of the whole list. A life is kept newest first.
ghost use Rattle.std.specs.Prelude.{◌≡◌, ◌++◌, ◌∷◌, OnOk, IfOk, filter, length, map, nat_lt};
ghost use Rattle.std.specs.List.{list_all};
ghost use Rattle.pdc_row.specs.Rising.{is_near, place, rising};
ghost use Rattle.pdc_row.specs.RowView.{row_instants, row_view};
ghost use Rattle.pdc_life.specs.Life.{Take, held_instants, open_instants, takes, waiting};
ghost use Rattle.pdc_plain_steps.specs.Views.{given_view, life_view};

use crate::given::Given;
use crate::past::last_of;
use crate::steps::Answered;
use crate::taking::taken_at;
use pdc_row::DueRow;
use std::alloc::{AllocError, Global};

/// The open instants, in rising order: those taken that are above the last one closed.
///
/// # Errors
///
/// [`AllocError`] where there is no room and none is got.
pub fn open_instants(
    alloc: Global,
    given: &Given,
    life: &[Answered],
) -> Result<Vec<u64>, AllocError>
    ensures { IfOk result (λ instants. instants.items ≡
        open_instants (given_view given.now) (life_view life.now)) }
{
    taken_above(alloc, life, last_of(given, life))
}

/// The instants above this one for which something was taken, in rising order.
fn taken_above(alloc: Global, life: &[Answered], low: u64) -> Result<Vec<u64>, AllocError>
    ensures { IfOk result (λ instants. instants.items ≡
        rising (filter (λ i. nat_lt low i) (map (λ (take : Take). take.instant)
        (takes (life_view life.now))))) }
{
    let Some((newest, earlier)) = life.split_first() else {
        return Ok(Vec::new(alloc));
    };
    let mut instants = taken_above(alloc, earlier, low)?;
    if let Some(take) = taken_at(newest) {
        if low < take.instant {
            place(&mut instants, take.instant)?;
        }
    }
    Ok(instants)
}

/// Puts the number into its place among rising ones, unless it is there.
fn place(numbers: &mut Vec<u64>, number: u64) -> Result<(), AllocError>
    ensures { OnOk result (numbers.new.items ≡ place number numbers.old.items) }
{
    for at in 0..numbers.len() {
        if number < numbers[at] {
            numbers.insert(at, number)?;
            return Ok(());
        }
        if numbers[at] == number {
            return Ok(());
        }
    }
    numbers.push(number)?;
    Ok(())
}

/// The rows that closed and were not taken out, the first to close first.
///
/// # Errors
///
/// [`AllocError`] where there is no room and none is got.
pub fn waiting(alloc: Global, life: &[Answered]) -> Result<Vec<DueRow>, AllocError>
    ensures { IfOk result (λ rows. map row_view rows.items ≡ waiting (life_view life.now)) }
{
    let Some((newest, earlier)) = life.split_first() else {
        return Ok(Vec::new(alloc));
    };
    let mut rows = waiting(alloc, earlier)?;
    match newest {
        Answered::Tick { answer, .. } => append(&answer.rows, &mut rows)?,
        Answered::Pop { .. } => {
            if !rows.is_empty() {
                rows.remove(0);
            }
        }
        Answered::Arrival { .. } => {}
    }
    Ok(rows)
}

/// Appends copies of the rows.
///
/// # Errors
///
/// [`AllocError`] where there is no room and none is got.
pub fn append(more: &[DueRow], rows: &mut Vec<DueRow>) -> Result<(), AllocError>
    ensures { OnOk result (map row_view rows.new.items ≡ map row_view rows.old.items ++
        map row_view more.now) }
{
    for row in more {
        rows.push(row.clone()?)?;
    }
    Ok(())
}

/// Whether the instant is less than the window away from each held one.
///
/// # Errors
///
/// [`AllocError`] where there is no room and none is got.
pub fn is_near_held(
    alloc: Global,
    given: &Given,
    life: &[Answered],
    instant: u64,
) -> Result<bool, AllocError>
    ensures { IfOk result (λ near. near ≡
        list_all (is_near given.now.window instant)
        (held_instants (given_view given.now) (life_view life.now))) }
{
    let window = given.window;
    let open = open_instants(alloc, given, life)?;
    let rows = waiting(alloc, life)?;
    Ok(are_near(&open, window, instant) && rows_are_near(&rows, window, instant))
}

/// Whether the instant is less than the window away from each of these.
fn are_near(instants: &[u64], window: u64, instant: u64) -> bool
    ensures { result ≡ list_all (is_near window instant) instants.now }
{
    for other in instants {
        if !is_near(*other, window, instant) {
            return false;
        }
    }
    true
}

/// Whether the instant is less than the window away from that of each of these rows.
fn rows_are_near(rows: &[DueRow], window: u64, instant: u64) -> bool
    ensures { result ≡ list_all (is_near window instant) (row_instants (map row_view rows.now)) }
{
    for row in rows {
        if !is_near(row.instant, window, instant) {
            return false;
        }
    }
    true
}

/// Whether the instants are less than the window apart.
fn is_near(other: u64, window: u64, instant: u64) -> bool
    ensures { result ≡ is_near window instant other }
{
    other.abs_diff(instant) < window
}
