//! What was taken, asked of the whole list. A life is kept newest first.
ghost use Rattle.std.specs.Prelude.{◌≡◌, ◌≤◌, find, length, map, option_map};
ghost use Rattle.std.specs.Option.{option_to_list};
ghost use Rattle.pdc_life.specs.Life.{age_of, cell_in, cell_of, is_of_column, is_take_of};
ghost use Rattle.pdc_life.specs.Life.{take_at, take_of, takes, takes_since_adopted, was_taken};
ghost use Rattle.pdc_plain_steps.specs.Views.{cell_at, entry_view, given_view, life_view};
ghost use Rattle.pdc_plain_steps.specs.Views.{part_view, take_view};

use crate::given::Given;
use crate::past::is_adoption_of;
use crate::steps::{Answer, Answered, ColumnCell};
use pdc_arrival::Arrival;
use pdc_life::Outcome;

/// Data that was taken of a stream.
#[derive(Clone, Copy, Debug)]
pub struct Take<'a> {
    /// The number of the stream, from 0.
    pub stream: usize,
    /// The instant.
    pub instant: u64,
    /// The cells that it gave.
    pub cells: &'a [ColumnCell],
}

/// What a step took, if it took data.
pub fn taken_at<'a>(step: &'a Answered) -> Option<Take<'a>>
    ensures { take_at (entry_view step.now) ≡ option_to_list (option_map take_view result) }
{
    match step {
        Answered::Arrival {
            stream,
            arrival: Arrival::Data { instant, .. },
            answer: Answer {
                outcome: Outcome::Taken,
                cells,
            },
            ..
        } => Some(Take {
            stream: *stream,
            instant: *instant,
            cells: cells.as_slice(),
        }),
        _ => None,
    }
}

/// The data taken of a stream for an instant since a column was adopted.
fn take_since_adopted<'a>(
    life: &'a [Answered],
    column: usize,
    stream: usize,
    instant: u64,
) -> Option<Take<'a>>
    ensures { option_map take_view result ≡
        find (is_take_of stream instant) (takes_since_adopted (life_view life.now) column) }
{
    let (newest, earlier) = life.split_first()?;
    if is_adoption_of(newest, column) {
        return None;
    }
    match taken_at(newest) {
        Some(take) => {
            if take.stream == stream && take.instant == instant {
                Some(take)
            } else {
                take_since_adopted(earlier, column, stream, instant)
            }
        }
        None => take_since_adopted(earlier, column, stream, instant),
    }
}

/// The data taken of a stream for an instant in the whole life.
fn take_ever<'a>(life: &'a [Answered], stream: usize, instant: u64) -> Option<Take<'a>>
    ensures { option_map take_view result ≡
        find (is_take_of stream instant) (takes (life_view life.now)) }
{
    let (newest, earlier) = life.split_first()?;
    match taken_at(newest) {
        Some(take) => {
            if take.stream == stream && take.instant == instant {
                Some(take)
            } else {
                take_ever(earlier, stream, instant)
            }
        }
        None => take_ever(earlier, stream, instant),
    }
}

/// The data taken of a stream for an instant. With one lane it is dropped when its column is adopted; with two it stays.
pub fn take_of<'a>(
    given: &Given,
    life: &'a [Answered],
    stream: usize,
    instant: u64,
) -> Option<Take<'a>>
    ensures { option_map take_view result ≡
        take_of (given_view given.now) (life_view life.now) stream instant }
{
    if given.lanes == 1 {
        take_since_adopted(life, stream, stream, instant)
    } else {
        take_ever(life, stream, instant)
    }
}

/// The first of these cells that is of the column.
fn cell_among<'a>(cells: &'a [ColumnCell], column: usize) -> Option<&'a ColumnCell>
    ensures { option_map (λ cell. part_view cell.now) result ≡
        find (is_of_column column) (map part_view cells.now) }
{
    let (cell, cells) = cells.split_first()?;
    if cell.column == column {
        Some(cell)
    } else {
        cell_among(cells, column)
    }
}

/// The cell of a stream in a column at an instant, taken since the column was adopted.
pub fn cell_of<'a>(
    life: &'a [Answered],
    stream: usize,
    column: usize,
    instant: u64,
) -> Option<&'a ColumnCell>
    ensures { option_map (λ cell. cell_at cell.now) result ≡
        cell_of (life_view life.now) stream column instant }
{
    let take = take_since_adopted(life, column, stream, instant)?;
    cell_among(take.cells, column)
}

/// Whether anything was taken for the instant, though it were dropped since.
pub fn was_taken(life: &[Answered], instant: u64) -> bool
    ensures { result ≡ was_taken (life_view life.now) instant }
{
    match life.split_first() {
        Some((newest, earlier)) => match taken_at(newest) {
            Some(take) => take.instant == instant || was_taken(earlier, instant),
            None => was_taken(earlier, instant),
        },
        None => false,
    }
}

/// The age of an instant: the ticks since its first take in the life.
pub fn age_of(life: &[Answered], instant: u64) -> u64
    ensures age { result ≡ age_of (life_view life.now) instant }
    ensures most { result ≤ length life.now }
{
    match life.split_first() {
        Some((Answered::Tick { .. }, earlier)) => {
            if was_taken(earlier, instant) {
                age_of(earlier, instant) + 1
            } else {
                0
            }
        }
        Some((_, earlier)) => age_of(earlier, instant),
        None => 0,
    }
}
