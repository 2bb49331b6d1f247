//! What is asked of all rows of a ring that are held, and what is done with each.
ghost use Rattle.std.specs.Prelude.{◌≡◌, ◌+◌, ◌==◌, ◌<◌, ◌≤◌, ◌++◌, length, map};
ghost use Rattle.std.specs.Prelude.{true, if◌then◌else◌};
ghost use Rattle.std.specs.List.{All, list_all, list_any, prefix_len, slice_get};
ghost use Rattle.pdc_open_row.specs.pdc_row.Rising.{AreNear, Rises, highest_of, is_near};
ghost use Rattle.pdc_table.specs.Closing.{counter};
ghost use Rattle.pdc_open_row.specs.Due.{is_due};
ghost use Rattle.pdc_open_row.specs.pdc_columns.Layout.{layout_view};
ghost use Rattle.pdc_table.specs.RingRows.{changed, row_in, rows_in};
ghost use Rattle.pdc_table.specs.RingRows.{with_ages};
ghost use Rattle.pdc_open_row.specs.Views.{OpenRowView, without_instant};
ghost use Rattle.pdc_table.specs.Steps.{disagreements_in, is_first_whole};
ghost use Rattle.pdc_open_row.specs.Taking.{without_column, without_stream};

use crate::circle::Circle;
use crate::front::is_near;
use crate::rows::Rows;
use crate::{RowLayout, WaitRule};
use pdc_open_row::{Held, HeldQueue, OpenRow, numbers_rise};

/// Whether each held instant is less than the window away.
fn are_near(instants: &[u64], closed: &HeldQueue<u64>, window: u64, instant: u64) -> bool
    requires { Rises 0 (closed.now.items ++ instants.now) }
    ensures { result ≡ list_all (is_near window instant) (closed.now.items ++ instants.now) }
{
    numbers_rise();
    is_near(lowest(instants, closed), window, instant)
        && is_near(highest(instants, closed), window, instant)
}

/// The same for the instant of the circle, where its place may have its row: then it is open, and near all that are held.
pub fn is_in_window(rows: &Rows, closed: &HeldQueue<u64>, here: &Circle) -> bool
    requires size { length rows.now.places.items ≡ here.now.window }
    requires rising { Rises 0 (closed.now.items ++ rows.now.open.items) }
    requires held_near { AreNear here.now.window (closed.now.items ++ rows.now.open.items) }
    requires known { (row_in rows.now.places.items here.now.window here.now.instant).instant ≡
        here.now.instant
        → list_any (λ i. i == here.now.instant) rows.now.open.items ≡ true }
    ensures { result ≡ list_all (is_near here.now.window here.now.instant)
        (closed.now.items ++ rows.now.open.items) }
{
    numbers_rise();
    rows.places.item(here.place).instant() == here.instant
        || are_near(rows.open.as_slice(), closed, here.window, here.instant)
}

/// The lowest instant held.
fn lowest(instants: &[u64], closed: &HeldQueue<u64>) -> Option<u64>
    ensures { result ≡ slice_get (closed.now.items ++ instants.now) 0 }
{
    match closed.front() {
        Some(instant) => Some(*instant),
        None => Some(*instants.first()?),
    }
}

/// The highest instant held.
fn highest(instants: &[u64], closed: &HeldQueue<u64>) -> Option<u64>
    ensures { result ≡ highest_of (closed.now.items ++ instants.now) }
{
    match (instants.last(), closed.back()) {
        (Some(instant), _) => Some(*instant),
        (None, Some(instant)) => Some(*instant),
        (None, None) => None,
    }
}

/// Forgets what was taken of a stream, at each open instant.
pub fn drop_stream(
    places: &mut Held<OpenRow>,
    circle: &Circle,
    instants: &[u64],
    lanes: usize,
    stream: usize,
)
    requires size { length places.old.items ≡ circle.now.window }
    requires taken { All (λ (row : OpenRowView). stream < length row.taken) places.old.items }
    requires column { lanes ≡ 1 → All (λ (row : OpenRowView). stream < length row.columns)
        places.old.items }
    ensures items { places.new.items ≡
        changed (without_stream lanes stream) circle.now.window instants.now places.old.items }
    ensures capacity { places.new.capacity ≡ places.old.capacity }
{
    for instant in instants {
        let place = circle.place_of(*instant);
        places.item_mut(place).drop_stream(lanes, stream);
    }
}

/// Forgets the cells of a column, at each open instant.
pub fn drop_column(places: &mut Held<OpenRow>, circle: &Circle, instants: &[u64], column: usize)
    requires size { length places.old.items ≡ circle.now.window }
    requires column { All (λ (row : OpenRowView). column < length row.columns) places.old.items }
    ensures items { places.new.items ≡
        changed (without_column column) circle.now.window instants.now places.old.items }
    ensures capacity { places.new.capacity ≡ places.old.capacity }
{
    for instant in instants {
        let place = circle.place_of(*instant);
        places.item_mut(place).drop_column(column);
    }
}

/// Makes rows those of no instant: all, or else the open ones.
pub fn leave(places: &mut Held<OpenRow>, circle: &Circle, instants: &[u64], is_all: bool)
    requires size { length places.old.items ≡ circle.now.window }
    ensures items { places.new.items ≡ (if is_all then map without_instant places.old.items
        else changed without_instant circle.now.window instants.now places.old.items) }
    ensures capacity { places.new.capacity ≡ places.old.capacity }
{
    if is_all {
        leave_all(places);
    } else {
        leave_open(places, circle, instants);
    }
}

/// Makes each row that of no instant.
#[inline(never)]
fn leave_all(places: &mut Held<OpenRow>)
    ensures items { places.new.items ≡ map without_instant places.old.items }
    ensures capacity { places.new.capacity ≡ places.old.capacity }
{
    for place in 0..places.len() {
        places.item_mut(place).leave();
    }
}

/// Makes the row of each open instant that of none.
fn leave_open(places: &mut Held<OpenRow>, circle: &Circle, instants: &[u64])
    requires size { length places.old.items ≡ circle.now.window }
    ensures items { places.new.items ≡
        changed without_instant circle.now.window instants.now places.old.items }
    ensures capacity { places.new.capacity ≡ places.old.capacity }
{
    for instant in instants {
        let place = circle.place_of(*instant);
        places.item_mut(place).leave();
    }
}

/// How many open instants from the front on are due.
pub fn count_due(rows: &Rows, circle: &Circle, required: &[bool], rule: WaitRule) -> usize
    requires size { length rows.now.places.items ≡ circle.now.window }
    requires ages_size { length rows.now.ages.items ≡ circle.now.window }
    ensures count { result ≡ prefix_len (is_due required.now rule)
        (rows_in (with_ages rows.now.places.items rows.now.ages.items) circle.now.window
        rows.now.open.items) }
    ensures bound { result ≤ length rows.now.open.items }
{
    let mut count = 0;
    for instant in rows.open.as_slice() {
        let place = circle.place_of(*instant);
        if !rows
            .places
            .item(place)
            .is_due(rows.ages.at(place), required, rule)
        {
            return count;
        }
        count += 1;
    }
    count
}

/// Whether the first open row was brought all that it waits for.
pub fn is_first_whole(rows: &Rows, circle: &Circle, required: &[bool]) -> bool
    requires size { length rows.now.places.items ≡ circle.now.window }
    requires ages_size { length rows.now.ages.items ≡ circle.now.window }
    ensures { result ≡ is_first_whole required.now
        (rows_in (with_ages rows.now.places.items rows.now.ages.items) circle.now.window
        rows.now.open.items) }
{
    match rows.open.as_slice().first() {
        Some(instant) => {
            let place = circle.place_of(*instant);
            rows.places.item(place).is_whole(required)
        }
        None => false,
    }
}

/// The count of disagreements after the rows of these instants closed.
pub fn count_disagreements(
    rows: &Rows,
    circle: &Circle,
    due: &[u64],
    layout: &RowLayout,
    so_far: u64,
) -> u64
    requires size { length rows.now.places.items ≡ circle.now.window }
    ensures { result ≡ counter (so_far
        + disagreements_in (layout_view layout.now)
        (rows_in rows.now.places.items circle.now.window due.now)) }
{
    let mut count = so_far;
    for instant in due {
        let place = circle.place_of(*instant);
        count = count.saturating_add(rows.places.item(place).disagreements(layout));
    }
    count
}
