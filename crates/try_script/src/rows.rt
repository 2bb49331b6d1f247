//! Open rows in rising order.
ghost use Rattle.std.specs.Prelude.{◌≡◌, ℕ, ◌+◌, ◌<◌, ◌≤◌, ◌++◌, drop, length, map, replicate, take, vec_len};
ghost use Rattle.std.specs.Prelude.{IfOk, None, OnErr, if◌then◌else◌};
ghost use Rattle.std.specs.Vec.{vec_capacity};
ghost use Rattle.std.specs.List.{All, AllByRecursion, list_all, prefix_len, slice_get};
ghost use Rattle.std.specs.Result.{MatchResult};
ghost use Rattle.pdc_memory.specs.Asking.{SomeWasRefused};
ghost use Rattle.pdc_table.specs.Closing.{aged, closing, counter, staying};
ghost use Rattle.pdc_table.specs.pdc_open_row.Due.{is_due};
ghost use Rattle.pdc_row.specs.RowView.{row_instants, row_view};
ghost use Rattle.pdc_table.specs.Placing.{place_of, row_at, with_row, IsGap, IsRowPlace};
ghost use Rattle.pdc_row.specs.Rising.{Rises, highest_of, is_near};
ghost use Rattle.pdc_table.specs.OpenInstants.{instants_of};
ghost use Rattle.pdc_table.specs.pdc_open_row.Row.{row_of};
ghost use Rattle.pdc_row.specs.Quality.{greatest};
ghost use Rattle.pdc_table.specs.Steps.{disagreements_in};
ghost use Rattle.pdc_table.specs.pdc_columns.Taking.{cells_in};
ghost use Rattle.pdc_table.specs.pdc_open_row.Taking.{answer_at, is_taken, with_frame, without_column, without_stream};
ghost use Rattle.pdc_table.specs.Content.{HasPlaces};
ghost use Rattle.pdc_table.specs.pdc_columns.Layout.{layout_view};
ghost use Rattle.pdc_table.specs.pdc_open_row.Views.{OpenRowView, blank_row};

use crate::aged_row::AgedRow;
use pdc_memory::HeldQueue;
use pdc_row::{CopyFrom, DueRow, Offered, numbers_rise};
use pdc_table::{MAX_COLUMNS, Places, PutOutcome, RowLayout, WaitRule, is_near};
use std::alloc::{AllocError, Global};

/// A frame that is offered to the rows, without its cells.
#[derive(Clone, Copy, Debug)]
pub struct FrameHead {
    /// Its stream.
    pub stream: usize,
    /// The lane that its cells go into.
    pub lane: usize,
    /// Its instant.
    pub instant: u64,
    /// Its time quality byte.
    pub quality: u8,
}

/// What makes a row due: the streams that are waited for, and how long.
#[derive(Clone, Copy, Debug)]
pub struct DueRule<'r> {
    /// For each stream whether a row waits for it.
    pub required: &'r [bool],
    /// How long a row waits.
    pub wait: WaitRule,
}

/// So many rows of no instant, each to be begun once it is wanted.
pub fn free_rows(
    alloc: Global,
    count: usize,
    places: Places,
) -> Result<HeldQueue<AgedRow>, AllocError>
    requires streams { places.streams ≤ MAX_COLUMNS }
    requires columns { places.columns ≤ MAX_COLUMNS }
    ensures items { IfOk result (λ free. free.items ≡ replicate count (blank_row places.streams places.columns 0)) }
    ensures capacity { IfOk result (λ free. free.capacity ≡ count) }
    ensures refused { OnErr result SomeWasRefused }
{
    let mut free = HeldQueue::with_capacity(alloc, count)?;
    for _ in 0..count {
        free.push_back(AgedRow::blank(alloc, 0, places)?);
    }
    Ok(free)
}

/// How many rows stand below the instant.
pub fn place(rows: &[AgedRow], instant: u64) -> usize
    requires { Rises 0 (instants_of rows.now) }
    ensures place { result ≡ place_of instant rows.now }
    ensures bound { result ≤ length rows.now }
{
    rows.partition_point(|row| row.instant() < instant)
}

/// Where the row of the instant stands, or where it would stand.
pub fn find(rows: &[AgedRow], instant: u64, places: Places) -> Result<usize, usize>
    requires { Rises 0 (instants_of rows.now) }
    ensures { MatchResult result (IsRowPlace (blank_row places.streams places.columns instant) rows.now)
        (IsGap (blank_row places.streams places.columns instant) rows.now) }
{
    let place = place(rows, instant);
    if place == rows.len() {
        return Err(place);
    }
    if rows[place].instant() == instant {
        Ok(place)
    } else {
        Err(place)
    }
}

/// Counts one more tick for each row.
pub fn grow_older(rows: &mut Vec<AgedRow>)
    ensures items { rows.new.items ≡ map aged rows.old.items }
    ensures capacity { vec_capacity rows.new ≡ vec_capacity rows.old }
{
    for row in rows.iter_mut() {
        row.grow_older();
    }
}

/// How many rows from the front on are due.
pub fn count_due(rows: &[AgedRow], required: &[bool], rule: WaitRule) -> usize
    ensures count { result ≡ prefix_len (is_due required.now rule) rows.now }
    ensures bound { result ≤ length rows.now }
{
    rows.iter()
        .take_while(|row| row.is_due(required, rule))
        .count()
}

/// Forgets what was taken of a stream, in each row.
pub fn drop_stream(rows: &mut Vec<AgedRow>, lanes: usize, stream: usize)
    requires taken { AllByRecursion (λ (row : OpenRowView). stream < length row.taken) rows.old.items }
    requires column { lanes ≡ 1 → AllByRecursion (λ (row : OpenRowView). stream < length row.columns) rows.old.items }
    ensures items { rows.new.items ≡ map (without_stream lanes stream) rows.old.items }
    ensures capacity { vec_capacity rows.new ≡ vec_capacity rows.old }
{
    for row in rows.iter_mut() {
        row.drop_stream(lanes, stream);
    }
}

/// Forgets the cells of a column, in each row.
pub fn drop_column(rows: &mut Vec<AgedRow>, column: usize)
    requires { AllByRecursion (λ (row : OpenRowView). column < length row.columns) rows.old.items }
    ensures items { rows.new.items ≡ map (without_column column) rows.old.items }
    ensures capacity { vec_capacity rows.new ≡ vec_capacity rows.old }
{
    for row in rows.iter_mut() {
        row.drop_column(column);
    }
}

/// Closes each of these rows under a layout, in order.
pub fn close(rows: &[AgedRow], layout: &RowLayout, closed: &mut HeldQueue<DueRow>)
    requires { length closed.old.items + length rows.now ≤ closed.old.capacity }
    ensures items { map row_view closed.new.items ≡ map row_view closed.old.items ++ map (row_of (layout_view layout.now)) rows.now }
    ensures capacity { closed.new.capacity ≡ closed.old.capacity }
{
    for row in rows {
        closed.push_back(row.close(layout));
    }
}

/// The count of disagreements after these rows closed.
pub fn count_disagreements(rows: &[AgedRow], layout: &RowLayout, so_far: u64) -> u64
    ensures { result ≡ counter (so_far + disagreements_in (layout_view layout.now) rows.now) }
{
    let mut count = so_far;
    for row in rows {
        count = count.saturating_add(row.disagreements(layout));
    }
    count
}

/// The greatest instant of these rows and this one.
pub fn greatest(rows: &[AgedRow], last: u64) -> u64
    ensures { result ≡ greatest last (instants_of rows.now) }
{
    let mut greatest = last;
    for row in rows {
        greatest = greatest.max(row.instant());
    }
    greatest
}

/// Begins the row of an instant: it is one of those that are free.
fn begin(free: &mut HeldQueue<AgedRow>, places: Places, instant: u64) -> AgedRow
    requires some { 0 < length free.old.items }
    requires each { AllByRecursion (HasPlaces places.streams places.columns) free.old.items }
    ensures row { result ≡ blank_row places.streams places.columns instant }
    ensures free { free.new.items ≡ drop 1 free.old.items }
    ensures capacity { free.new.capacity ≡ free.old.capacity }
{
    let mut row = free.pop_front().unwrap();
    row.begin(instant);
    row
}

/// Takes a frame of a stream for an instant, unless the stream was taken there. A row that opens is one of those that are free.
pub fn take<B: Offered>(
    rows: &mut Vec<AgedRow>,
    free: &mut HeldQueue<AgedRow>,
    places: Places,
    head: FrameHead,
    cells: &[(usize, B)],
) -> PutOutcome
    requires rising { Rises 0 (instants_of rows.old.items) }
    requires each { AllByRecursion (HasPlaces places.streams places.columns) rows.old.items }
    requires free_each { AllByRecursion (HasPlaces places.streams places.columns) free.old.items }
    requires room { row_at head.instant rows.old.items ≡ None → vec_len rows.old < vec_capacity rows.old }
    requires free_one { row_at head.instant rows.old.items ≡ None → 0 < length free.old.items }
    requires streams_fit { places.streams ≤ MAX_COLUMNS }
    requires columns_fit { places.columns ≤ MAX_COLUMNS }
    requires stream { head.stream < places.streams }
    requires columns { All (λ (cell : ℕ × B). cell.0 < places.columns) cells.now }
    ensures answer { result ≡ answer_at (row_at head.instant rows.old.items) head.stream head.lane (cells_in B.view cells.now head.quality) }
    ensures items { rows.new.items ≡ (if is_taken (answer_at (row_at head.instant rows.old.items) head.stream head.lane (cells_in B.view cells.now head.quality))
        then with_row (with_frame head.stream head.lane (cells_in B.view cells.now head.quality)) (blank_row places.streams places.columns head.instant) rows.old.items
        else rows.old.items) }
    ensures count { length rows.new.items + length free.new.items ≡ length rows.old.items + length free.old.items }
    ensures free_each { AllByRecursion (HasPlaces places.streams places.columns) free.new.items }
    ensures capacity { vec_capacity rows.new ≡ vec_capacity rows.old }
    ensures free_capacity { free.new.capacity ≡ free.old.capacity }
{
    match find(rows, head.instant, places) {
        Ok(place) => rows[place].offer(head.stream, head.lane, cells, head.quality),
        Err(place) => {
            let mut row = begin(free, places, head.instant);
            row.take(head.stream, head.lane, cells, head.quality);
            rows.insert(place, row).unwrap();
            PutOutcome::Taken
        }
    }
}

/// Whether each held instant is less than the window away.
pub fn are_near(rows: &[AgedRow], closed: &HeldQueue<DueRow>, window: u64, instant: u64) -> bool
    requires { Rises 0 (row_instants (map row_view closed.now.items) ++ instants_of rows.now) }
    ensures { result ≡ list_all (is_near window instant)
        (row_instants (map row_view closed.now.items) ++ instants_of rows.now) }
{
    numbers_rise();
    is_near(lowest(rows, closed), window, instant)
        && is_near(highest(rows, closed), window, instant)
}

/// The lowest instant held.
fn lowest(rows: &[AgedRow], closed: &HeldQueue<DueRow>) -> Option<u64>
    ensures { result ≡ slice_get (row_instants (map row_view closed.now.items) ++ instants_of rows.now) 0 }
{
    match closed.front() {
        Some(row) => Some(row.instant),
        None => Some(rows.first()?.instant()),
    }
}

/// The highest instant held.
fn highest(rows: &[AgedRow], closed: &HeldQueue<DueRow>) -> Option<u64>
    ensures { result ≡ highest_of (row_instants (map row_view closed.now.items) ++ instants_of rows.now) }
{
    match (rows.last(), closed.back()) {
        (Some(row), _) => Some(row.instant()),
        (None, Some(row)) => Some(row.instant),
        (None, None) => None,
    }
}

/// Moves so many rows from the front to those that are free.
fn leave_front(rows: &mut Vec<AgedRow>, free: &mut HeldQueue<AgedRow>, count: usize)
    requires bound { count ≤ length rows.old.items }
    requires room { length free.old.items + count ≤ free.old.capacity }
    ensures items { rows.new.items ≡ drop count rows.old.items }
    ensures free { free.new.items ≡ free.old.items ++ take count rows.old.items }
    ensures capacity { vec_capacity rows.new ≡ vec_capacity rows.old }
    ensures free_capacity { free.new.capacity ≡ free.old.capacity }
{
    for _ in 0..count {
        free.push_back(rows.remove(0));
    }
}

/// Closes the rows for which every row up to them is due, and answers how many. They are free then.
pub fn close_due(
    rows: &mut Vec<AgedRow>,
    free: &mut HeldQueue<AgedRow>,
    rule: &DueRule,
    layout: &RowLayout,
    closed: &mut HeldQueue<DueRow>,
    last: &mut u64,
    disagree: &mut u64,
) -> usize
    requires rising { Rises last.old (instants_of rows.old.items) }
    requires room { length closed.old.items + vec_len rows.old ≤ closed.old.capacity }
    requires free_room { length free.old.items + vec_len rows.old ≤ free.old.capacity }
    ensures answer { result ≡ length (closing rule.now.required.now rule.now.wait rows.old.items) }
    ensures rows { rows.new.items ≡ staying rule.now.required.now rule.now.wait rows.old.items }
    ensures free { free.new.items ≡ free.old.items ++ closing rule.now.required.now rule.now.wait rows.old.items }
    ensures closed { map row_view closed.new.items ≡ map row_view closed.old.items
        ++ map (row_of (layout_view layout.now)) (closing rule.now.required.now rule.now.wait rows.old.items) }
    ensures last { last.new ≡ greatest last.old (instants_of (closing rule.now.required.now rule.now.wait rows.old.items)) }
    ensures disagree { disagree.new ≡ counter
        (disagree.old + disagreements_in (layout_view layout.now) (closing rule.now.required.now rule.now.wait rows.old.items)) }
    ensures capacity { vec_capacity rows.new ≡ vec_capacity rows.old }
    ensures free_capacity { free.new.capacity ≡ free.old.capacity }
    ensures closed_capacity { closed.new.capacity ≡ closed.old.capacity }
{
    let count = count_due(rows, rule.required, rule.wait);
    let due = &rows[..count];
    close(due, layout, closed);
    *last = greatest(due, *last);
    *disagree = count_disagreements(due, layout, *disagree);
    leave_front(rows, free, count);
    count
}

/// Opens a copy of each of these rows, for which there is room: each is one of those that are free.
fn open_copies(rows: &mut Vec<AgedRow>, free: &mut HeldQueue<AgedRow>, others: &[AgedRow])
    requires none { length rows.old.items ≡ 0 }
    requires room { length others.now ≤ vec_capacity rows.old }
    requires free { length others.now ≤ length free.old.items }
    ensures items { rows.new.items ≡ others.now }
    ensures free { free.new.items ≡ drop (length others.now) free.old.items }
    ensures capacity { vec_capacity rows.new ≡ vec_capacity rows.old }
    ensures free_capacity { free.new.capacity ≡ free.old.capacity }
{
    for other in others {
        let mut row = free.pop_front().unwrap();
        row.copy_from(other);
        rows.push_reserved(row);
    }
}

/// Makes these the open rows, for which there is room. Those that were open are free first, and may be opened again.
pub fn copy_rows(rows: &mut Vec<AgedRow>, free: &mut HeldQueue<AgedRow>, others: &[AgedRow])
    requires room { length others.now ≤ vec_capacity rows.old }
    requires free_room { length free.old.items + length rows.old.items ≤ free.old.capacity }
    requires enough { length others.now ≤ length free.old.items + length rows.old.items }
    ensures items { rows.new.items ≡ others.now }
    ensures free { free.new.items ≡ drop (length others.now) (free.old.items ++ rows.old.items) }
    ensures capacity { vec_capacity rows.new ≡ vec_capacity rows.old }
    ensures free_capacity { free.new.capacity ≡ free.old.capacity }
{
    leave_front(rows, free, rows.len());
    open_copies(rows, free, others);
}

/// The row again.
fn again(row: &DueRow) -> DueRow
    ensures { row_view result ≡ row_view row.now }
{
    row.clone().unwrap()
}

/// Makes these the closed rows, for which there is room.
pub fn copy_closed(closed: &mut HeldQueue<DueRow>, others: &HeldQueue<DueRow>)
    requires { length others.now.items ≤ closed.old.capacity }
    ensures rows { map row_view closed.new.items ≡ map row_view others.now.items }
    ensures capacity { closed.new.capacity ≡ closed.old.capacity }
{
    closed.clear();
    for place in 0..others.len() {
        closed.push_back(again(others.item(place)));
    }
}
