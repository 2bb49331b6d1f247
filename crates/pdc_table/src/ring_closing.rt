//! How the rows of a ring close, and come out: a closed row stays at its place until it is popped.
ghost use Rattle.std.specs.Prelude.{◌≡◌, ◌+◌, ◌≤◌, ◌++◌, [], drop, false, length, option_map};
ghost use Rattle.std.specs.Prelude.{replicate, IfOk, take, vec_len, OnErr};
ghost use Rattle.pdc_open_row.specs.pdc_memory.Asking.{SomeWasRefused};
ghost use Rattle.std.specs.List.{AllByRecursion, slice_get};
ghost use Rattle.std.specs.Vec.{vec_capacity};
ghost use Rattle.pdc_open_row.specs.pdc_row.Quality.{greatest};
ghost use Rattle.pdc_open_row.specs.pdc_row.Rising.{Rises};
ghost use Rattle.pdc_open_row.specs.pdc_row.RowView.{row_view};
ghost use Rattle.pdc_table.specs.Closing.{closing, counter, staying};
ghost use Rattle.pdc_table.specs.KeptRow.{popped_into};
ghost use Rattle.pdc_open_row.specs.pdc_columns.Layout.{layout_view};
ghost use Rattle.pdc_open_row.specs.Views.{spent};
ghost use Rattle.pdc_table.specs.OpenInstants.{instants_of};
ghost use Rattle.pdc_table.specs.RingRows.{changed, closed_rows, copied, laid, no_layout, row_in};
ghost use Rattle.pdc_table.specs.RingRows.{rows_in, with_ages};
ghost use Rattle.pdc_table.specs.Steps.{disagreements_in};

use crate::circle::Circle;
use crate::copied::copy_at_queued;
use crate::ring::{count_disagreements, count_due};
use crate::rows::Rows;
use crate::{ClosingLayout, RowLayout, WaitRule};
use pdc_open_row::{DueRow, Held, HeldBox, HeldQueue, OpenRow};
use std::alloc::{AllocError, Global};

/// What is closed of a ring and was not popped, and what every closing adds to.
#[derive(Drop)]
pub struct Closed {
    /// The closed instants that were not popped, in rising order: their rows stay at their places.
    pub instants: HeldQueue<u64>,
    /// At the same place stands the layout that a closed row closed under.
    pub layouts: Held<ClosingLayout>,
    /// The greatest instant closed, at first the floor.
    pub last: u64,
    /// The count of disagreements.
    pub disagree: u64,
}

/// So many places for the layouts of closed rows.
fn new_layouts(alloc: Global, count: usize) -> Result<Held<ClosingLayout>, AllocError>
    ensures items { IfOk result (λ layouts. layouts.items ≡ replicate count no_layout) }
    ensures refused { OnErr result SomeWasRefused }
{
    let mut layouts = Held::with_capacity(alloc, count)?;
    for _ in 0..count {
        layouts.push(ClosingLayout::blank());
    }
    Ok(layouts)
}

/// Closes these instants under a layout, in order: their rows stay at their places.
fn close(
    layouts: &mut Held<ClosingLayout>,
    circle: &Circle,
    due: &[u64],
    layout: &RowLayout,
    closed: &mut HeldQueue<u64>,
)
    requires size { length layouts.old.items ≡ circle.now.window }
    requires room { length closed.old.items + length due.now ≤ closed.old.capacity }
    ensures layouts { layouts.new.items ≡
        laid (layout_view layout.now) circle.now.window due.now layouts.old.items }
    ensures items { closed.new.items ≡ closed.old.items ++ due.now }
    ensures layouts_capacity { layouts.new.capacity ≡ layouts.old.capacity }
    ensures capacity { closed.new.capacity ≡ closed.old.capacity }
{
    for instant in due {
        let place = circle.place_of(*instant);
        layouts.item_mut(place).set(layout);
        closed.push_back(*instant);
    }
}

/// The greatest of these instants and this one.
fn greatest(due: &[u64], last: u64) -> u64
    ensures { result ≡ greatest last due.now }
{
    let mut greatest = last;
    for instant in due {
        greatest = greatest.max(*instant);
    }
    greatest
}

/// Makes these the closed instants, for which there is room.
fn copy_closed(closed: &mut HeldQueue<u64>, others: &HeldQueue<u64>)
    requires { length others.now.items ≤ closed.old.capacity }
    ensures items { closed.new.items ≡ others.now.items }
    ensures capacity { closed.new.capacity ≡ closed.old.capacity }
{
    closed.clear();
    for place in 0..others.len() {
        closed.push_back(*others.item(place));
    }
}

impl Closed {
    /// Nothing closed above the floor, with room for so many rows.
    pub fn new(alloc: Global, count: usize, floor: u64) -> Result<Closed, AllocError>
        ensures instants { IfOk result (λ closed. closed.instants.items ≡ []) }
        ensures room { IfOk result (λ closed. count ≤ closed.instants.capacity) }
        ensures layouts { IfOk result (λ closed. closed.layouts.items ≡ replicate count no_layout) }
        ensures last { IfOk result (λ closed. closed.last ≡ floor) }
        ensures disagree { IfOk result (λ closed. closed.disagree ≡ 0) }
        ensures refused { OnErr result SomeWasRefused }
    {
        Ok(Closed {
            instants: HeldQueue::with_capacity(alloc, count)?,
            layouts: new_layouts(alloc, count)?,
            last: floor,
            disagree: 0,
        })
    }

    /// Makes this what is closed of another ring of as many places. A layout at whose place no closed row stands stays.
    pub fn copy(&mut self, other: &Closed, circle: &Circle)
        requires size { length self.old.layouts.items ≡ circle.now.window }
        requires layouts { length other.now.layouts.items ≡ circle.now.window }
        requires room { length other.now.instants.items ≤ self.old.instants.capacity }
        ensures instants { self.new.instants.items ≡ other.now.instants.items }
        ensures layouts { self.new.layouts.items
            ≡ copied no_layout circle.now.window other.now.instants.items other.now.layouts.items
            self.old.layouts.items }
        ensures last { self.new.last ≡ other.now.last }
        ensures disagree { self.new.disagree ≡ other.now.disagree }
        ensures layouts_capacity { self.new.layouts.capacity ≡ self.old.layouts.capacity }
        ensures capacity { self.new.instants.capacity ≡ self.old.instants.capacity }
    {
        copy_closed(&mut self.instants, &other.instants);
        let others = other.layouts.as_slice();
        copy_at_queued(self.layouts.as_mut_slice(), others, circle, &other.instants);
        self.last = other.last;
        self.disagree = other.disagree;
    }

    /// Closes the rows for which every row up to them is due, and answers how many: so many open instants, from the front on, are
    /// open no more.
    pub fn close_due(
        &mut self,
        rows: &Rows,
        circle: &Circle,
        required: &[bool],
        rule: WaitRule,
        layout: &RowLayout,
    ) -> usize
        requires size { length rows.now.places.items ≡ circle.now.window }
        requires ages_size { length rows.now.ages.items ≡ circle.now.window }
        requires layouts_size { length self.old.layouts.items ≡ circle.now.window }
        requires rising { Rises self.old.last rows.now.open.items }
        requires placed { AllByRecursion
            (λ i. (row_in (with_ages rows.now.places.items rows.now.ages.items) circle.now.window
            i).instant ≡ i) rows.now.open.items }
        requires room { length self.old.instants.items +
            length rows.now.open.items ≤ self.old.instants.capacity }
        ensures answer { result ≡ length (closing required.now rule
            (rows_in (with_ages rows.now.places.items rows.now.ages.items) circle.now.window
            rows.now.open.items)) }
        ensures bound { result ≤ length rows.now.open.items }
        ensures staying { rows_in (with_ages rows.now.places.items rows.now.ages.items)
            circle.now.window (drop result rows.now.open.items)
            ≡ staying required.now rule
            (rows_in (with_ages rows.now.places.items rows.now.ages.items) circle.now.window
            rows.now.open.items) }
        ensures layouts { self.new.layouts.items
            ≡ laid (layout_view layout.now) circle.now.window (take result rows.now.open.items)
            self.old.layouts.items }
        ensures closed { self.new.instants.items ≡ self.old.instants.items ++
            take result rows.now.open.items }
        ensures due_rows { rows_in (with_ages rows.now.places.items rows.now.ages.items)
            circle.now.window (take result rows.now.open.items)
            ≡ closing required.now rule
            (rows_in (with_ages rows.now.places.items rows.now.ages.items) circle.now.window
            rows.now.open.items) }
        ensures front { self.new.last ≡ greatest self.old.last (take result rows.now.open.items) }
        ensures last { self.new.last ≡ greatest self.old.last
            (instants_of (closing required.now rule
            (rows_in (with_ages rows.now.places.items rows.now.ages.items) circle.now.window
            rows.now.open.items))) }
        ensures disagree { self.new.disagree ≡
            counter (self.old.disagree + disagreements_in (layout_view layout.now)
            (closing required.now rule
            (rows_in (with_ages rows.now.places.items rows.now.ages.items) circle.now.window
            rows.now.open.items))) }
        ensures layouts_capacity { self.new.layouts.capacity ≡ self.old.layouts.capacity }
        ensures capacity { self.new.instants.capacity ≡ self.old.instants.capacity }
    {
        let count = count_due(rows, circle, required, rule);
        let due = &rows.open.as_slice()[..count];
        close(&mut self.layouts, circle, due, layout, &mut self.instants);
        self.last = greatest(due, self.last);
        self.disagree = count_disagreements(rows, circle, due, layout, self.disagree);
        count
    }
}

/// The lowest closed instant.
pub fn first(closed: &HeldQueue<u64>) -> Option<u64>
    ensures { result ≡ slice_get closed.now.items 0 }
{
    closed.front().copied()
}

/// Takes the lowest closed instant out, and gives its row.
#[inline(never)]
pub fn pop(
    rows: &Rows,
    layouts: &[ClosingLayout],
    circle: &Circle,
    closed: &mut HeldQueue<u64>,
) -> Option<DueRow>
    requires size { length rows.now.places.items ≡ circle.now.window }
    requires layouts_size { length layouts.now ≡ circle.now.window }
    ensures row { option_map row_view result
        ≡ slice_get (closed_rows rows.now.places.items layouts.now circle.now.window
        closed.old.items) 0 }
    ensures rest { closed.new.items ≡ drop 1 closed.old.items }
    ensures capacity { closed.new.capacity ≡ closed.old.capacity }
{
    let instant = closed.pop_front()?;
    let place = circle.place_of(instant);
    Some(rows.places.item(place).close(layouts[place].layout()))
}

/// Takes the lowest closed instant out, and hands out its row: the one that was lent stays at its place, which is the spare one then. Whether
/// there was one.
pub fn pop_into(
    places: &mut Held<OpenRow>,
    spare: &mut usize,
    layouts: &[ClosingLayout],
    circle: &Circle,
    closed: &mut HeldQueue<u64>,
    row: &mut HeldBox<DueRow>,
) -> bool
    requires size { length places.old.items ≡ circle.now.window }
    requires layouts_size { length layouts.now ≡ circle.now.window }
    ensures row { popped_into result row.new
        ≡ slice_get (closed_rows places.old.items layouts.now circle.now.window
        closed.old.items) 0 }
    ensures none { result ≡ false → row.new ≡ row.old }
    ensures places { places.new.items ≡
        changed spent circle.now.window (take 1 closed.old.items) places.old.items }
    ensures places_capacity { places.new.capacity ≡ places.old.capacity }
    ensures rest { closed.new.items ≡ drop 1 closed.old.items }
    ensures capacity { closed.new.capacity ≡ closed.old.capacity }
{
    let Some(instant) = closed.pop_front() else {
        return false;
    };
    let place = circle.place_of(instant);
    places
        .item_mut(place)
        .hand_out(layouts[place].layout(), row);
    *spare = place;
    true
}
