//! The alignment of a concentrator: what it keeps, what is looked up in it, and its steps, each said of what it keeps; those of a tick
//! stand in `ticking.rt`. What they mean for a life stands in `life_calls.rt`.
ghost use Rattle.std.specs.Prelude.{◌≡◌, ◌<◌, List, IfOk, IfSome, false, length, map, option_map};
ghost use Rattle.std.specs.Prelude.{OnErr, Some};
ghost use Rattle.pdc_table.specs.pdc_memory.Asking.{SomeWasRefused};
ghost use Rattle.std.specs.List.{All};
ghost use Rattle.pdc_arrival.specs.pdc_cfg.Section.{fields_of_view};
ghost use Rattle.pdc_arrival.specs.pdc_row.RowView.{RowView, row_view};
ghost use Rattle.pdc_table.specs.Content.{HasSizesOf, IsContent};
ghost use Rattle.pdc_table.specs.KeptRow.{popped_into};
ghost use Rattle.pdc_table.specs.Placing.{row_at};
ghost use Rattle.pdc_table.specs.pdc_columns.Layout.{layout_view};
ghost use Rattle.pdc_table.specs.pdc_columns.Twin.{lowest};
ghost use Rattle.pdc_table.specs.pdc_open_row.Views.{OpenRowView};
ghost use Rattle.pdc_table.specs.Steps as table;
ghost use Rattle.pdc_arrival.specs.Views.{section_part};
ghost use Rattle.pdc_arrival.specs.declared.arrival.ColumnSection.{ColumnSection as ColumnSectionData};
ghost use Rattle.pdc_arrival.specs.pdc_life.Given.{Given};
ghost use Rattle.pdc_arrival.specs.pdc_life.Life.{Entry, changes, held_section, section_in_force};
ghost use Rattle.pdc_align.specs.State.{shape_in};
ghost use Rattle.pdc_align.specs.Align.{KeepsSizes, StandsFor, Unchanged, in_force_in};
ghost use Rattle.pdc_align.specs.Popped.{popped_after};
ghost use Rattle.pdc_align.specs.Slot.{count_in};
ghost use Rattle.pdc_align.specs.Calls.{column_in, after_hold, after_pop_of, first_content};
ghost use Rattle.pdc_align.specs.Calls.{first_of_plan, row_layout_in, waiting_in};

use crate::{Column, Plan, columns};
use pdc_arrival::{ColumnSection, MAX_PMUS, SectionView, Shape, WaitKind};
use pdc_table::{CopyFrom, DueRow, Held, HeldBox, RowBlocks, RowLayout, Table, copy_each};
use std::alloc::{AllocError, Global};
use std::marker::Model;

/// The alignment of a concentrator over a table.
#[derive(Drop)]
pub struct Alignment<T: Table> {
    pub(crate) wait: u64,
    pub(crate) wait_kind: WaitKind,
    pub(crate) ahead: u64,
    pub(crate) current: u64,
    pub(crate) lanes: usize,
    pub(crate) columns: Held<Column>,
    /// The layout under which rows close: the stamp, and the shapes in force.
    pub(crate) layout: RowLayout,
    /// The counts that were cleared last.
    pub(crate) cleared: [u16; MAX_PMUS],
    /// Whether a tick with these counts leaves each column as it is.
    pub(crate) is_quiet: bool,
    pub(crate) table: T,
    /// The greatest instant popped, at first the floor.
    popped: u64,
}

impl<T: Table> Model for Alignment<T> {
    ghost use Rattle.std.specs.Prelude.{◌≡◌, ◌*◌, ◌∷◌, length, true};
    ghost use Rattle.pdc_align.specs.Align.{AlignmentView};
    ghost use Rattle.pdc_align.specs.Kept.{AreQuietAt, shapes_in};
    ghost use Rattle.pdc_align.specs.Popped.{IsPoppedTo};
    ghost use Rattle.pdc_table.specs.Content.{IsContent};

    ghost Value = { AlignmentView };

    ghost view = { λ a. record {
      state = record {
        wait = a.wait;
        wait_kind = a.wait_kind;
        ahead = a.ahead;
        start = a.layout.start;
        current = a.current;
        change = a.layout.change;
        columns = a.columns.items;
        content = T.content a.table;
      };
      memory = a.columns.capacity ∷ (2 * length a.columns.items) ∷ T.memory a.table;
      disagreements = T.disagreements a.table;
      popped = a.popped;
    } };

    ghost invariant = { λ a. record {
      well_formed : IsContent (T.content a.table);
      each : length a.columns.items ≡ (T.content a.table).columns;
      lanes : a.lanes ≡ (T.content a.table).lanes;
      gone : IsPoppedTo a.popped (T.content a.table);
      shapes : a.layout.shapes.items ≡ shapes_in a.columns.items;
      quiet : a.is_quiet ≡ true → AreQuietAt a.cleared a.columns.items;
    } };
}

/// An empty table, in which an instant waits for both streams where there are two lanes.
fn new_table<T: Table>(alloc: Global, plan: Plan, floor: u64) -> Result<T, AllocError>
    ensures content { IfOk result (λ t. T.content t ≡
        first_content plan.window plan.columns plan.lanes floor) }
    ensures well_formed { IfOk result (λ t. IsContent (T.content t)) }
    ensures disagreements { IfOk result (λ t. T.disagreements t ≡ 0) }
    ensures refused { OnErr result SomeWasRefused }
{
    let mut table = T::new(alloc, plan.window, plan.columns, plan.lanes, floor)?;
    if plan.lanes != 1 {
        table.require(0, true);
        table.require(1, true);
    }
    Ok(table)
}

impl<T: Table> Alignment<T> {
    /// The section that is held of the column.
    pub fn held(&self, column: usize) -> Option<SectionView<'_>>
        requires { column < length self.now.state.columns }
        ensures state { option_map fields_of_view result ≡ (column_in self.now.state column).held }
        ensures life { (g : Given) (E : List Entry) → StandsFor g E self.now.state →
            option_map fields_of_view result ≡ held_section g E column }
    {
        self.columns.item(column).held()
    }

    /// The section in force for the column.
    pub fn in_force(&self, column: usize) -> Option<SectionView<'_>>
        requires { column < length self.now.state.columns }
        ensures state { option_map fields_of_view result ≡
            (column_in self.now.state column).in_force }
        ensures life { (g : Given) (E : List Entry) → StandsFor g E self.now.state →
            option_map fields_of_view result ≡ section_in_force g E column }
    {
        self.columns.item(column).in_force()
    }

    /// The count of the section in force for the column. It is looked up without the section.
    pub fn count_in_force(&self, column: usize) -> Option<u16>
        requires { column < length self.now.state.columns }
        ensures { result ≡ count_in (column_in self.now.state column).in_force }
    {
        self.columns.item(column).count()
    }

    /// The shape of the section in force for the column. It is looked up without the section.
    pub fn shape_in_force(&self, column: usize) -> Option<Shape>
        requires { column < length self.now.state.columns }
        ensures { (g : Given) (E : List Entry) → StandsFor g E self.now.state →
            result ≡ shape_in (section_in_force g E column) }
    {
        self.columns.item(column).shape()
    }

    /// The change number.
    pub fn change(&self) -> u32
        ensures { (g : Given) (E : List Entry) → StandsFor g E self.now.state → result ≡ changes E }
    {
        self.layout.change
    }

    /// The blocks that the lowest lane of an open instant holds which holds any, where it holds one of each column: for a look whether those of a
    /// frame are the same. That it tells them is left open.
    #[inline(always)]
    pub fn lowest_blocks(&self, instant: u64) -> Option<&RowBlocks>
        ensures { IfSome result (λ blocks. option_map (λ (row : OpenRowView). lowest row.columns)
            (row_at instant self.now.state.content.open_rows) ≡ Some blocks.now) }
    {
        self.table.lowest_blocks(instant)
    }

    /// How often, at a closing, both lanes of a column had present blocks that differed.
    pub fn disagree(&self) -> u64
        ensures { result ≡ self.now.disagreements }
    {
        self.table.disagree()
    }

    /// What stands at the start of a life.
    pub(crate) fn first(
        alloc: Global,
        plan: Plan,
        start: u32,
        floor: u64,
        counts: &[u16; MAX_PMUS],
        now: u64,
    ) -> Result<Alignment<T>, AllocError>
        ensures state { IfOk result (λ a. a.state ≡ first_of_plan plan start floor counts.now now) }
        ensures disagreements { IfOk result (λ a. a.disagreements ≡ 0) }
        ensures popped { IfOk result (λ a. a.popped ≡ floor) }
        ensures refused { OnErr result SomeWasRefused }
    {
        let columns = columns::new_columns(alloc, plan.columns, counts)?;
        let shapes = columns::shapes(columns.as_slice());
        Ok(Alignment {
            wait: plan.wait,
            wait_kind: plan.wait_kind,
            ahead: plan.ahead,
            current: now,
            lanes: plan.lanes,
            columns,
            layout: RowLayout::new(start, 0, shapes),
            cleared: [0; MAX_PMUS],
            is_quiet: false,
            table: new_table(alloc, plan, floor)?,
            popped: floor,
        })
    }

    /// Makes this the alignment that the other one is, whose table has the sizes of this one. It takes no memory.
    pub fn copy_from(&mut self, other: &Alignment<T>)
        requires { HasSizesOf other.now.state.content self.old.state.content }
        ensures state { self.new.state ≡ other.now.state }
        ensures memory { self.new.memory ≡ self.old.memory }
        ensures disagreements { self.new.disagreements ≡ other.now.disagreements }
        ensures popped { self.new.popped ≡ other.now.popped }
    {
        self.wait = other.wait;
        self.wait_kind = other.wait_kind;
        self.ahead = other.ahead;
        self.current = other.current;
        self.lanes = other.lanes;
        copy_each(self.columns.as_mut_slice(), other.columns.as_slice());
        self.layout.copy_from(&other.layout);
        self.cleared = other.cleared;
        self.is_quiet = other.is_quiet;
        self.table.copy_from(&other.table);
        self.popped = other.popped;
    }

    /// Holds each section in its column.
    pub(crate) fn keep(&mut self, sections: &[ColumnSection<'_>])
        requires { All (λ (s : ColumnSectionData). s.column < length self.old.state.columns)
            sections.now }
        ensures state { self.new.state ≡ after_hold self.old.state (map section_part sections.now) }
        ensures unchanged { Unchanged self.old self.new }
    {
        columns::hold(self.columns.as_mut_slice(), sections);
        self.is_quiet = false;
    }

    /// Takes out the first row that waits.
    pub(crate) fn take_due(&mut self) -> Option<DueRow>
        ensures answer { option_map row_view result ≡ table.pop_answer self.old.state.content }
        ensures state { self.new.state ≡ after_pop_of self.old.state }
        ensures sizes { KeepsSizes self.old.state self.new.state }
        ensures in_force { in_force_in self.new.state ≡ in_force_in self.old.state }
        ensures memory { self.new.memory ≡ self.old.memory }
        ensures disagreements { self.new.disagreements ≡ self.old.disagreements }
        ensures rises { IfSome result (λ row. self.old.popped < row.instant) }
        ensures popped { self.new.popped ≡
            popped_after (option_map row_view result) self.old.popped }
    {
        let row = self.table.pop_due();
        if let Some(row) = &row {
            self.popped = row.instant;
        }
        row
    }

    /// Takes out the first row that waits, and hands it out in place of this one. Whether there was one.
    pub(crate) fn take_into(&mut self, row: &mut HeldBox<DueRow>) -> bool
        ensures answer { popped_into result row.new ≡ table.pop_answer self.old.state.content }
        ensures none { result ≡ false → row.new ≡ row.old }
        ensures state { self.new.state ≡ after_pop_of self.old.state }
        ensures sizes { KeepsSizes self.old.state self.new.state }
        ensures in_force { in_force_in self.new.state ≡ in_force_in self.old.state }
        ensures memory { self.new.memory ≡ self.old.memory }
        ensures disagreements { self.new.disagreements ≡ self.old.disagreements }
        ensures rises { IfSome (popped_into result row.new)
            (λ (popped : RowView). self.old.popped < popped.instant) }
        ensures popped { self.new.popped ≡
            popped_after (popped_into result row.new) self.old.popped }
    {
        let is_some = self.table.pop_into(row);
        if is_some {
            self.popped = row.get().instant;
        }
        is_some
    }

    /// The instant of the first row that waits.
    pub(crate) fn next(&self) -> Option<u64>
        ensures { result ≡ table.next_answer self.now.state.content }
    {
        self.table.next_due()
    }

    /// Whether the lowest open row was brought all that it waits for.
    pub(crate) fn has_whole_row(&self) -> bool
        ensures { result ≡ table.whole_answer self.now.state.content }
    {
        self.table.is_whole()
    }

    /// The layout under which rows close.
    pub(crate) fn layout(&self) -> RowLayout
        ensures { layout_view result ≡ row_layout_in self.now.state }
    {
        RowLayout::new(
            self.layout.start,
            self.layout.change,
            columns::shapes(self.columns.as_slice()),
        )
    }

    /// The counts that wait to be stored.
    pub(crate) fn counts(&self) -> [u16; MAX_PMUS]
        ensures { result ≡ waiting_in self.now.state }
    {
        columns::waiting(self.columns.as_slice())
    }
}
