//! The calls of an alignment, said of every life that it stands for: each is a step, and the laws by which the step follows the life.
ghost use Rattle.std.specs.Prelude.{◌≡◌, ◌<◌, ◌≤◌, [], ◌∷◌, ℕ, List, IfOk, IfSome, None, Option, false};
ghost use Rattle.std.specs.Prelude.{length, map, option_map, OnErr};
ghost use Rattle.pdc_table.specs.pdc_memory.Asking.{SomeWasRefused};
ghost use Rattle.std.specs.List.{All};
ghost use Rattle.pdc_arrival.specs.pdc_row.declared.output.Output.{Output};
ghost use Rattle.pdc_arrival.specs.pdc_block.Block.{words_in};
ghost use Rattle.pdc_arrival.specs.pdc_row.RowView.{RowView, row_view};
ghost use Rattle.pdc_table.specs.Content.{IsPut};
ghost use Rattle.pdc_table.specs.KeptRow.{popped_into};
ghost use Rattle.pdc_table.specs.pdc_columns.Layout.{layout_view};
ghost use Rattle.pdc_table.specs.pdc_columns.Parts.{cut_cells};
ghost use Rattle.pdc_table.specs.pdc_columns.Taking.{body_cells_of};
ghost use Rattle.pdc_table.specs.pdc_columns.Twin.{twin_of};
ghost use Rattle.pdc_table.specs.pdc_open_row.Twin.{IsTwinIn};
ghost use Rattle.pdc_table.specs.Placing.{row_at};
ghost use Rattle.pdc_arrival.specs.Views.{section_part};
ghost use Rattle.pdc_arrival.specs.declared.arrival.ColumnSection.{ColumnSection as ColumnSectionData};
ghost use Rattle.pdc_arrival.specs.pdc_life.Answer.{bare, outcome_in_time, pop_answer};
ghost use Rattle.pdc_arrival.specs.pdc_life.Answer.{tick_answer, waiting_counts, with_cells};
ghost use Rattle.pdc_arrival.specs.pdc_life.Arrival.{Data, Layout, Stamp};
ghost use Rattle.pdc_arrival.specs.pdc_life.Given.{Given};
ghost use Rattle.pdc_arrival.specs.pdc_life.Life.{Arrive, Entry, Pop, Tick, changes};
ghost use Rattle.pdc_arrival.specs.pdc_life.Row.{is_whole};
ghost use Rattle.pdc_arrival.specs.pdc_life.Run.{IsRun};
ghost use Rattle.pdc_arrival.specs.pdc_life.declared.outcome.Outcome.TheVariants.{Candidate};
ghost use Rattle.pdc_align.specs.State.{row_layout_of};
ghost use Rattle.pdc_align.specs.Align.{HasSizes, KeepsSizes, StandsFor, Unchanged, given_by};
ghost use Rattle.pdc_align.specs.Align.{in_force_in, ticked_of};
ghost use Rattle.pdc_align.specs.Popped.{popped_after};
ghost use Rattle.pdc_align.specs.Calls.{disagreements_at};

use crate::closing_laws::{rows_are_those, tick_is_tick};
use crate::state_laws::{answers_agree, others_leave_it, take_is_take};
use crate::{Alignment, Plan, Ticked};
use pdc_arrival::{Body, ColumnSection, MAX_PMUS, Outcome};
use pdc_table::{Cut, DueRow, HeldBox, Part, RowLayout, Table};
use std::alloc::{AllocError, Global};

impl<T: Table> Alignment<T> {
    /// The alignment at the start of a life: the number of the start, the instant up to which all is published, for each column the
    /// count below which no section is held, and what counts as now until the first tick.
    ///
    /// # Errors
    ///
    /// [`AllocError`] where a request for memory was refused. No other call makes one.
    pub fn new(
        alloc: Global,
        plan: Plan,
        start: u32,
        floor: u64,
        counts: &[u16; MAX_PMUS],
        now: u64,
    ) -> Result<Alignment<T>, AllocError>
        ensures stands { IfOk result (λ a. (output : Output) →
            StandsFor (given_by plan output start floor counts.now now) [] a.state) }
        ensures sizes { IfOk result (λ a. HasSizes plan.columns plan.lanes a.state) }
        ensures disagreements { IfOk result (λ a. a.disagreements ≡ 0) }
        ensures popped { IfOk result (λ a. a.popped ≡ floor) }
        ensures refused { OnErr result SomeWasRefused }
    {
        Alignment::first(alloc, plan, start, floor, counts, now)
    }

    /// Offers data of a stream for an instant: its blocks, lent from the payload, each with its column, and its time quality byte. The answer is the end
    /// of what a concentrator answers to data.
    pub fn put(
        &mut self,
        stream: usize,
        instant: u64,
        cells: &[(usize, Body<'_>)],
        quality: u8,
    ) -> Outcome
        requires { IsPut self.old.state.content stream (body_cells_of cells.now quality) }
        ensures answer { (g : Given) (E : List Entry) → StandsFor g E self.old.state →
            result ≡ outcome_in_time g E stream instant (body_cells_of cells.now quality) }
        ensures stands { (g : Given) (E : List Entry) (bytes payload : List ℕ) →
            StandsFor g E self.old.state →
            IsRun g (Arrive stream bytes (Data instant quality payload)
            (with_cells result (body_cells_of cells.now quality)) ∷ E) →
            StandsFor g (Arrive stream bytes (Data instant quality payload)
            (with_cells result (body_cells_of cells.now quality)) ∷ E) self.new.state }
        ensures unchanged { Unchanged self.old self.new }
    {
        answers_agree();
        take_is_take();
        others_leave_it();
        self.offer(stream, instant, cells, quality)
    }

    /// The same, with blocks that lie one after the other in the payload of a frame. It may be known that they are those that the lowest lane holds
    /// of the instant which holds any.
    pub fn put_parts<P: Part>(
        &mut self,
        stream: usize,
        instant: u64,
        cut: &Cut<'_, P>,
        quality: u8,
    ) -> Outcome
        requires put { IsPut self.old.state.content stream
            (cut_cells P.column_of P.shape_of cut.now.parts.now quality
            (words_in cut.now.bytes.now)) }
        requires few { length cut.now.parts.now ≤ MAX_PMUS }
        requires twin { IsTwinIn (twin_of cut.now.is_twin cut.now.bytes.now)
            (row_at instant self.old.state.content.open_rows) }
        ensures answer { (g : Given) (E : List Entry) → StandsFor g E self.old.state →
            result ≡ outcome_in_time g E stream instant
            (cut_cells P.column_of P.shape_of cut.now.parts.now quality
            (words_in cut.now.bytes.now)) }
        ensures stands { (g : Given) (E : List Entry) (datagram payload : List ℕ) →
            StandsFor g E self.old.state →
            IsRun g (Arrive stream datagram (Data instant quality payload)
            (with_cells result (cut_cells P.column_of P.shape_of cut.now.parts.now quality
            (words_in cut.now.bytes.now))) ∷ E) →
            StandsFor g (Arrive stream datagram (Data instant quality payload)
            (with_cells result (cut_cells P.column_of P.shape_of cut.now.parts.now quality
            (words_in cut.now.bytes.now))) ∷ E) self.new.state }
        ensures unchanged { Unchanged self.old self.new }
    {
        answers_agree();
        take_is_take();
        others_leave_it();
        self.offer_parts(stream, instant, cut, quality)
    }

    /// Holds the sections of a layout that is a candidate, each in its column: of the greatest count, the first of that count.
    pub fn hold(&mut self, sections: &[ColumnSection<'_>])
        requires { All (λ (s : ColumnSectionData). s.column < length self.old.state.columns)
            sections.now }
        ensures stands { (g : Given) (E : List Entry) (stream : ℕ) (bytes : List ℕ)
            (stamp : Option Stamp) → StandsFor g E self.old.state →
            IsRun g (Arrive stream bytes (Layout stamp (map section_part sections.now))
            (bare Candidate) ∷ E) →
            StandsFor g (Arrive stream bytes (Layout stamp (map section_part sections.now))
            (bare Candidate) ∷ E) self.new.state }
        ensures unchanged { Unchanged self.old self.new }
    {
        others_leave_it();
        self.keep(sections);
    }

    /// A tick with its now, and for each column the count up to which it is cleared: rows close under the layout before it, and then
    /// the columns that are ready are adopted, where a change number is left.
    pub fn tick(&mut self, now: u64, counts: &[u16; MAX_PMUS]) -> Ticked
        ensures answer { (g : Given) (E : List Entry) → StandsFor g E self.old.state →
            result ≡ ticked_of (changes E) (tick_answer g E now counts.now) }
        ensures stands { (g : Given) (E : List Entry) → StandsFor g E self.old.state →
            StandsFor g (Tick now counts.now (tick_answer g E now counts.now) ∷ E) self.new.state }
        ensures sizes { KeepsSizes self.old.state self.new.state }
        // Where nothing was adopted, the sections in force are the same.
        ensures in_force { result.change ≡ None →
            in_force_in self.new.state ≡ in_force_in self.old.state }
        ensures memory { self.new.memory ≡ self.old.memory }
        ensures disagreements { self.new.disagreements ≡
            disagreements_at self.old.disagreements self.old.state now }
        ensures popped { self.new.popped ≡ self.old.popped }
    {
        rows_are_those();
        tick_is_tick();
        self.step(now, counts)
    }

    /// The lowest closed row that was not popped.
    pub fn pop_due(&mut self) -> Option<DueRow>
        ensures answer { (g : Given) (E : List Entry) → StandsFor g E self.old.state →
            option_map row_view result ≡ pop_answer E }
        ensures stands { (g : Given) (E : List Entry) → StandsFor g E self.old.state →
            StandsFor g (Pop (pop_answer E) ∷ E) self.new.state }
        ensures sizes { KeepsSizes self.old.state self.new.state }
        ensures in_force { in_force_in self.new.state ≡ in_force_in self.old.state }
        ensures memory { self.new.memory ≡ self.old.memory }
        ensures disagreements { self.new.disagreements ≡ self.old.disagreements }
        // Its instant is above all that were popped before, and above the floor.
        ensures rises { IfSome result (λ row. self.old.popped < row.instant) }
        ensures popped { self.new.popped ≡
            popped_after (option_map row_view result) self.old.popped }
    {
        self.take_due()
    }

    /// Takes the lowest closed row that was not popped, and hands it out in place of this one. Whether there was one; else the row stays.
    pub fn pop_into(&mut self, row: &mut HeldBox<DueRow>) -> bool
        ensures answer { (g : Given) (E : List Entry) → StandsFor g E self.old.state →
            popped_into result row.new ≡ pop_answer E }
        ensures none { result ≡ false → row.new ≡ row.old }
        ensures stands { (g : Given) (E : List Entry) → StandsFor g E self.old.state →
            StandsFor g (Pop (pop_answer E) ∷ E) self.new.state }
        ensures sizes { KeepsSizes self.old.state self.new.state }
        ensures in_force { in_force_in self.new.state ≡ in_force_in self.old.state }
        ensures memory { self.new.memory ≡ self.old.memory }
        ensures disagreements { self.new.disagreements ≡ self.old.disagreements }
        // Its instant is above all that were popped before, and above the floor.
        ensures rises { IfSome (popped_into result row.new)
            (λ (popped : RowView). self.old.popped < popped.instant) }
        ensures popped { self.new.popped ≡
            popped_after (popped_into result row.new) self.old.popped }
    {
        self.take_into(row)
    }

    /// The instant of the lowest closed row that was not popped.
    pub fn next_due(&self) -> Option<u64>
        ensures { (g : Given) (E : List Entry) → StandsFor g E self.now.state →
            result ≡ option_map (λ row. row.instant) (pop_answer E) }
    {
        self.next()
    }

    /// Whether the lowest open instant is whole: each stream that it waits for has come. Where none is open, none is.
    pub fn is_whole(&self) -> bool
        ensures { (g : Given) (E : List Entry) → StandsFor g E self.now.state →
            result ≡ is_whole g E }
    {
        self.has_whole_row()
    }

    /// The layout under which rows close now: the stamp, and the shapes in force.
    pub fn row_layout(&self) -> RowLayout
        ensures { (g : Given) (E : List Entry) → StandsFor g E self.now.state →
            layout_view result ≡ row_layout_of g E }
    {
        self.layout()
    }

    /// For each column the count that waits to be stored: the greater of the cleared and the held one; 0 past the last column.
    pub fn waiting(&self) -> [u16; MAX_PMUS]
        ensures { (g : Given) (E : List Entry) → StandsFor g E self.now.state →
            result ≡ waiting_counts g E }
    {
        self.counts()
    }
}
