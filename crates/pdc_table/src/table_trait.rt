//! What every table promises, however it is kept.
ghost use Rattle.std.specs.Prelude.{◌≡◌, ℕ, ◌<◌, ◌≤◌, false, List, length, map, IfOk, option_map};
ghost use Rattle.std.specs.Prelude.{IfSome, OnErr, Some};
ghost use Rattle.pdc_open_row.specs.pdc_memory.Asking.{SomeWasRefused};
ghost use Rattle.std.specs.List.{AllByRecursion};
ghost use Rattle.pdc_open_row.specs.pdc_row.RowView.{RowView, row_view};
ghost use Rattle.pdc_open_row.specs.pdc_block.Block.{words_in};
ghost use Rattle.pdc_table.specs.Content.{Content, HasSizesOf, HaveLayoutShapes, IsContent};
ghost use Rattle.pdc_table.specs.Content.{IsPut, new_content, streams_of};
ghost use Rattle.pdc_table.specs.KeptRow.{popped_into};
ghost use Rattle.pdc_open_row.specs.pdc_columns.Layout.{layout_view};
ghost use Rattle.pdc_open_row.specs.pdc_columns.Parts.{cut_cells};
ghost use Rattle.pdc_table.specs.Steps.{after_drop_column, after_drop_stream, after_pop};
ghost use Rattle.pdc_table.specs.Steps.{after_put, after_require, after_tick, closed_by};
ghost use Rattle.pdc_table.specs.Steps.{disagreements_after, next_answer, pop_answer, put_answer};
ghost use Rattle.pdc_table.specs.Steps.{shape_of, shapes_given, tick_answer, whole_answer};
ghost use Rattle.pdc_open_row.specs.pdc_columns.Taking.{body_cells_of, cells_of};
ghost use Rattle.pdc_open_row.specs.pdc_columns.Twin.{lowest, twin_of};
ghost use Rattle.pdc_open_row.specs.Twin.{IsTwinIn};
ghost use Rattle.pdc_open_row.specs.Views.{OpenRowView};
ghost use Rattle.pdc_table.specs.Placing.{row_at};

use crate::{
    MAX_COLUMNS, MAX_LANES, MAX_WINDOW, MIN_WINDOW, PutOutcome, RowLayout, WaitRule, cut_bodies,
    new_room,
};
use pdc_open_row::{Block, Body, Cut, DueRow, HeldBox, Part, RowBlocks};
use std::alloc::{AllocError, Global};

/// A table that aligns the streams of a concentrator by instant.
///
/// It has 1 to 16 columns, one for each PMU, and 1 or 2 lanes. With one lane there is a stream for each column, which
/// writes that column; with two lanes there are two streams, and each writes its lane of all columns.
/// An instant is open from its first take until a tick closes it, and held until its row is popped.
pub trait Table: Drop {
    /// What it contains, however it is kept.
    ghost content: { Self → Content };

    /// How often, at a closing, a column with a shape had present blocks in both lanes that differed, as a counter tells it.
    ghost disagreements: { Self → ℕ };

    /// The memory that it holds: for each buffer how many places it has. No call but `new` changes it.
    ghost memory: { Self → List ℕ };

    /// An empty table, which takes all the memory that it ever needs. The window is 8 to 256 instants; the floor counts as
    /// the last instant closed.
    ///
    /// # Errors
    ///
    /// [`AllocError`] where a request for that memory was refused.
    fn new(
        alloc: Global,
        window: u64,
        columns: usize,
        lanes: usize,
        floor: u64,
    ) -> Result<Self, AllocError>
    where
        Self: Sized,
        requires window_least { MIN_WINDOW ≤ window }
        requires window_most { window ≤ MAX_WINDOW }
        requires columns_least { 1 ≤ columns }
        requires columns_most { columns ≤ MAX_COLUMNS }
        requires lanes_least { 1 ≤ lanes }
        requires lanes_most { lanes ≤ MAX_LANES }
        ensures content { IfOk result (λ table. content table ≡
            new_content window columns lanes floor) }
        ensures well_formed { IfOk result (λ table. IsContent (content table)) }
        ensures disagreements { IfOk result (λ table. disagreements table ≡ 0) }
        ensures refused { OnErr result SomeWasRefused };

    /// Offers a frame of a stream for an instant: its blocks, each with its column, and its time quality byte.
    ///
    /// The blocks are of columns that the stream writes, each at most once; there may be none.
    fn put(
        &mut self,
        stream: usize,
        instant: u64,
        cells: &[(usize, Block)],
        quality: u8,
    ) -> PutOutcome
        requires { IsPut (content self.old) stream (cells_of cells.now quality) }
        ensures answer { result ≡ put_answer (content self.old) stream instant
            (cells_of cells.now quality) }
        ensures content { content self.new ≡
            after_put (content self.old) stream instant (cells_of cells.now quality) }
        ensures disagreements { disagreements self.new ≡ disagreements self.old }
        ensures sizes { HasSizesOf (content self.old) (content self.new) }
        ensures memory { memory self.new ≡ memory self.old }
        ensures well_formed { IsContent (content self.new) };

    /// As `put`, with blocks that are lent from the payload that brought them: their words are copied once, to where the table keeps them.
    fn put_bodies(
        &mut self,
        stream: usize,
        instant: u64,
        cells: &[(usize, Body<'_>)],
        quality: u8,
    ) -> PutOutcome
        requires { IsPut (content self.old) stream (body_cells_of cells.now quality) }
        ensures answer { result ≡ put_answer (content self.old) stream instant
            (body_cells_of cells.now quality) }
        ensures content { content self.new ≡
            after_put (content self.old) stream instant (body_cells_of cells.now quality) }
        ensures disagreements { disagreements self.new ≡ disagreements self.old }
        ensures sizes { HasSizesOf (content self.old) (content self.new) }
        ensures memory { memory self.new ≡ memory self.old }
        ensures well_formed { IsContent (content self.new) };

    /// As `put_bodies`, with blocks that lie one after the other in the payload of a frame. It may be known that they are those that the lowest lane
    /// holds of the instant which holds any.
    fn put_parts<P: Part>(
        &mut self,
        stream: usize,
        instant: u64,
        cut: &Cut<'_, P>,
        quality: u8,
    ) -> PutOutcome
        requires put { IsPut (content self.old) stream
            (cut_cells P.column_of P.shape_of cut.now.parts.now quality
            (words_in cut.now.bytes.now)) }
        requires few { length cut.now.parts.now ≤ MAX_COLUMNS }
        requires twin { IsTwinIn (twin_of cut.now.is_twin cut.now.bytes.now)
            (row_at instant (content self.old).open_rows) }
        ensures answer { result ≡ put_answer (content self.old) stream instant
            (cut_cells P.column_of P.shape_of cut.now.parts.now quality
            (words_in cut.now.bytes.now)) }
        ensures content { content self.new ≡ after_put (content self.old) stream instant
            (cut_cells P.column_of P.shape_of cut.now.parts.now quality
            (words_in cut.now.bytes.now)) }
        ensures disagreements { disagreements self.new ≡ disagreements self.old }
        ensures sizes { HasSizesOf (content self.old) (content self.new) }
        ensures memory { memory self.new ≡ memory self.old }
        ensures well_formed { IsContent (content self.new) }
    {
        let mut bodies = new_room();
        let count = cut_bodies(cut.parts, cut.bytes, &mut bodies, 0);
        self.put_bodies(stream, instant, &bodies[..count], quality)
    }

    /// Makes this the table that the other one is, which has its sizes.
    fn copy_from(&mut self, other: &Self)
        requires { HasSizesOf (content other.now) (content self.old) }
        ensures content { content self.new ≡ content other.now }
        ensures disagreements { disagreements self.new ≡ disagreements other.now }
        ensures memory { memory self.new ≡ memory self.old }
        ensures well_formed { IsContent (content self.new) };

    /// Sets whether an instant waits for the stream. In a new table none is waited for.
    fn require(&mut self, stream: usize, is_required: bool)
        requires { stream < streams_of (content self.old) }
        ensures content { content self.new ≡ after_require (content self.old) stream is_required }
        ensures disagreements { disagreements self.new ≡ disagreements self.old }
        ensures sizes { HasSizesOf (content self.old) (content self.new) }
        ensures memory { memory self.new ≡ memory self.old }
        ensures well_formed { IsContent (content self.new) };

    /// Counts one more tick for each open instant, closes those for which every open one up to them is due, and answers
    /// how many. An instant is due where every required stream was taken, or where the rule says that its wait is over.
    ///
    /// Where the cells of the open instants have the shapes of the layout, so have the blocks of the rows that close.
    fn tick(&mut self, rule: WaitRule, layout: &RowLayout) -> u32
        ensures answer { result ≡ tick_answer (content self.old) rule }
        ensures content { content self.new ≡
            after_tick (content self.old) rule (layout_view layout.now) }
        ensures shapes { HaveLayoutShapes (content self.old) (layout_view layout.now) →
            AllByRecursion (λ (row : RowView). map shape_of row.blocks ≡
            shapes_given (layout_view layout.now).shapes)
            (closed_by (content self.old) rule (layout_view layout.now)) }
        ensures disagreements { disagreements self.new
            ≡ disagreements_after (disagreements self.old) (content self.old) rule
            (layout_view layout.now) }
        ensures sizes { HasSizesOf (content self.old) (content self.new) }
        ensures memory { memory self.new ≡ memory self.old }
        ensures well_formed { IsContent (content self.new) };

    /// Takes the stream out of every open instant, as if it had not been taken. The instants stay open.
    fn drop_stream(&mut self, stream: usize)
        requires { stream < streams_of (content self.old) }
        ensures content { content self.new ≡ after_drop_stream (content self.old) stream }
        ensures disagreements { disagreements self.new ≡ disagreements self.old }
        ensures sizes { HasSizesOf (content self.old) (content self.new) }
        ensures memory { memory self.new ≡ memory self.old }
        ensures well_formed { IsContent (content self.new) };

    /// Takes the cells of the column out of every open instant, and leaves the streams taken. The instants stay open.
    fn drop_column(&mut self, column: usize)
        requires { column < (content self.old).columns }
        ensures content { content self.new ≡ after_drop_column (content self.old) column }
        ensures disagreements { disagreements self.new ≡ disagreements self.old }
        ensures sizes { HasSizesOf (content self.old) (content self.new) }
        ensures memory { memory self.new ≡ memory self.old }
        ensures well_formed { IsContent (content self.new) };

    /// The lowest closed row that was not popped.
    fn pop_due(&mut self) -> Option<DueRow>
        ensures answer { option_map row_view result ≡ pop_answer (content self.old) }
        ensures content { content self.new ≡ after_pop (content self.old) }
        ensures disagreements { disagreements self.new ≡ disagreements self.old }
        ensures sizes { HasSizesOf (content self.old) (content self.new) }
        ensures memory { memory self.new ≡ memory self.old }
        ensures well_formed { IsContent (content self.new) };

    /// Takes the lowest closed row that was not popped, and hands it out in place of this one, whose memory it may keep for a row that comes: so
    /// nearly always no block is copied. Whether there was one; else the row stays.
    fn pop_into(&mut self, row: &mut HeldBox<DueRow>) -> bool
        ensures answer { popped_into result row.new ≡ pop_answer (content self.old) }
        ensures none { result ≡ false → row.new ≡ row.old }
        ensures content { content self.new ≡ after_pop (content self.old) }
        ensures disagreements { disagreements self.new ≡ disagreements self.old }
        ensures sizes { HasSizesOf (content self.old) (content self.new) }
        ensures memory { memory self.new ≡ memory self.old }
        ensures well_formed { IsContent (content self.new) }
    {
        match self.pop_due() {
            Some(due) => {
                *row.get_mut() = due;
                true
            }
            None => false,
        }
    }

    /// The blocks that the lowest lane of an open instant holds which holds any, where it holds one of each column: for a look whether those of a
    /// frame are the same. That it tells them is left open.
    fn lowest_blocks(&self, instant: u64) -> Option<&RowBlocks>
        ensures { IfSome result (λ blocks. option_map (λ (row : OpenRowView). lowest row.columns)
            (row_at instant (content self.now).open_rows) ≡ Some blocks.now) }
    {
        let _ = instant;
        None
    }

    /// The instant of the lowest closed row that was not popped.
    fn next_due(&self) -> Option<u64>
        ensures { result ≡ next_answer (content self.now) };

    /// Whether the lowest open instant has all that it waits for: every required stream was taken. Where none is open, none has.
    fn is_whole(&self) -> bool
        ensures { result ≡ whole_answer (content self.now) };

    /// The greatest instant closed, at first the floor.
    fn last(&self) -> u64
        ensures { result ≡ (content self.now).last };

    /// How often, at a closing, a column with a shape had present blocks in both lanes that differed. It is a counter: it
    /// stays at its greatest value.
    fn disagree(&self) -> u64
        ensures { result ≡ disagreements self.now };
}
