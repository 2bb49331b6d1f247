//! The row of an instant that is open.
ghost use Rattle.std.specs.Prelude.{◌≡◌, ◌+◌, ◌<◌, ◌≤◌, ◌++◌, IfOk, IfSome, OnErr, drop, length};
ghost use Rattle.std.specs.Prelude.{Some};
ghost use Rattle.pdc_columns.specs.pdc_memory.Asking.{SomeWasRefused};
ghost use Rattle.std.specs.Prelude.{if◌then◌else◌, replicate, true};
ghost use Rattle.pdc_columns.specs.pdc_row.Quality.{quality_of, worst_of};
ghost use Rattle.pdc_columns.specs.pdc_row.RowView.{row_view};
ghost use Rattle.pdc_columns.specs.Views.{empty_column};
ghost use Rattle.pdc_open_row.specs.Views.{at_age, blank_row, spent};
ghost use Rattle.pdc_open_row.specs.Views.{without_instant};
ghost use Rattle.pdc_columns.specs.Giving.{blocks_of, qualities_of};
ghost use Rattle.pdc_open_row.specs.Row.{row_of};
ghost use Rattle.pdc_open_row.specs.Due.{all_taken, is_due};
ghost use Rattle.pdc_columns.specs.Taking.{HaveColumns, conflicts};
ghost use Rattle.pdc_open_row.specs.Taking.{answer_at, is_taken};
ghost use Rattle.pdc_open_row.specs.Taking.{with_frame, without_column, without_stream};
ghost use Rattle.pdc_columns.specs.Twin.{IsTwin, lowest};
ghost use Rattle.pdc_columns.specs.Chosen.{disagreements_of};
ghost use Rattle.pdc_columns.specs.Layout.{layout_view};
ghost use Rattle.pdc_columns.specs.ColumnParts.{worst_kept};

use crate::streams::{all_taken, falses};
use crate::{PutOutcome, WaitRule};
use arrayvec::ArrayVec;
use pdc_columns::{
    Blocks, Columns, CopyFrom, DueRow, HeldBox, MAX_COLUMNS, RowBlocks, RowLayout, copy_items,
};
use std::alloc::{AllocError, Global};
use std::marker::Model;

/// For how many streams and columns a row has a place.
#[derive(Clone, Copy)]
pub struct Places {
    pub streams: usize,
    pub columns: usize,
}

/// The row of an instant that is open. It counts no ticks: its age stands with whoever keeps it.
#[derive(Drop)]
pub struct OpenRow {
    instant: u64,
    /// Whether a cell was put into lane 1 since the row began: where not, no column can disagree.
    has_second: bool,
    /// Which streams were taken.
    taken: ArrayVec<bool, MAX_COLUMNS>,
    columns: Columns,
}

impl Model for OpenRow {
    ghost use Rattle.std.specs.Prelude.{◌≡◌, false};
    ghost use Rattle.pdc_columns.specs.Taking.{any_second};
    ghost use Rattle.pdc_open_row.specs.Views.{OpenRowView};

    ghost Value = { OpenRowView };

    ghost view = { λ row. record {
      instant = row.instant;
      age = 0;
      taken = row.taken.items;
      columns = row.columns;
    } };

    ghost invariant = { λ row. row.has_second ≡ false → any_second row.columns ≡ false };
}

impl OpenRow {
    /// The row of an instant in which nothing was taken.
    ///
    /// # Errors
    ///
    /// [`AllocError`] where a request for its memory was refused.
    pub fn blank(alloc: Global, instant: u64, places: Places) -> Result<OpenRow, AllocError>
        requires streams { places.streams ≤ MAX_COLUMNS }
        requires columns { places.columns ≤ MAX_COLUMNS }
        ensures row { IfOk result (λ row. row ≡ blank_row places.streams places.columns instant) }
        ensures refused { OnErr result SomeWasRefused }
    {
        Ok(OpenRow {
            instant,
            has_second: false,
            taken: falses(places.streams),
            columns: Columns::blank(alloc, places.columns)?,
        })
    }

    /// Makes this the row of an instant in which nothing was taken.
    #[inline(never)]
    pub fn begin(&mut self, instant: u64)
        ensures { self.new ≡ blank_row (length self.old.taken) (length self.old.columns) instant }
    {
        self.instant = instant;
        self.has_second = false;
        self.taken.as_mut_slice().fill(false);
        self.columns.forget_all();
    }

    /// Lays this row out as another one, if it is new: so that the blocks which come have their places. It shows nothing of it.
    #[inline(never)]
    pub fn lay_out_as(&mut self, other: &OpenRow)
        ensures { self.new ≡ self.old }
    {
        self.columns.lay_out_as(&other.columns);
    }

    /// Whether it is known of all columns at once that they hold nothing: only then is the row laid out as another.
    #[inline(always)]
    pub fn is_new(&self) -> bool
        ensures { result ≡ true → self.now.columns ≡
            replicate (length self.now.columns) empty_column }
    {
        self.columns.are_new()
    }

    /// Makes this a row of no instant.
    pub fn leave(&mut self)
        ensures { self.new ≡ without_instant self.old }
    {
        self.instant = 0;
    }

    /// The instant.
    pub fn instant(&self) -> u64
        ensures { result ≡ self.now.instant }
    {
        self.instant
    }

    /// The blocks that the lowest lane holds which holds any, where it holds one of each column and that is known of all at once: for a look whether
    /// those of a frame are the same.
    #[inline(always)]
    pub fn lowest_blocks(&self) -> Option<&RowBlocks>
        ensures { IfSome result (λ blocks. blocks.now ≡ lowest self.now.columns) }
    {
        self.columns.lowest_blocks()
    }

    /// Takes a frame of the stream: its blocks go into their columns, in this lane.
    #[inline(always)]
    pub fn take<C: Blocks>(&mut self, stream: usize, lane: usize, blocks: &C, quality: u8)
        requires stream { stream < length self.old.taken }
        requires columns { HaveColumns (C.cells blocks.now quality) self.old.columns }
        requires twin { IsTwin (C.twin blocks.now) self.old.columns }
        ensures { self.new ≡ with_frame stream lane (C.cells blocks.now quality) self.old }
    {
        self.taken[stream] = true;
        blocks.put(
            &mut self.columns,
            lane,
            quality,
            lane == 0 && !self.has_second,
        );
        if lane != 0 {
            self.has_second = true;
        }
    }

    /// Takes the frame, unless the stream was taken already: then the first stays.
    #[inline(always)]
    pub fn offer<C: Blocks>(
        &mut self,
        stream: usize,
        lane: usize,
        blocks: &C,
        quality: u8,
    ) -> PutOutcome
        requires stream { stream < length self.old.taken }
        requires columns { HaveColumns (C.cells blocks.now quality) self.old.columns }
        requires twin { IsTwin (C.twin blocks.now) self.old.columns }
        ensures answer { result ≡ answer_at (Some self.old) stream lane
            (C.cells blocks.now quality) }
        ensures row { self.new ≡ (if is_taken (answer_at (Some self.old) stream lane
            (C.cells blocks.now quality))
            then with_frame stream lane (C.cells blocks.now quality) self.old else self.old) }
    {
        if self.taken[stream] {
            return if self.conflicts(lane, blocks, quality) {
                PutOutcome::Conflict
            } else {
                PutOutcome::Duplicate
            };
        }
        self.take(stream, lane, blocks, quality);
        PutOutcome::Taken
    }

    /// Whether some of these blocks differs from what this lane of its column holds.
    pub(crate) fn conflicts<C: Blocks>(&self, lane: usize, blocks: &C, quality: u8) -> bool
        requires { HaveColumns (C.cells blocks.now quality) self.now.columns }
        ensures { result ≡ conflicts lane (C.cells blocks.now quality) self.now.columns }
    {
        blocks.conflict(&self.columns, lane, quality)
    }

    /// Forgets what was taken of a stream: with one lane its own column, with two its lane of each column.
    pub fn drop_stream(&mut self, lanes: usize, stream: usize)
        requires taken { stream < length self.old.taken }
        requires column { lanes ≡ 1 → stream < length self.old.columns }
        ensures { self.new ≡ without_stream lanes stream self.old }
    {
        self.taken[stream] = false;
        if lanes == 1 {
            self.columns.forget(stream);
        } else {
            self.columns.forget_lane(stream);
        }
    }

    /// Forgets the cells of a column; the streams stay taken.
    pub fn drop_column(&mut self, column: usize)
        requires { column < length self.old.columns }
        ensures { self.new ≡ without_column column self.old }
    {
        self.columns.forget(column);
    }

    /// Whether every required stream was taken.
    pub fn is_whole(&self, required: &[bool]) -> bool
        ensures { result ≡ all_taken required.now self.now.taken }
    {
        all_taken(required, self.taken.as_slice())
    }

    /// Whether every required stream was taken, or the wait is over, at this age.
    #[inline(always)]
    pub fn is_due(&self, age: u64, required: &[bool], rule: WaitRule) -> bool
        ensures { result ≡ is_due required.now rule (at_age age self.now) }
    {
        rule.is_over(age, self.instant) || self.is_whole(required)
    }

    /// How many columns with a shape hold present blocks in both lanes that differ.
    pub fn disagreements(&self, layout: &RowLayout) -> u64
        ensures value { result ≡ disagreements_of (layout_view layout.now).shapes self.now.columns }
        ensures most { result ≤ MAX_COLUMNS }
    {
        if !self.has_second {
            return 0;
        }
        self.columns.disagreements(layout.shapes.as_slice())
    }

    /// The row that it closes to.
    pub fn close(&self, layout: &RowLayout) -> DueRow
        ensures { row_view result ≡ row_of (layout_view layout.now) self.now }
    {
        let mut blocks = RowBlocks::new();
        let quality = self
            .columns
            .give_each(layout.shapes.as_slice(), &mut blocks);
        DueRow {
            instant: self.instant,
            start: layout.start,
            change: layout.change,
            quality,
            blocks,
        }
    }

    /// Hands out the row that it closes to: nearly always that in which its blocks were put, and the one that was lent stays in its place. Else it
    /// is written block after block over the one that was lent. Then no column holds anything.
    pub fn hand_out(&mut self, layout: &RowLayout, row: &mut HeldBox<DueRow>)
        ensures row { row_view row.new.value ≡ row_of (layout_view layout.now) self.old }
        ensures spent { self.new ≡ spent self.old }
    {
        let quality = self.columns.hand_out(layout, row);
        let row = row.get_mut();
        row.instant = self.instant;
        row.start = layout.start;
        row.change = layout.change;
        row.quality = quality;
    }

    /// Takes the memory of the other row's blocks and gives it its own, where it is known that neither row holds anything: so the blocks that come
    /// are put where those of another row were a moment ago. Whether it did. It shows nothing of it.
    pub fn trade(&mut self, other: &mut OpenRow) -> bool
        ensures own { self.new ≡ self.old }
        ensures other { other.new ≡ other.old }
    {
        self.columns.trade(&mut other.columns)
    }
}

impl CopyFrom for OpenRow {
    fn copy_from(&mut self, other: &OpenRow) {
        self.instant = other.instant;
        self.has_second = other.has_second;
        copy_items(&mut self.taken, other.taken.as_slice());
        self.columns.copy_from(&other.columns);
    }
}
