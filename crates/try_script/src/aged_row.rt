//! An open row and its age.
ghost use Rattle.std.specs.Prelude.{◌≡◌, ℕ, ◌<◌, ◌≤◌, length, IfOk, OnErr, Some, if◌then◌else◌};
ghost use Rattle.std.specs.List.{All};
ghost use Rattle.pdc_memory.specs.Asking.{SomeWasRefused};
ghost use Rattle.pdc_row.specs.RowView.{row_view};
ghost use Rattle.pdc_table.specs.Closing.{aged};
ghost use Rattle.pdc_table.specs.pdc_open_row.Due.{all_taken, is_due};
ghost use Rattle.pdc_table.specs.pdc_columns.Layout.{layout_view};
ghost use Rattle.pdc_table.specs.pdc_open_row.Row.{row_of};
ghost use Rattle.pdc_table.specs.pdc_columns.Taking.{cells_in};
ghost use Rattle.pdc_table.specs.pdc_open_row.Taking.{answer_at, is_taken, with_frame, without_column, without_stream};
ghost use Rattle.pdc_table.specs.pdc_columns.Chosen.{disagreements_of};
ghost use Rattle.pdc_table.specs.pdc_open_row.Views.{blank_row};

use pdc_row::{CopyFrom, DueRow, Offered};
use pdc_table::{Listed, MAX_COLUMNS, OpenRow, Places, PutOutcome, RowLayout, WaitRule};
use std::alloc::{AllocError, Global};
use std::marker::Model;

/// The row of an instant that is open, and the ticks since its first take.
#[derive(Drop)]
pub struct AgedRow {
    row: OpenRow,
    age: u64,
}

impl Model for AgedRow {
    ghost use Rattle.pdc_table.specs.pdc_open_row.Views.{at_age, OpenRowView};

    ghost Value = { OpenRowView };

    ghost view = { λ aged. at_age aged.age aged.row };
}

impl AgedRow {
    /// The row of an instant in which nothing was taken.
    ///
    /// # Errors
    ///
    /// [`AllocError`] where a request for its memory was refused.
    pub fn blank(alloc: Global, instant: u64, places: Places) -> Result<AgedRow, AllocError>
        requires streams { places.streams ≤ MAX_COLUMNS }
        requires columns { places.columns ≤ MAX_COLUMNS }
        ensures row { IfOk result (λ row. row ≡ blank_row places.streams places.columns instant) }
        ensures refused { OnErr result SomeWasRefused }
    {
        Ok(AgedRow {
            row: OpenRow::blank(alloc, instant, places)?,
            age: 0,
        })
    }

    /// Makes this the row of an instant in which nothing was taken.
    pub fn begin(&mut self, instant: u64)
        ensures { self.new ≡ blank_row (length self.old.taken) (length self.old.columns) instant }
    {
        self.row.begin(instant);
        self.age = 0;
    }

    /// The instant.
    pub fn instant(&self) -> u64
        ensures { result ≡ self.now.instant }
    {
        self.row.instant()
    }

    /// Takes a frame of the stream: its blocks go into their columns, in this lane.
    pub fn take<B: Offered>(
        &mut self,
        stream: usize,
        lane: usize,
        cells: &[(usize, B)],
        quality: u8,
    )
        requires stream { stream < length self.old.taken }
        requires columns { All (λ (cell : ℕ × B). cell.0 < length self.old.columns) cells.now }
        ensures { self.new ≡ with_frame stream lane (cells_in B.view cells.now quality) self.old }
    {
        self.row.take(stream, lane, &Listed { cells }, quality);
    }

    /// Takes the frame, unless the stream was taken already: then the first stays.
    pub fn offer<B: Offered>(
        &mut self,
        stream: usize,
        lane: usize,
        cells: &[(usize, B)],
        quality: u8,
    ) -> PutOutcome
        requires stream { stream < length self.old.taken }
        requires columns { All (λ (cell : ℕ × B). cell.0 < length self.old.columns) cells.now }
        ensures answer { result ≡ answer_at (Some self.old) stream lane (cells_in B.view cells.now quality) }
        ensures row { self.new ≡ (if is_taken (answer_at (Some self.old) stream lane (cells_in B.view cells.now quality))
            then with_frame stream lane (cells_in B.view cells.now quality) self.old else self.old) }
    {
        self.row.offer(stream, lane, &Listed { cells }, quality)
    }

    /// Forgets what was taken of a stream: with one lane its own column, with two its lane of each column.
    pub fn drop_stream(&mut self, lanes: usize, stream: usize)
        requires taken { stream < length self.old.taken }
        requires column { lanes ≡ 1 → stream < length self.old.columns }
        ensures { self.new ≡ without_stream lanes stream self.old }
    {
        self.row.drop_stream(lanes, stream);
    }

    /// Forgets the cells of a column; the streams stay taken.
    pub fn drop_column(&mut self, column: usize)
        requires { column < length self.old.columns }
        ensures { self.new ≡ without_column column self.old }
    {
        self.row.drop_column(column);
    }

    /// Counts one more tick.
    pub fn grow_older(&mut self)
        ensures { self.new ≡ aged self.old }
    {
        self.age = self.age.saturating_add(1);
    }

    /// Whether every required stream was taken.
    pub fn is_whole(&self, required: &[bool]) -> bool
        ensures { result ≡ all_taken required.now self.now.taken }
    {
        self.row.is_whole(required)
    }

    /// Whether every required stream was taken, or the wait is over.
    pub fn is_due(&self, required: &[bool], rule: WaitRule) -> bool
        ensures { result ≡ is_due required.now rule self.now }
    {
        self.row.is_due(self.age, required, rule)
    }

    /// How many columns with a shape hold present blocks in both lanes that differ.
    pub fn disagreements(&self, layout: &RowLayout) -> u64
        ensures value { result ≡ disagreements_of (layout_view layout.now).shapes self.now.columns }
        ensures most { result ≤ MAX_COLUMNS }
    {
        self.row.disagreements(layout)
    }

    /// The row that it closes to.
    pub fn close(&self, layout: &RowLayout) -> DueRow
        ensures { row_view result ≡ row_of (layout_view layout.now) self.now }
    {
        self.row.close(layout)
    }
}

impl CopyFrom for AgedRow {
    fn copy_from(&mut self, other: &AgedRow) {
        self.row.copy_from(&other.row);
        self.age = other.age;
    }
}
