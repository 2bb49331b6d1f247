//! The columns of a row: which lanes of each hold a cell, and the blocks of each lane. What is done with whole frames and whole rows
//! stands in `whole.rt`, what they give in `giving.rt`.
ghost use Rattle.std.specs.Prelude.{◌≡◌, ℕ, ◌<◌, ◌≤◌, ◌∷◌, [], List, None, Option, Some, length};
ghost use Rattle.std.specs.Prelude.{IfOk, OnErr, map};
ghost use Rattle.std.specs.Prelude.{option_map, replicate, false, true, slice_index_or};
ghost use Rattle.std.specs.Prelude.{slice_set};
ghost use Rattle.pdc_memory.specs.Asking.{SomeWasRefused};
ghost use Rattle.std.specs.List.{All};
ghost use Rattle.pdc_row.specs.pdc_cfg.declared.shape.Shape.{Shape as ShapeData};
ghost use Rattle.pdc_columns.specs.Chosen.{chosen_of, disagreement_at, disagreements_of};
ghost use Rattle.pdc_columns.specs.Taking.{any_second, cell_in, cells_in, conflicts};
ghost use Rattle.pdc_columns.specs.Taking.{holds_other, with_cell, with_cells};
ghost use Rattle.pdc_columns.specs.ColumnParts.{chosen_view};
ghost use Rattle.pdc_columns.specs.Views.{empty_column};

use crate::MAX_COLUMNS;
use crate::column::{Chosen, Held, NOTHING};
use crate::lanes::Lanes;
use crate::row_blocks::WORST_QUALITY;
use pdc_memory::HeldBox;
use pdc_row::{CopyFrom, DueRow, Offered, RowBlocks, Shape};
use std::alloc::{AllocError, Global};
use std::marker::Model;
use std::mem::swap;

/// The columns of a row.
#[derive(Drop)]
pub struct Columns {
    /// Which lanes of each column hold a cell: all that a row that begins writes, and all that most looks at it read.
    pub(crate) held: Lanes,
    /// The row that goes out: its blocks are those of lane 0, each at its column, where they are held, and where those of lane 1 stand in lane 0
    /// they are these. It is handed out as it is.
    pub(crate) first: HeldBox<DueRow>,
    /// The blocks of lane 1, where they are held and do not stand in lane 0.
    pub(crate) second: HeldBox<RowBlocks>,
}

impl Model for Columns {
    ghost use Rattle.std.specs.Prelude.{◌≡◌, List, length};
    ghost use Rattle.pdc_columns.specs.ColumnParts.{columns_of};
    ghost use Rattle.pdc_columns.specs.Views.{ColumnView};

    ghost Value = { List ColumnView };

    ghost view = { λ columns. columns_of columns.held columns.first.value.blocks
        columns.second.value };

    ghost invariant = { λ columns. record {
      first : length columns.first.value.blocks ≡ length columns.held;
      second : length columns.second.value ≡ length columns.held;
    } };
}

/// So many blocks, to be written over.
fn blank_blocks(count: usize) -> RowBlocks
    requires { count ≤ MAX_COLUMNS }
    ensures { length result ≡ count }
{
    let mut blocks = RowBlocks::new();
    while blocks.len() < count {
        blocks.push_absent(Shape::default());
    }
    blocks
}

/// A row of so many blocks, to be written over.
fn row_to_fill(count: usize) -> DueRow
    requires { count ≤ MAX_COLUMNS }
    ensures { length result.blocks ≡ count }
{
    DueRow {
        instant: 0,
        start: 0,
        change: 0,
        quality: WORST_QUALITY,
        blocks: blank_blocks(count),
    }
}

impl Columns {
    /// So many columns in which nothing was taken.
    ///
    /// # Errors
    ///
    /// [`AllocError`] where a request for the memory of a row was refused.
    pub fn blank(alloc: Global, count: usize) -> Result<Columns, AllocError>
        requires { count ≤ MAX_COLUMNS }
        ensures columns { IfOk result (λ columns. columns ≡ replicate count empty_column) }
        ensures refused { OnErr result SomeWasRefused }
    {
        Ok(Columns {
            held: Lanes::blank(count),
            first: HeldBox::new(alloc, row_to_fill(count))?,
            second: HeldBox::new(alloc, blank_blocks(count))?,
        })
    }

    /// Lays these columns out as others, where they are as many and hold nothing yet: so that the blocks which come have their places.
    pub fn lay_out_as(&mut self, other: &Columns)
        ensures { self.new ≡ self.old }
    {
        let Some(held) = self.held.one() else {
            return;
        };
        if held.first || held.second || other.held.len() != self.held.len() {
            return;
        }
        self.first
            .get_mut()
            .blocks
            .lay_out_as(&other.first.get().blocks);
        self.second.get_mut().lay_out_as(other.second.get());
    }

    /// Takes the memory of the other columns' blocks and gives them its own, where it is known that neither hold anything. Whether it did.
    pub fn trade(&mut self, other: &mut Columns) -> bool
        ensures own { self.new ≡ self.old }
        ensures other { other.new ≡ other.old }
    {
        let Some(mine) = self.held.one() else {
            return false;
        };
        let Some(its) = other.held.one() else {
            return false;
        };
        if mine.first || mine.second || its.first || its.second {
            return false;
        }
        if self.held.len() != other.held.len() {
            return false;
        }
        swap(&mut self.first, &mut other.first);
        swap(&mut self.second, &mut other.second);
        true
    }

    /// Whether it is known of all columns at once that they hold nothing.
    #[inline(always)]
    pub fn are_new(&self) -> bool
        ensures { result ≡ true → self.now ≡ replicate (length self.now) empty_column }
    {
        match self.held.one() {
            Some(held) => !held.first && !held.second,
            None => false,
        }
    }

    /// Empties each column.
    #[inline]
    pub fn forget_all(&mut self)
        ensures { self.new ≡ replicate (length self.old) empty_column }
    {
        self.held.fill(NOTHING);
    }

    /// Empties the column.
    #[inline]
    pub fn forget(&mut self, column: usize)
        requires { column < length self.old }
        ensures { self.new ≡ slice_set self.old column empty_column }
    {
        self.held.set(column, NOTHING);
    }

    /// Empties the lane of each column.
    #[inline]
    pub fn forget_lane(&mut self, lane: usize)
        ensures { self.new ≡ map (with_cell lane None) self.old }
    {
        self.held.forget_lane(lane);
    }

    /// Puts the blocks into their columns, in this lane: most frames bring one. They are alone where it is known that the lane is 0, and
    /// that no column holds a cell in lane 1.
    #[inline(always)]
    pub(crate) fn put_cells<B: Offered>(
        &mut self,
        lane: usize,
        cells: &[(usize, B)],
        quality: u8,
        is_alone: bool,
    )
        requires columns { All (λ (cell : ℕ × B). cell.0 < length self.old) cells.now }
        requires alone { is_alone ≡ true → (lane ≡ 0) × (any_second self.old ≡ false) }
        ensures { self.new ≡ with_cells lane (cells_in B.view cells.now quality) self.old }
    {
        if let [cell] = cells {
            self.put_one(lane, cell, quality, is_alone);
        } else {
            self.put_each(lane, cells, quality, is_alone);
        }
    }

    /// Puts the block of a cell into its column, in this lane.
    #[inline(always)]
    pub(crate) fn put_one<B: Offered>(
        &mut self,
        lane: usize,
        cell: &(usize, B),
        quality: u8,
        is_alone: bool,
    )
        requires column { cell.now.0 < length self.old }
        requires alone { is_alone ≡ true → (lane ≡ 0) × (any_second self.old ≡ false) }
        ensures { self.new ≡ with_cells lane (cells_in B.view (cell.now ∷ []) quality) self.old }
    {
        let (column, block) = cell;
        if is_alone {
            self.first.get_mut().blocks.put(*column, block);
            self.held.hold_first(*column, quality);
        } else {
            self.put_beside(lane, *column, block, quality);
        }
    }

    /// The same where the other lane may hold a cell.
    #[inline(always)]
    fn put_beside<B: Offered>(&mut self, lane: usize, column: usize, block: &B, quality: u8)
        requires { column < length self.old }
        ensures { self.new ≡ slice_set self.old column (with_cell lane
            (Some (record { block = B.view block.now; quality = quality }))
            (slice_index_or self.old column empty_column)) }
    {
        let mut held = self.held.at(column);
        held.put(
            &mut self.first.get_mut().blocks,
            self.second.get_mut(),
            column,
            lane,
            block,
            quality,
        );
        self.held.set(column, held);
    }

    /// The same of any number of blocks: a call of its own, so that the way of one block keeps what it needs in registers.
    #[inline(never)]
    fn put_each<B: Offered>(
        &mut self,
        lane: usize,
        cells: &[(usize, B)],
        quality: u8,
        is_alone: bool,
    )
        requires columns { All (λ (cell : ℕ × B). cell.0 < length self.old) cells.now }
        requires alone { is_alone ≡ true → (lane ≡ 0) × (any_second self.old ≡ false) }
        ensures { self.new ≡ with_cells lane (cells_in B.view cells.now quality) self.old }
    {
        for cell in cells {
            self.put_one(lane, cell, quality, is_alone);
        }
    }

    /// Whether some of these blocks differs from what this lane of its column holds.
    pub(crate) fn any_other<B: Offered>(&self, lane: usize, cells: &[(usize, B)]) -> bool
        requires { All (λ (cell : ℕ × B). cell.0 < length self.now) cells.now }
        ensures { (quality : ℕ) → result ≡ conflicts lane (cells_in B.view cells.now quality)
            self.now }
    {
        for (column, block) in cells {
            if self.holds_other(*column, lane, block) {
                return true;
            }
        }
        false
    }

    /// Whether the lane of the column holds another block than this; a lane that holds nothing does not.
    #[inline]
    pub(crate) fn holds_other<B: Offered>(&self, column: usize, lane: usize, block: &B) -> bool
        requires { column < length self.now }
        ensures { result ≡ holds_other (cell_in lane (slice_index_or self.now column empty_column))
            (B.view block.now) }
    {
        let held = self.held.at(column);
        held.holds_other(
            &self.first.get().blocks,
            self.second.get(),
            column,
            lane,
            block,
        )
    }

    /// How many disagreements the column at this place gives, one or none; past the last column there is nothing.
    #[inline]
    pub(crate) fn disagreements_at(&self, place: usize, shape: Option<Shape>) -> u64
        ensures value { result ≡ disagreement_at shape (slice_index_or self.now place empty_column) }
        ensures most { result ≤ 1 }
    {
        if place < self.held.len() {
            let held = self.held.at(place);
            held.disagreements(&self.first.get().blocks, self.second.get(), place, shape)
        } else {
            0
        }
    }

    /// Whether it is known of all columns at once that their lanes do not disagree.
    #[inline]
    pub(crate) fn are_one(&self) -> bool
        ensures { (shapes : List (Option ShapeData)) → result ≡ true →
            disagreements_of shapes self.now ≡ 0 }
    {
        match self.held.one() {
            Some(held) => held.alike || !held.second,
            None => false,
        }
    }

    /// What the column at this place gives; past the last column there is nothing.
    #[inline]
    pub(crate) fn chosen_at(&self, place: usize) -> Option<Chosen<'_>>
        ensures { option_map chosen_view result ≡
            chosen_of (slice_index_or self.now place empty_column) }
    {
        if place < self.held.len() {
            let held = self.held.at(place);
            held.chosen(&self.first.get().blocks, self.second.get(), place)
        } else {
            None
        }
    }
}

impl CopyFrom for Columns {
    #[inline]
    fn copy_from(&mut self, other: &Columns) {
        self.held.copy_from(&other.held);
        self.first
            .get_mut()
            .blocks
            .copy_from(&other.first.get().blocks);
        self.second.get_mut().copy_from(other.second.get());
    }
}
