//! What columns give to the row that goes out, and how often their lanes disagree.
ghost use Rattle.std.specs.Prelude.{◌≡◌, ◌+◌, ◌<◌, ◌≤◌, ◌++◌, drop, length, replicate};
ghost use Rattle.pdc_row.specs.Quality.{quality_of, worst_of};
ghost use Rattle.pdc_columns.specs.Chosen.{disagreements_of};
ghost use Rattle.pdc_columns.specs.ColumnParts.{worst_kept};
ghost use Rattle.pdc_columns.specs.Giving.{blocks_of, qualities_of};
ghost use Rattle.pdc_columns.specs.Views.{empty_column};

use crate::columns::Columns;
use crate::row_blocks::{give, quality_below};
use crate::{MAX_COLUMNS, RowLayout, WORST_QUALITY};
use pdc_memory::HeldBox;
use pdc_row::{DueRow, RowBlocks, Shape};

impl Columns {
    /// Hands out the row of the blocks that the columns give: nearly always that in which they were put, and the one that was lent stays in its
    /// place. Else they are written block after block over the one that was lent, and columns that hold nothing are laid out as the layout
    /// has them. Then no column holds anything. It answers the time quality of the row.
    pub fn hand_out(&mut self, layout: &RowLayout, row: &mut HeldBox<DueRow>) -> u8
        ensures blocks { row.new.value.blocks ≡ blocks_of layout.now.shapes.items self.old }
        ensures quality { result ≡ quality_of (qualities_of layout.now.shapes.items self.old) }
        ensures fits { result ≤ WORST_QUALITY }
        ensures spent { self.new ≡ replicate (length self.old) empty_column }
    {
        match self.hand_over(layout, row) {
            Some(above) => quality_below(above),
            None => self.copy_out(layout, &mut row.get_mut().blocks),
        }
    }

    /// Makes these the blocks that the columns give, block after block, and empties the columns. It answers the time quality of the row.
    #[inline(never)]
    fn copy_out(&mut self, layout: &RowLayout, blocks: &mut RowBlocks) -> u8
        ensures blocks { blocks.new ≡ blocks_of layout.now.shapes.items self.old }
        ensures quality { result ≡ quality_of (qualities_of layout.now.shapes.items self.old) }
        ensures fits { result ≤ WORST_QUALITY }
        ensures few { length blocks.new ≤ MAX_COLUMNS }
        ensures spent { self.new ≡ replicate (length self.old) empty_column }
    {
        let quality = self.give_each(layout.shapes.as_slice(), blocks);
        self.lay_out_in(layout);
        self.forget_all();
        quality
    }

    /// Appends the block of the column at this place, if it has a shape. It answers the number above the worst quality so far.
    #[inline(always)]
    fn give_at(
        &self,
        shapes: &[Option<Shape>],
        place: usize,
        blocks: &mut RowBlocks,
        above: u32,
    ) -> u32
        requires place { place < length shapes.now }
        requires room { length blocks.old < MAX_COLUMNS }
        requires above { above ≤ WORST_QUALITY + 1 }
        ensures blocks { blocks.new
            ++ blocks_of (drop (place + 1) shapes.now) (drop (place + 1) self.now)
            ≡ blocks.old ++ blocks_of (drop place shapes.now) (drop place self.now) }
        ensures quality { worst_of (worst_kept result)
            (qualities_of (drop (place + 1) shapes.now) (drop (place + 1) self.now))
            ≡ worst_of (worst_kept above)
            (qualities_of (drop place shapes.now) (drop place self.now)) }
        ensures fits { result ≤ WORST_QUALITY + 1 }
        ensures few { length blocks.new ≤ length blocks.old + 1 }
    {
        match shapes[place] {
            Some(shape) => give(self.chosen_at(place), shape, blocks, above),
            None => above,
        }
    }

    /// Makes these the blocks that the columns give, one of each that has a shape, and answers the time quality of their row: the worst of those
    /// that are present. A call of its own, since it is seldom.
    #[inline(never)]
    pub fn give_each(&self, shapes: &[Option<Shape>], blocks: &mut RowBlocks) -> u8
        requires { length shapes.now ≤ MAX_COLUMNS }
        ensures blocks { blocks.new ≡ blocks_of shapes.now self.now }
        ensures quality { result ≡ quality_of (qualities_of shapes.now self.now) }
        ensures fits { result ≤ WORST_QUALITY }
        ensures few { length blocks.new ≤ MAX_COLUMNS }
    {
        blocks.clear();
        let mut above = 0;
        for place in 0..shapes.len() {
            above = self.give_at(shapes, place, blocks, above);
        }
        quality_below(above)
    }

    /// How many columns with a shape hold present blocks in both lanes that differ.
    pub fn disagreements(&self, shapes: &[Option<Shape>]) -> u64
        requires { length shapes.now ≤ MAX_COLUMNS }
        ensures value { result ≡ disagreements_of shapes.now self.now }
        ensures most { result ≤ MAX_COLUMNS }
    {
        if self.are_one() {
            return 0;
        }
        let mut count = 0;
        for (place, shape) in shapes.iter().enumerate() {
            count += self.disagreements_at(place, *shape);
        }
        count
    }
}
