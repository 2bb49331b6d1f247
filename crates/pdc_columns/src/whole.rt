//! Whole frames that are put into a row, and whole rows.
ghost use Rattle.std.specs.Prelude.{◌≡◌, ◌<◌, ◌≤◌, ◌+◌, [], IfNone, IfSome, List, Some, false};
ghost use Rattle.std.specs.Prelude.{length, map, replicate, true};
ghost use Rattle.pdc_row.specs.CellView.{BlockView};
ghost use Rattle.pdc_row.specs.KeptBlocks.{blocks_in, shapes_of};
ghost use Rattle.pdc_row.specs.Quality.{quality_of, worst_of};
ghost use Rattle.pdc_row.specs.pdc_block.Block.{words_in};
ghost use Rattle.pdc_columns.specs.ColumnParts.{columns_of, nothing, worst_kept};
ghost use Rattle.pdc_columns.specs.Parts.{are_laid_out, cut_cells};
ghost use Rattle.pdc_columns.specs.Giving.{blocks_of, qualities_of};
ghost use Rattle.pdc_columns.specs.Taking.{with_cells};
ghost use Rattle.pdc_columns.specs.Twin.{IsTwin, lowest, twin_of};
ghost use Rattle.pdc_columns.specs.Views.{empty_column};

use crate::column::NOTHING;
use crate::columns::Columns;
use crate::laid::fits;
use crate::lanes::Lanes;
use crate::parts::{Cut, Part};
use crate::row_blocks::{give_over, worst_of_one};
use crate::{MAX_COLUMNS, RowLayout, WORST_QUALITY};
use pdc_memory::HeldBox;
use pdc_row::{DueRow, RowBlocks, Shape, words_are_cut};
use std::mem::swap;

impl Columns {
    /// Puts the blocks of a whole frame, one for each column as they are laid out here, into this lane: by one copy, or by none where they are
    /// those of the other lane. Whether it did; else nothing is put.
    pub(crate) fn put_whole<P: Part>(&mut self, lane: usize, cut: &Cut<'_, P>, quality: u8) -> bool
        requires { IsTwin (twin_of cut.now.is_twin cut.now.bytes.now) self.old }
        ensures whole { result ≡ true → self.new ≡ with_cells lane (cut_cells P.column_of P.shape_of
            cut.now.parts.now quality (words_in cut.now.bytes.now)) self.old }
        ensures none { result ≡ false → self.new ≡ self.old }
    {
        if lane == 0 {
            if self.join_whole(cut, quality) {
                return true;
            }
            return self.put_whole_first(cut, quality);
        }
        if self.put_whole_alone(lane, cut, quality) {
            return true;
        }
        self.put_whole_second(lane, cut, quality)
    }

    /// The same into lane 0.
    #[inline(always)]
    fn put_whole_first<P: Part>(&mut self, cut: &Cut<'_, P>, quality: u8) -> bool
        ensures whole { result ≡ true → self.new ≡ with_cells 0 (cut_cells P.column_of P.shape_of
            cut.now.parts.now quality (words_in cut.now.bytes.now)) self.old }
        ensures none { result ≡ false → self.new ≡ self.old }
    {
        words_are_cut();
        let Some(mut held) = self.held.one() else {
            return false;
        };
        let first = &mut self.first.get_mut().blocks;
        if !fits(cut.parts, cut.laid, first) {
            return false;
        }
        held.first = true;
        held.first_quality = quality;
        if !held.second {
            first.write_over(cut.bytes, cut.sent);
            self.held.fill(held);
            return true;
        }
        let second = self.second.get();
        if held.alike || !fits(cut.parts, cut.laid, second) {
            return false;
        }
        if !second.has_bytes(cut.bytes) {
            return false;
        }
        held.alike = true;
        first.write_over(cut.bytes, cut.sent);
        self.held.fill(held);
        true
    }

    /// The same into lane 0, where what lane 1 brought stands there, and is the same: nothing is written, and where it is known that it is the same
    /// it is not compared.
    #[inline(always)]
    fn join_whole<P: Part>(&mut self, cut: &Cut<'_, P>, quality: u8) -> bool
        requires { IsTwin (twin_of cut.now.is_twin cut.now.bytes.now) self.old }
        ensures whole { result ≡ true → self.new ≡ with_cells 0 (cut_cells P.column_of P.shape_of
            cut.now.parts.now quality (words_in cut.now.bytes.now)) self.old }
        ensures none { result ≡ false → self.new ≡ self.old }
    {
        words_are_cut();
        let Some(mut held) = self.held.one() else {
            return false;
        };
        if !held.second {
            return false;
        }
        if !held.alike {
            return false;
        }
        if held.first {
            return false;
        }
        held.first = true;
        held.first_quality = quality;
        if !are_those_of(cut, cut.is_twin, &self.first.get().blocks) {
            return false;
        }
        self.held.fill(held);
        true
    }

    /// The same into lane 1, where lane 0 holds nothing: they are written to where its blocks would stand.
    #[inline(always)]
    fn put_whole_alone<P: Part>(&mut self, lane: usize, cut: &Cut<'_, P>, quality: u8) -> bool
        requires lane { 0 < lane }
        ensures whole { result ≡ true → self.new ≡ with_cells lane (cut_cells P.column_of P.shape_of
            cut.now.parts.now quality (words_in cut.now.bytes.now)) self.old }
        ensures none { result ≡ false → self.new ≡ self.old }
    {
        words_are_cut();
        let Some(mut held) = self.held.one() else {
            return false;
        };
        if held.first {
            return false;
        }
        let first = &mut self.first.get_mut().blocks;
        if !fits(cut.parts, cut.laid, first) {
            return false;
        }
        held.second = true;
        held.alike = true;
        held.second_quality = quality;
        first.write_over(cut.bytes, cut.sent);
        self.held.fill(held);
        true
    }

    /// The same into lane 1: what lane 0 has is not written again, and where that is known it is not compared.
    #[inline(always)]
    fn put_whole_second<P: Part>(&mut self, lane: usize, cut: &Cut<'_, P>, quality: u8) -> bool
        requires lane { 0 < lane }
        requires twin { IsTwin (twin_of cut.now.is_twin cut.now.bytes.now) self.old }
        ensures whole { result ≡ true → self.new ≡ with_cells lane (cut_cells P.column_of P.shape_of
            cut.now.parts.now quality (words_in cut.now.bytes.now)) self.old }
        ensures none { result ≡ false → self.new ≡ self.old }
    {
        words_are_cut();
        let Some(mut held) = self.held.one() else {
            return false;
        };
        let is_twin = cut.is_twin & held.first;
        held.second = true;
        held.second_quality = quality;
        if are_those_of(cut, is_twin, &self.first.get().blocks) {
            held.alike = true;
            self.held.fill(held);
            return true;
        }
        let second = self.second.get_mut();
        if !lay_out_for(cut, &self.first.get().blocks, second) {
            return false;
        }
        held.alike = false;
        second.write_over(cut.bytes, cut.sent);
        self.held.fill(held);
        true
    }

    /// The blocks that stand in lane 0, where it is known of all columns at once that they are held: by lane 0, or else by lane 1.
    #[inline(always)]
    pub fn lowest_blocks(&self) -> Option<&RowBlocks>
        ensures { IfSome result (λ blocks. blocks.now ≡ lowest self.now) }
    {
        let Some(held) = self.held.one() else {
            return None;
        };
        if held.first {
            return Some(&self.first.get().blocks);
        }
        if !held.second {
            return None;
        }
        if !held.alike {
            return None;
        }
        Some(&self.first.get().blocks)
    }

    /// Hands over the row of the blocks that the columns give, where all columns have shapes and lane 0 is laid out in them: what lane 0 does not
    /// give is written over its blocks, and no other is moved. The row that was lent stays here in its place, and the columns hold nothing.
    /// It answers the number above the worst quality.
    pub(crate) fn hand_over(&mut self, layout: &RowLayout, row: &mut HeldBox<DueRow>) -> Option<u32>
        ensures blocks { IfSome result (λ _. row.new.value.blocks ≡
            blocks_of layout.now.shapes.items self.old) }
        ensures quality { IfSome result (λ above. worst_of (worst_kept above) [] ≡
            quality_of (qualities_of layout.now.shapes.items self.old)) }
        ensures fits { IfSome result (λ above. above ≤ WORST_QUALITY + 1) }
        ensures some { IfSome result (λ _. self.new ≡
            replicate (length self.old) empty_column) }
        ensures none { IfNone result ((self.new ≡ self.old) × (row.new ≡ row.old)) }
    {
        let first = &mut self.first.get_mut().blocks;
        if self.held.len() != layout.shapes.len() || !have_shapes(layout, first) {
            return None;
        }
        let above = settle(&self.held, first, self.second.get());
        exchange(&mut self.held, &mut self.first, row);
        Some(above)
    }

    /// Lays the columns that hold nothing out in the shapes of the layout, where each column has one. So a row in which a PMU is absent
    /// closes by one copy from then on, since its place keeps its shapes.
    #[inline(never)]
    pub(crate) fn lay_out_in(&mut self, layout: &RowLayout)
        ensures { self.new ≡ self.old }
    {
        if let Some(shapes) = &layout.all {
            let shapes = shapes.as_slice();
            if shapes.len() == self.held.len() {
                lay_out_empty(&self.held, &mut self.first.get_mut().blocks, shapes);
            }
        }
    }
}

/// Whether the blocks of a frame are these, laid out as they are: where it is known that their bytes are the same, they are not compared.
#[inline(always)]
fn are_those_of<P: Part>(cut: &Cut<'_, P>, is_known: bool, blocks: &RowBlocks) -> bool
    requires { is_known ≡ true → blocks_in (shapes_of blocks.now) cut.now.bytes.now ≡ blocks.now }
    ensures laid { result ≡ true → are_laid_out P.column_of P.shape_of cut.now.parts.now
        (shapes_of blocks.now) 0 ≡ true }
    ensures same { result ≡ true → blocks_in (shapes_of blocks.now) cut.now.bytes.now ≡ blocks.now }
{
    fits(cut.parts, cut.laid, blocks) && (is_known || blocks.has_bytes(cut.bytes))
}

/// Lays blocks out as those of a frame, where these others are laid out so. Whether they are then; else they stay.
#[inline(always)]
fn lay_out_for<P: Part>(cut: &Cut<'_, P>, others: &RowBlocks, blocks: &mut RowBlocks) -> bool
    requires { length others.now ≡ length blocks.old }
    ensures laid { result ≡ true → are_laid_out P.column_of P.shape_of cut.now.parts.now
        (shapes_of blocks.new) 0 ≡ true }
    ensures len { length blocks.new ≡ length blocks.old }
    ensures none { result ≡ false → blocks.new ≡ blocks.old }
{
    if fits(cut.parts, cut.laid, blocks) {
        return true;
    }
    if !fits(cut.parts, cut.laid, others) {
        return false;
    }
    blocks.lay_out_as(others);
    true
}

/// Makes the blocks of lane 0 those that the columns give, each in its shape. It answers the number above the worst quality.
#[inline(always)]
fn settle(held: &Lanes, first: &mut RowBlocks, second: &RowBlocks) -> u32
    requires first { length first.old ≡ length held.now }
    requires second { length second.now ≡ length held.now }
    ensures blocks { first.new ≡ blocks_of (map Some (shapes_of first.old))
        (columns_of held.now first.old second.now) }
    ensures quality { worst_of (worst_kept result) [] ≡ quality_of (qualities_of
        (map Some (shapes_of first.old)) (columns_of held.now first.old second.now)) }
    ensures fits { result ≤ WORST_QUALITY + 1 }
    ensures len { length first.new ≡ length first.old }
{
    if let Some(one) = held.one() {
        if let Some(quality) = one.gives_here() {
            return worst_of_one(quality, first);
        }
    }
    give_over(held, first, second)
}

/// Hands out the row whose blocks are those of lane 0, and keeps the one that was lent in its place. The columns hold nothing then.
#[inline(always)]
fn exchange(held: &mut Lanes, first: &mut HeldBox<DueRow>, row: &mut HeldBox<DueRow>)
    requires { length first.old.value.blocks ≡ length held.old }
    ensures row { row.new ≡ first.old }
    ensures first { length first.new.value.blocks ≡ length held.old }
    ensures held { held.new ≡ replicate (length held.old) nothing }
{
    lay_out_as_many(&mut row.get_mut().blocks, &first.get().blocks);
    swap(first, row);
    held.fill(NOTHING);
}

/// Lays blocks out as others, unless they are as many.
#[inline(always)]
fn lay_out_as_many(blocks: &mut RowBlocks, others: &RowBlocks)
    ensures { length blocks.new ≡ length others.now }
{
    if blocks.len() != others.len() {
        blocks.lay_out_as(others);
    }
}

/// Gives the columns that hold nothing absent blocks of these shapes.
fn lay_out_empty(held: &Lanes, first: &mut RowBlocks, shapes: &[Shape])
    requires first { length first.old ≡ length held.now }
    requires shapes { length shapes.now ≡ length held.now }
    ensures columns { (second : List BlockView) → length second ≡ length held.now →
        columns_of held.now first.new second ≡ columns_of held.now first.old second }
    ensures len { length first.new ≡ length first.old }
{
    for place in 0..shapes.len() {
        let here = held.at(place);
        if !here.first && !here.second {
            first.put_absent(place, shapes[place]);
        }
    }
}

/// Whether each column of the layout has a shape, and the blocks have these.
#[inline(always)]
fn have_shapes(layout: &RowLayout, blocks: &RowBlocks) -> bool
    ensures { result ≡ true → layout.now.shapes.items ≡ map Some (shapes_of blocks.now) }
{
    match &layout.all {
        Some(shapes) => blocks.has_shapes(shapes),
        None => false,
    }
}
