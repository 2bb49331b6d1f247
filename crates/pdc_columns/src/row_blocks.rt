//! The blocks of a row, and the worst quality of them, as the row is written column after column.
ghost use Rattle.std.specs.Prelude.{◌≡◌, ℕ, ◌+◌, ◌<◌, ◌≤◌, ◌++◌, ◌∷◌, List, length, [], false, map};
ghost use Rattle.std.specs.Prelude.{drop, option_map, replicate, Some, slice_index_or, slice_set};
ghost use Rattle.std.specs.Prelude.{take, true};
ghost use Rattle.std.specs.Option.{option_to_list};
ghost use Rattle.pdc_row.specs.Chosen.{block_or_absent};
ghost use Rattle.pdc_row.specs.CellView.{BlockView};
ghost use Rattle.pdc_row.specs.KeptBlocks.{shapes_of};
ghost use Rattle.pdc_row.specs.Quality.{quality_of, time_quality_of, worst_of};
ghost use Rattle.pdc_columns.specs.Chosen.{block_in, chosen_of};
ghost use Rattle.pdc_columns.specs.ColumnParts.{chosen_view, column_of, columns_of, nothing};
ghost use Rattle.pdc_columns.specs.ColumnParts.{GivesHere, worst_kept};
ghost use Rattle.pdc_columns.specs.declared.column.Held.{Held as HeldData};
ghost use Rattle.pdc_columns.specs.Giving.{blocks_of, qualities_of};

use crate::MAX_COLUMNS;
use crate::column::{Chosen, Held};
use crate::lanes::{Lanes, held_at};
use pdc_row::{RowBlocks, Shape};

/// The worst time quality. A row in which no block is present has it.
pub const WORST_QUALITY: u8 = 15;

/// Appends the block of a column of this shape: that which is given, else the absent one. It answers the number above the worst quality
/// so far with its own, if it is present: 0 where there is none so far.
#[inline(always)]
pub fn give(chosen: Option<Chosen<'_>>, shape: Shape, blocks: &mut RowBlocks, above: u32) -> u32
    requires room { length blocks.old < MAX_COLUMNS }
    requires above { above ≤ WORST_QUALITY + 1 }
    ensures blocks { blocks.new ≡ blocks.old
        ++ block_or_absent shape (option_map chosen_view chosen.entry) ∷ [] }
    ensures quality { (ns : List ℕ) → worst_of (worst_kept result) ns ≡ worst_of (worst_kept above)
        (option_to_list (option_map time_quality_of (option_map chosen_view chosen.entry)) ++ ns) }
    ensures fits { result ≤ WORST_QUALITY + 1 }
{
    match chosen {
        Some(chosen) => {
            blocks.push(&chosen.body);
            worse(above, chosen.quality % 16)
        }
        None => {
            blocks.push_absent(shape);
            above
        }
    }
}

/// The quality of a row, whose worst one this number is above.
#[inline(always)]
pub fn quality_below(above: u32) -> u8
    requires { above ≤ WORST_QUALITY + 1 }
    ensures value { result ≡ worst_of (worst_kept above) [] }
    ensures fits { result ≤ WORST_QUALITY }
{
    if above == 0 {
        WORST_QUALITY
    } else {
        (above - 1) as u8
    }
}

/// The number above the quality of a row, where each column gives the block that stands in lane 0, with this time quality byte, and no other:
/// 0 where none is present.
pub fn worst_of_one(quality: u8, first: &RowBlocks) -> u32
    ensures value { (held : HeldData) (second : List BlockView) → GivesHere held quality →
        length second ≡ length first.now → worst_of (worst_kept result) [] ≡
        quality_of (qualities_of (map Some (shapes_of first.now))
        (columns_of (replicate (length first.now) held) first.now second)) }
    ensures fits { result ≤ WORST_QUALITY + 1 }
{
    for place in 0..first.len() {
        if first.is_present(place) {
            return u32::from(quality % 16) + 1;
        }
    }
    0
}

/// How many columns from the front on are known to give a present block of lane 0, and the number above the worst quality of these. Nearly always
/// that is the whole row, and then no block is looked at again. Where the same is held of each column, none is looked at here.
#[inline(always)]
fn front_of_first(held: &Lanes, first: &RowBlocks) -> (usize, u32)
    requires { length first.now ≡ length held.now }
    ensures blocks { (second : List BlockView) → length second ≡ length held.now →
        take result.0 (blocks_of (map Some (shapes_of first.now))
        (columns_of held.now first.now second)) ++ drop result.0 first.now ≡ first.now }
    ensures quality { (second : List BlockView) → length second ≡ length held.now →
        worst_of (worst_kept result.1) (qualities_of (drop result.0
        (map Some (shapes_of first.now))) (drop result.0 (columns_of held.now first.now second)))
        ≡ quality_of (qualities_of (map Some (shapes_of first.now))
        (columns_of held.now first.now second)) }
    ensures most { result.0 ≤ length first.now }
    ensures fits { result.1 ≤ WORST_QUALITY + 1 }
{
    match held.each() {
        Some(each) => front_of_each(each, first),
        None => (0, 0),
    }
}

/// The same of columns of which this is held.
#[inline(always)]
fn front_of_each(held: &[Held], first: &RowBlocks) -> (usize, u32)
    requires { length first.now ≡ length held.now }
    ensures blocks { (second : List BlockView) → length second ≡ length held.now →
        take result.0 (blocks_of (map Some (shapes_of first.now))
        (columns_of held.now first.now second)) ++ drop result.0 first.now ≡ first.now }
    ensures quality { (second : List BlockView) → length second ≡ length held.now →
        worst_of (worst_kept result.1) (qualities_of (drop result.0
        (map Some (shapes_of first.now))) (drop result.0 (columns_of held.now first.now second)))
        ≡ quality_of (qualities_of (map Some (shapes_of first.now))
        (columns_of held.now first.now second)) }
    ensures most { result.0 ≤ length first.now }
    ensures fits { result.1 ≤ WORST_QUALITY + 1 }
{
    let mut above = 0;
    for place in 0..first.len() {
        let here = held_at(held, place);
        if !here.first {
            return (place, above);
        }
        if !first.is_present(place) {
            return (place, above);
        }
        above = worse(above, here.first_quality % 16);
    }
    (first.len(), above)
}

/// Writes what the columns give over the blocks of lane 0, each in its shape, where lane 0 does not give it. It answers the number above the
/// worst quality.
pub fn give_over(held: &Lanes, blocks: &mut RowBlocks, second: &RowBlocks) -> u32
    requires first { length blocks.old ≡ length held.now }
    requires second { length second.now ≡ length held.now }
    ensures blocks { blocks.new ≡ blocks_of (map Some (shapes_of blocks.old))
        (columns_of held.now blocks.old second.now) }
    ensures quality { worst_of (worst_kept result) [] ≡ quality_of (qualities_of
        (map Some (shapes_of blocks.old)) (columns_of held.now blocks.old second.now)) }
    ensures fits { result ≤ WORST_QUALITY + 1 }
{
    let (front, mut above) = front_of_first(held, blocks);
    for place in front..blocks.len() {
        above = give_one_over(held.at(place), blocks, second, place, above);
    }
    above
}

/// The same of the column at this place.
#[inline(always)]
fn give_one_over(
    held: Held,
    blocks: &mut RowBlocks,
    second: &RowBlocks,
    place: usize,
    above: u32,
) -> u32
    requires first { place < length blocks.old }
    requires second { place < length second.now }
    requires above { above ≤ WORST_QUALITY + 1 }
    ensures blocks { (default : BlockView) → blocks.new ≡ slice_set blocks.old place
        (block_in (slice_index_or blocks.old place default).shape
        (column_of held (slice_index_or blocks.old place default)
        (slice_index_or second.now place default))) }
    ensures quality { (default : BlockView) (ns : List ℕ) → worst_of (worst_kept result) ns ≡
        worst_of (worst_kept above) (option_to_list (option_map time_quality_of
        (chosen_of (column_of held (slice_index_or blocks.old place default)
        (slice_index_or second.now place default)))) ++ ns) }
    ensures fits { result ≤ WORST_QUALITY + 1 }
{
    if held.first && blocks.is_present(place) {
        return worse(above, held.first_quality % 16);
    }
    if held.second && held.alike && blocks.is_present(place) {
        return worse(above, held.second_quality % 16);
    }
    if held.second && !held.alike && second.is_present(place) {
        blocks.put(place, &second.body(place));
        return worse(above, held.second_quality % 16);
    }
    let shape = blocks.body(place).shape;
    blocks.put_absent(place, shape);
    above
}

/// The number above the worst quality so far, where this one is given too.
#[inline(always)]
fn worse(above: u32, quality: u8) -> u32
    requires above { above ≤ WORST_QUALITY + 1 }
    requires quality { quality ≤ WORST_QUALITY }
    ensures value { (ns : List ℕ) →
        worst_of (worst_kept result) ns ≡ worst_of (worst_kept above) (quality ∷ ns) }
    ensures fits { result ≤ WORST_QUALITY + 1 }
{
    above.max(u32::from(quality) + 1)
}
