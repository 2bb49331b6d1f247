//! The cells that data of a node gives.
ghost use Rattle.std.specs.Prelude.{◌≡◌, ℕ, ◌+◌, ◌*◌, ◌<◌, ◌≤◌, ◌++◌, Option, length, take};
ghost use Rattle.std.specs.List.{AllByRecursion};
ghost use Rattle.pdc_block.specs.Block.{words_in};
ghost use Rattle.pdc_cfg.specs.Section.{SectionFields};
ghost use Rattle.pdc_cfg.specs.Shape.{word_count_of};
ghost use Rattle.pdc_table.specs.pdc_columns.Taking.{body_cells_of};
ghost use Rattle.pdc_align.specs.Calls.{column_in};
ghost use Rattle.pdc_align.specs.Slot.{count_in};
ghost use Rattle.pdc_merge.specs.Cells.{are_in_force, blocks_len, cell_in, cells_in, has_count};
ghost use Rattle.pdc_merge.specs.declared.held_layout.HeldSection.{HeldSection as HeldSectionData};

use crate::held_layout::HeldSection;
use pdc_align::Alignment;
use pdc_block::{Body, words_are_cut};
use pdc_table::Table;

/// Whether the section in force has this count.
fn has_count(in_force: Option<u16>, count: u16) -> bool
    ensures { (section : Option SectionFields) → in_force ≡ count_in section →
        result ≡ has_count section count }
{
    match in_force {
        Some(in_force) => count == in_force,
        None => false,
    }
}

/// Whether the count of each section is in force.
pub fn are_in_force<T: Table>(alignment: &Alignment<T>, sections: &[HeldSection]) -> bool
    requires { AllByRecursion (λ (s : HeldSectionData). s.column < length
        alignment.now.state.columns) sections.now }
    ensures { result ≡ are_in_force alignment.now.state sections.now }
{
    match sections.split_first() {
        Some((first, later)) => {
            has_count(alignment.count_in_force(first.column), first.count)
                && are_in_force(alignment, later)
        }
        None => true,
    }
}

/// Writes the cell of a section whose block has these bytes behind so many cells, where its count is in force, and answers how many
/// there are then.
fn write_cell<'a, T: Table>(
    alignment: &Alignment<T>,
    section: &HeldSection,
    block: &'a [u8],
    cells: &mut [(usize, Body<'a>)],
    count: usize,
) -> usize
    requires room { count < length cells.old }
    requires exists { section.now.column < length alignment.now.state.columns }
    requires size { length block.now ≡ 2 * word_count_of section.now.shape }
    ensures cells { (quality : ℕ) → body_cells_of (take result cells.new) quality
        ≡ body_cells_of (take count cells.old) quality ++
        cell_in (column_in alignment.now.state section.now.column).in_force quality section.now
        (words_in block.now) }
    ensures len { length cells.new ≡ length cells.old }
    ensures grown { result ≤ count + 1 }
{
    if !has_count(alignment.count_in_force(section.column), section.count) {
        return count;
    }
    let body = Body {
        shape: section.shape,
        bytes: block,
    };
    cells[count] = (section.column, body);
    count + 1
}

/// Writes the cells of the sections, whose blocks these bytes are, one after the other, behind so many cells, and answers how many there
/// are then: those whose count is in force. What the others have is passed over.
pub fn write_cells<'a, T: Table>(
    alignment: &Alignment<T>,
    sections: &[HeldSection],
    blocks: &'a [u8],
    cells: &mut [(usize, Body<'a>)],
    count: usize,
) -> usize
    requires room { count + length sections.now ≤ length cells.old }
    requires exist { AllByRecursion (λ (s : HeldSectionData). s.column < length
        alignment.now.state.columns) sections.now }
    requires size { length blocks.now ≡ blocks_len sections.now }
    ensures cells { (quality : ℕ) → body_cells_of (take result cells.new) quality
        ≡ body_cells_of (take count cells.old) quality ++
        cells_in alignment.now.state quality sections.now (words_in blocks.now) }
    ensures len { length cells.new ≡ length cells.old }
    ensures grown { result ≤ length cells.old }
{
    words_are_cut();
    let Some((first, later)) = sections.split_first() else {
        return count;
    };
    let (block, others) = blocks.split_at(2 * first.shape.word_count());
    let next = write_cell(alignment, first, block, cells, count);
    write_cells(alignment, later, others, cells, next)
}
