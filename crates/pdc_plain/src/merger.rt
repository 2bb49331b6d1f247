//! What the merger answers to an arrival, asked of the whole list. A life is kept newest first.
ghost use Rattle.std.specs.Prelude.{◌≡◌, ◌≤◌, ◌*◌, ◌++◌, [], ◌∷◌, ℕ, IfOk, OnOk, if◌then◌else◌};
ghost use Rattle.std.specs.Prelude.{length, map, option_map, sum};
ghost use Rattle.std.specs.Option.{option_to_list};
ghost use Rattle.pdc_block.specs.Block.{words_in};
ghost use Rattle.pdc_cfg.specs.Section.{SectionFields, fields_of_view};
ghost use Rattle.pdc_cfg.specs.Shape.{word_count_of};
ghost use Rattle.pdc_cfg.specs.declared.shape.TheConstants.{MAX_WORDS};
ghost use Rattle.pdc_life.specs.pdc_row.declared.limits.TheConstants.{MAX_PMUS};
ghost use Rattle.pdc_life.specs.Merger.{has_count_conflict, held_layout, is_in_force};
ghost use Rattle.pdc_life.specs.Merger.{layout_answer, merged_answer, merged_cells};
ghost use Rattle.pdc_life.specs.Merger.{merged_data_answer};
ghost use Rattle.pdc_life.specs.Node.{cell_under};
ghost use Rattle.pdc_arrival.specs.Views.{arrival_view, section_part, stamp_view};
ghost use Rattle.pdc_arrival.specs.Stamps.{stamp_of};
ghost use Rattle.pdc_plain_steps.specs.Views.{answer_view, given_view, life_view, part_view};
ghost use Rattle.pdc_plain.specs.Views.{layout_view};

use crate::held_layout::HeldLayout;
use crate::layouts::{has_count_conflict, held_layout};
use crate::time_tag::TimeTag;
use pdc_arrival::{Arrival, ColumnSection, OWN_BLOCK_LEN, Stamp, bears, body, layout_answer};
use pdc_block::words_are_cut;
use pdc_cfg::SectionView;
use pdc_life::{Outcome, Refusal};
use pdc_plain_steps::{
    Answer, Answered, ColumnCell, Given, answer_in_time, bare, section_in_force,
};
use std::alloc::{AllocError, Global};

/// The answer to an arrival from a node.
///
/// # Errors
///
/// [`AllocError`] where there is no room and none is got.
pub fn merged_answer(
    alloc: Global,
    given: &Given,
    life: &[Answered],
    stream: usize,
    arrival: &Arrival,
) -> Result<Answer, AllocError>
    ensures { IfOk result (λ answer. answer_view answer ≡
        merged_answer (given_view given.now) (life_view life.now) stream
        (arrival_view arrival.now)) }
{
    match arrival {
        Arrival::BytesRefused(refusal) => Ok(bare(alloc, Outcome::Refused(*refusal))),
        Arrival::Data {
            instant,
            quality,
            payload,
        } => {
            let tag = TimeTag {
                instant: *instant,
                quality: *quality,
            };
            data_answer(alloc, given, life, stream, tag, payload)
        }
        Arrival::Layout {
            stamp: Some(stamp),
            sections,
        } => { Ok(bare(alloc, layout_outcome(given, life, stream, *stamp, sections))) }
        Arrival::Layout { stamp: None, .. } => {
            Ok(bare(alloc, Outcome::Refused(Refusal::BadOwnBlock)))
        }
    }
}

/// The outcome of a layout of a node.
fn layout_outcome(
    given: &Given,
    life: &[Answered],
    stream: usize,
    stamp: Stamp,
    sections: &[ColumnSection],
) -> Outcome
    ensures { result ≡ layout_answer (held_layout (life_view life.now) stream) (stamp_view stamp)
        (has_count_conflict (given_view given.now) (life_view life.now)
        (map section_part sections.now)) }
{
    let conflicts = has_count_conflict(given, life, sections);
    layout_answer(stamp_of(held_layout(life, stream)), stamp, conflicts)
}

/// The stamp of the layout.
fn stamp_of(layout: Option<HeldLayout>) -> Option<Stamp>
    ensures { option_map stamp_view result ≡
        option_map stamp_of (option_map layout_view layout.entry) }
{
    match layout {
        Some(layout) => Some(layout.stamp),
        None => None,
    }
}

/// The answer to data of a node, which is read under its held layout, where it bears that stamp.
fn data_answer(
    alloc: Global,
    given: &Given,
    life: &[Answered],
    stream: usize,
    tag: TimeTag,
    payload: &[u8],
) -> Result<Answer, AllocError>
    ensures { IfOk result (λ answer. answer_view answer
        ≡ merged_data_answer (given_view given.now) (life_view life.now) stream tag.instant
        tag.quality payload.now (held_layout (life_view life.now) stream)) }
{
    words_are_cut();
    let Some(layout) = held_layout(life, stream) else {
        return Ok(bare(alloc, Outcome::Refused(Refusal::NoConfig)));
    };
    if payload.len() < OWN_BLOCK_LEN {
        return Ok(bare(alloc, Outcome::Refused(Refusal::WrongLength)));
    }
    let (own, blocks) = payload.split_at(OWN_BLOCK_LEN);
    if !bears(own, layout.stamp) {
        return Ok(bare(alloc, Outcome::Refused(Refusal::OtherStamp)));
    }
    if blocks.len() != blocks_len(layout.sections) {
        return Ok(bare(alloc, Outcome::Refused(Refusal::WrongLength)));
    }
    let cells = cells_under(alloc, given, life, tag.quality, layout.sections, blocks)?;
    answer_in_time(alloc, given, life, stream, tag.instant, cells)
}

/// The bytes of the blocks of these sections.
fn blocks_len(sections: &[ColumnSection]) -> usize
    requires { length sections.now ≤ MAX_PMUS }
    ensures value { result ≡ sum (map (λ (part : ℕ × SectionFields). 2 * word_count_of
        part.1.shape) (map section_part sections.now)) }
    ensures most { result ≤ 2 * MAX_WORDS * length sections.now }
{
    match sections.split_first() {
        Some((first, later)) => 2 * first.section.shape.word_count() + blocks_len(later),
        None => 0,
    }
}

/// Whether the section has the count in force of its column.
fn is_in_force(section: &SectionView, in_force: Option<SectionView>) -> bool
    ensures { result ≡ is_in_force (fields_of_view section.now)
        (option_map fields_of_view in_force.entry) }
{
    match in_force {
        Some(in_force) => section.count == in_force.count,
        None => false,
    }
}

/// The cells that the blocks of these sections give: one for each section with the count in force.
fn cells_under(
    alloc: Global,
    given: &Given,
    life: &[Answered],
    quality: u8,
    sections: &[ColumnSection],
    blocks: &[u8],
) -> Result<Vec<ColumnCell>, AllocError>
    requires { length blocks.now ≡ sum (map (λ (part : ℕ × SectionFields). 2 * word_count_of
        part.1.shape) (map section_part sections.now)) }
    ensures { IfOk result (λ cells. map part_view cells.items
        ≡ merged_cells (given_view given.now) (life_view life.now) quality
        (map section_part sections.now) (words_in blocks.now)) }
{
    words_are_cut();
    let Some((first, later)) = sections.split_first() else {
        return Ok(Vec::new(alloc));
    };
    let (block, others) = blocks.split_at(2 * first.section.shape.word_count());
    let mut cells = cells_under(alloc, given, life, quality, later, others)?;
    let in_force = section_in_force(given, life, first.column);
    put_first(cell_in_force(first, in_force, quality, block), &mut cells)?;
    Ok(cells)
}

/// Puts the cell before the others, if there is one.
fn put_first(cell: Option<ColumnCell>, cells: &mut Vec<ColumnCell>) -> Result<(), AllocError>
    ensures { OnOk result (map part_view cells.new.items ≡
        option_to_list (option_map part_view cell) ++ map part_view cells.old.items) }
{
    if let Some(cell) = cell {
        cells.insert(0, cell)?;
    }
    Ok(())
}

/// The cell that a block gives, where its section has the count in force of its column.
fn cell_in_force(
    part: &ColumnSection,
    in_force: Option<SectionView>,
    quality: u8,
    bytes: &[u8],
) -> Option<ColumnCell>
    requires { length bytes.now ≡ 2 * word_count_of part.now.section.shape }
    ensures { option_to_list (option_map part_view result)
        ≡ (if is_in_force (fields_of_view part.now.section)
        (option_map fields_of_view in_force.entry)
        then (
          part.now.column,
          cell_under (fields_of_view part.now.section) quality
              (words_in bytes.now),
        ) ∷ [] else []) }
{
    if is_in_force(&part.section, in_force) {
        Some(cell_under(part, quality, bytes))
    } else {
        None
    }
}

/// The cell that a block gives under its section.
fn cell_under(part: &ColumnSection, quality: u8, bytes: &[u8]) -> ColumnCell
    requires { length bytes.now ≡ 2 * word_count_of part.now.section.shape }
    ensures { part_view result ≡ (
      part.now.column,
      cell_under (fields_of_view part.now.section)
          quality (words_in bytes.now),
    ) }
{
    ColumnCell {
        column: part.column,
        block: body(part.section.shape, bytes),
        quality,
    }
}
