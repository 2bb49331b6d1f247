//! What a node answers to an arrival, asked of the whole list. A life is kept newest first.
ghost use Rattle.std.specs.Prelude.{◌≡◌, ◌∷◌, [], IfOk, Option, map};
ghost use Rattle.pdc_life.specs.Answer.{bare};
ghost use Rattle.pdc_life.specs.Arrival.{Layout, Stamp};
ghost use Rattle.pdc_life.specs.Life.{section_in_force};
ghost use Rattle.pdc_life.specs.Node.{data_answer, node_answer};
ghost use Rattle.pdc_arrival.specs.Views.{arrival_view, section_part};
ghost use Rattle.pdc_plain_steps.specs.Views.{answer_view, given_view, life_view, part_view};

use crate::time_tag::TimeTag;
use pdc_arrival::{Arrival, ColumnSection, body, count_for, section_answer};
use pdc_cfg::CfgFault;
use pdc_life::{Outcome, Refusal};
use pdc_plain_steps::{
    Answer, Answered, ColumnCell, Given, answer_in_time, bare, held_section, section_in_force,
};
use std::alloc::{AllocError, Global};

/// The answer to an arrival for a PMU.
///
/// # Errors
///
/// [`AllocError`] where there is no room and none is got.
pub fn node_answer(
    alloc: Global,
    given: &Given,
    life: &[Answered],
    stream: usize,
    arrival: &Arrival,
) -> Result<Answer, AllocError>
    ensures { IfOk result (λ answer. answer_view answer ≡
        node_answer (given_view given.now) (life_view life.now) stream (arrival_view arrival.now)) }
{
    match arrival {
        Arrival::BytesRefused(refusal) => Ok(bare(alloc, Outcome::Refused(*refusal))),
        Arrival::Data {
            instant,
            quality,
            payload,
        } => {
            let tag = TimeTag {
                instant: *instant,
                quality: *quality,
            };
            data_answer(alloc, given, life, stream, tag, payload)
        }
        Arrival::Layout { sections, .. } => {
            Ok(bare(alloc, layout_outcome(given, life, stream, sections)))
        }
    }
}

/// The outcome of a configuration of a PMU, which has one section.
fn layout_outcome(
    given: &Given,
    life: &[Answered],
    stream: usize,
    sections: &[ColumnSection],
) -> Outcome
    ensures { (stamp : Option Stamp) →
        bare result ≡ node_answer (given_view given.now) (life_view life.now) stream
        (Layout stamp (map section_part sections.now)) }
{
    match sections {
        [only] => {
            let opening = count_for(stream, &given.counts);
            section_answer(opening, held_section(given, life, stream), &only.section)
        }
        _ => Outcome::Refused(Refusal::NoConfiguration(CfgFault::TooMany)),
    }
}

/// The answer to data of a PMU: it gives the cell of its column, under the section in force.
fn data_answer(
    alloc: Global,
    given: &Given,
    life: &[Answered],
    stream: usize,
    tag: TimeTag,
    payload: &[u8],
) -> Result<Answer, AllocError>
    ensures { IfOk result (λ answer. answer_view answer
        ≡ data_answer (given_view given.now) (life_view life.now) stream tag.instant tag.quality
        payload.now (section_in_force (given_view given.now) (life_view life.now) stream)) }
{
    let Some(section) = section_in_force(given, life, stream) else {
        return Ok(bare(alloc, Outcome::Refused(Refusal::NoConfig)));
    };
    if payload.len() != 2 * section.shape.word_count() {
        return Ok(bare(alloc, Outcome::Refused(Refusal::WrongLength)));
    }
    let cell = ColumnCell {
        column: stream,
        block: body(section.shape, payload),
        quality: tag.quality,
    };
    let cells = one_cell(alloc, cell)?;
    answer_in_time(alloc, given, life, stream, tag.instant, cells)
}

/// This cell alone.
fn one_cell(alloc: Global, cell: ColumnCell) -> Result<Vec<ColumnCell>, AllocError>
    ensures { IfOk result (λ cells. map part_view cells.items ≡ part_view cell ∷ []) }
{
    let mut cells = Vec::new(alloc);
    cells.push(cell)?;
    Ok(cells)
}
