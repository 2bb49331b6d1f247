//! A life, from its steps.
ghost use Rattle.std.specs.Prelude.{◌≡◌, ◌∷◌, IfOk, length, map};
ghost use Rattle.std.specs.List.{All};
ghost use Rattle.pdc_life.specs.Answer.{step_of};
ghost use Rattle.pdc_life.specs.CoreKind.{IsLifeOf, OfMerger, OfNode};
ghost use Rattle.pdc_life.specs.Run.{IsRun};
ghost use Rattle.pdc_arrival.specs.declared.from_node.TheConstants.{NODES};
ghost use Rattle.pdc_plain_steps.specs.Views.{IsForStream, entry_view, given_view, life_view};
ghost use Rattle.pdc_plain_steps.specs.Views.{step_view};
ghost use Rattle.pdc_plain.specs.Views.{IsLifeFrom, given_to};

use crate::life::Life;
use crate::merger::merged_answer;
use crate::node::node_answer;
use crate::opening::{Opening, given_to_merger, given_to_node};
use pdc_arrival::{read_from_node, read_from_pmu};
use pdc_life::{MergerSettings, Settings, closed_rows_are_frames, lives_are_runs, rows_have_tags};
use pdc_plain_steps::{Answered, Given, LifeStep, pop, tick};
use std::alloc::{AllocError, Global};

/// The life that was given this and has these entries.
fn life_of<'a>(given: Given, entries: Vec<Answered<'a>>) -> Life<'a>
    requires { IsRun (given_view given) (life_view entries.items) }
    ensures given { given_view result.given ≡ given_view given }
    ensures entries { life_view result.entries.items ≡ life_view entries.entry.items }
{
    rows_have_tags();
    closed_rows_are_frames();
    Life { given, entries }
}

/// A step of a node with its answer.
fn node_step<'a>(
    alloc: Global,
    settings: &Settings,
    given: &Given,
    life: &[Answered<'a>],
    step: &LifeStep<'a>,
) -> Result<Answered<'a>, AllocError>
    requires life { IsLifeOf (OfNode settings.now) (given_view given.now) (life_view life.now) }
    requires step { IsForStream (length settings.now.pmus.items) (step_view step.now) }
    ensures life { IfOk result (λ answered. IsLifeOf (OfNode settings.now) (given_view given.now)
        (entry_view answered ∷ life_view life.now)) }
    ensures step { IfOk result (λ answered. step_of (entry_view answered) ≡ step_view step.now) }
{
    lives_are_runs();
    match step {
        LifeStep::Arrive { stream, bytes } => {
            let arrival = read_from_pmu(settings, *stream, bytes);
            let answer = node_answer(alloc, given, life, *stream, &arrival)?;
            Ok(Answered::Arrival {
                stream: *stream,
                bytes: *bytes,
                arrival,
                answer,
            })
        }
        LifeStep::Tick { now, counts } => tick(alloc, given, life, *now, counts),
        LifeStep::Pop => pop(alloc, life),
    }
}

/// The life of a node that takes these steps.
///
/// # Errors
///
/// [`AllocError`] where there is no room and none is got.
pub fn live_node<'a>(
    alloc: Global,
    settings: &Settings,
    opening: &Opening,
    steps: &[LifeStep<'a>],
) -> Result<Life<'a>, AllocError>
    requires { All (λ step. IsForStream (length settings.now.pmus.items) (step_view step))
        steps.now }
    ensures life { IfOk result (λ life. IsLifeFrom (OfNode settings.now) opening.now
        (map step_view steps.now) (life_view life.entries.items)) }
    ensures given { IfOk result (λ life. given_view life.given ≡
        given_to (OfNode settings.now) opening.now) }
{
    lives_are_runs();
    let given = given_to_node(settings, opening);
    let mut entries = Vec::new(alloc);
    for step in steps {
        let answered = node_step(alloc, settings, &given, &entries, step)?;
        entries.insert(0, answered)?;
    }
    Ok(life_of(given, entries))
}

/// A step of the merger with its answer.
fn merger_step<'a>(
    alloc: Global,
    settings: &MergerSettings,
    given: &Given,
    life: &[Answered<'a>],
    step: &LifeStep<'a>,
) -> Result<Answered<'a>, AllocError>
    requires life { IsLifeOf (OfMerger settings.now) (given_view given.now) (life_view life.now) }
    requires step { IsForStream NODES (step_view step.now) }
    ensures life { IfOk result (λ answered. IsLifeOf (OfMerger settings.now) (given_view given.now)
        (entry_view answered ∷ life_view life.now)) }
    ensures step { IfOk result (λ answered. step_of (entry_view answered) ≡ step_view step.now) }
{
    lives_are_runs();
    match step {
        LifeStep::Arrive { stream, bytes } => {
            let arrival = read_from_node(settings, *stream, bytes);
            let answer = merged_answer(alloc, given, life, *stream, &arrival)?;
            Ok(Answered::Arrival {
                stream: *stream,
                bytes: *bytes,
                arrival,
                answer,
            })
        }
        LifeStep::Tick { now, counts } => tick(alloc, given, life, *now, counts),
        LifeStep::Pop => pop(alloc, life),
    }
}

/// The life of the merger that takes these steps. An arrival is for stream 0, which is node A's, or for stream 1, which is node B's.
///
/// # Errors
///
/// [`AllocError`] where there is no room and none is got.
pub fn live_merger<'a>(
    alloc: Global,
    settings: &MergerSettings,
    opening: &Opening,
    steps: &[LifeStep<'a>],
) -> Result<Life<'a>, AllocError>
    requires { All (λ step. IsForStream NODES (step_view step)) steps.now }
    ensures life { IfOk result (λ life. IsLifeFrom (OfMerger settings.now) opening.now
        (map step_view steps.now) (life_view life.entries.items)) }
    ensures given { IfOk result (λ life. given_view life.given ≡
        given_to (OfMerger settings.now) opening.now) }
{
    lives_are_runs();
    let given = given_to_merger(settings, opening);
    let mut entries = Vec::new(alloc);
    for step in steps {
        let answered = merger_step(alloc, settings, &given, &entries, step)?;
        entries.insert(0, answered)?;
    }
    Ok(life_of(given, entries))
}
