//! What a tick closes, asked of the whole list. A life is kept newest first.
ghost use Rattle.std.specs.Prelude.{◌≡◌, ◌≤◌, ◌||◌, IfOk, filter, length, not, nat_le};
ghost use Rattle.std.specs.List.{list_all, range_with_len};
ghost use Rattle.pdc_life.specs.Given.{streams_of};
ghost use Rattle.pdc_life.specs.Life.{open_instants};
ghost use Rattle.pdc_life.specs.Row.{closing, is_due, is_not_awaited, is_over, is_required};
ghost use Rattle.pdc_plain_steps.specs.Views.{given_view, life_view};

use crate::given::Given;
use crate::instants::open_instants;
use crate::past::section_in_force;
use crate::steps::Answered;
use crate::taking::{age_of, take_of};
use pdc_life::WaitKind;
use std::alloc::{AllocError, Global};

/// Whether an instant waits for the stream: with one lane where its column has a section in force, with two always.
fn is_required(given: &Given, life: &[Answered], stream: usize) -> bool
    ensures { result ≡ is_required (given_view given.now) (life_view life.now) stream }
{
    given.lanes != 1 || section_in_force(given, life, stream).is_some()
}

/// Whether the instant does not wait for the stream, or its data for the instant has come.
fn is_not_awaited(given: &Given, life: &[Answered], instant: u64, stream: usize) -> bool
    ensures { result ≡ is_not_awaited (given_view given.now) (life_view life.now) instant stream }
{
    !is_required(given, life, stream) || take_of(given, life, stream, instant).is_some()
}

/// The number of streams: with one lane there is one for each column, with two there are two.
fn stream_count(given: &Given) -> usize
    ensures { streams_of (given_view given.now) ≡ range_with_len 0 result }
{
    if given.lanes == 1 { given.columns } else { 2 }
}

/// Whether the instant waits for no stream any more.
#[tactic(auto, using(crate::proofs::Ranges::all_step))]
fn have_all_come(given: &Given, life: &[Answered], instant: u64) -> bool
    ensures { result ≡ list_all (is_not_awaited (given_view given.now) (life_view life.now)
        instant) (streams_of (given_view given.now)) }
{
    let streams = stream_count(given);
    for stream in 0..streams {
        if !is_not_awaited(given, life, instant, stream) {
            return false;
        }
    }
    true
}

/// Whether the wait of an instant is over, at this age or at this now. It does not wrap.
fn is_over(kind: WaitKind, wait: u64, age: u64, now: u64, instant: u64) -> bool
    ensures { result ≡ is_over kind wait age now instant }
{
    match kind {
        WaitKind::Relative => wait <= age,
        WaitKind::Absolute => wait <= now && instant <= now - wait,
    }
}

/// Whether the instant is due at a tick with this now: each stream that it waits for has come, or its wait is over.
pub fn is_due(given: &Given, life: &[Answered], now: u64, instant: u64) -> bool
    ensures { result ≡ is_due (given_view given.now) (life_view life.now) now instant }
{
    let age = age_of(life, instant) + 1;
    have_all_come(given, life, instant) || is_over(given.wait_kind, given.wait, age, now, instant)
}

/// Whether each of these open instants up to this one is due.
fn are_due_up_to(
    given: &Given,
    life: &[Answered],
    now: u64,
    open_instants: &[u64],
    instant: u64,
) -> bool
    ensures { result ≡ list_all (λ j. not (nat_le j instant) || is_due (given_view given.now)
        (life_view life.now) now j) open_instants.now }
{
    for lower in open_instants {
        if *lower <= instant && !is_due(given, life, now, *lower) {
            return false;
        }
    }
    true
}

/// The instants that close at a tick with this now, in rising order: the open ones for which every open one up to them is due.
///
/// # Errors
///
/// [`AllocError`] where there is no room and none is got.
pub fn closing(
    alloc: Global,
    given: &Given,
    life: &[Answered],
    now: u64,
) -> Result<Vec<u64>, AllocError>
    ensures { IfOk result (λ instants. instants.items ≡
        closing (given_view given.now) (life_view life.now) now) }
{
    let open_instants = open_instants(alloc, given, life)?;
    closing_among(alloc, given, life, now, &open_instants)
}

/// Those of the open instants that close.
fn closing_among(
    alloc: Global,
    given: &Given,
    life: &[Answered],
    now: u64,
    open_instants: &[u64],
) -> Result<Vec<u64>, AllocError>
    ensures { IfOk result (λ instants. instants.items
        ≡ filter (λ i. list_all (λ j. not (nat_le j i) || is_due (given_view given.now)
        (life_view life.now) now j) open_instants.now) open_instants.now) }
{
    let mut closing = Vec::new(alloc);
    for instant in open_instants {
        if are_due_up_to(given, life, now, open_instants, *instant) {
            closing.push(*instant)?;
        }
    }
    Ok(closing)
}
