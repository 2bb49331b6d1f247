//! Runs of a node and of the merger.
ghost use Rattle.std.specs.Prelude.{◌≡◌, ◌≤◌, ◌+◌, Err, IsErrOf, Some, [], length, vec_len};
ghost use Rattle.pdc_threads.specs.Ran.{EndedByMark, EndedBySink, PublishesAs, PublishesSo};
ghost use Rattle.pdc_threads.specs.Ran.{stored_in};
ghost use Rattle.pdc_threads.specs.Opened.{IsOpenedWith};
ghost use Rattle.pdc_threads.specs.Rate.{IsAtRate};
ghost use Rattle.pdc_threads.specs.Run.{HasEach, HasRun, IsSummed};
ghost use Rattle.pdc_threads.specs.Wanted.{LackedRoom};
ghost use Rattle.pdc_hub.specs.declared.fault.HubFault.TheVariants.{NoMemory};
ghost use Rattle.pdc_life.specs.CoreKind.{OfMerger, OfNode};
ghost use Rattle.pdc_publisher.specs.Publisher.{last_in, output_in};
ghost use Rattle.pdc_service.specs.Running.{AreCutInto, AreCutSo, BeginsAs, EndedByBegun};
ghost use Rattle.pdc_service.specs.Running.{HasSentOf, HasSentReady, WasLifeBy, WasLifeOf};
ghost use Rattle.pdc_service.specs.Running.{WasLifeReady};

use crate::handed::Handed;
use pdc_core::{Core, Opens, Reads};
use pdc_life::{MAX_PMUS, MergerSettings, Settings};
use pdc_mark::Mark;
use pdc_merge::{Merger, copy_of_merger};
use pdc_node::{Node, copy_of};
use pdc_publisher::Publisher;
use pdc_row::Output;
use pdc_startup::Plan;
use pdc_table::RingTable;
use pdc_threads::{Blanks, Crew, Hub, HubFault, Naming, Outside, Pace, Ran, Sink, run};
use std::alloc::Global;
use std::marker::Brand;
use std::sync::Wait;
use std::thread::Threads;

/// The first core of a life, with what its mark stored, and after how many steps the base is brought up.
#[derive(Drop)]
struct First<C: Opens> {
    core: C,
    start: u32,
    counts: [u16; MAX_PMUS],
    limit: usize,
}

/// What a run is handed, once its mark is the publisher's.
#[derive(Drop)]
struct Ready<W: Outside> {
    sources: Vec<W::Source>,
    publisher: Publisher<W::Mark>,
    ticker: W::Ticker,
    pace: Pace,
    sink: W::Sink,
}

/// A life that is to run: its settings, what its frames say, and how it runs.
#[derive(Drop)]
struct Life<'a, T> {
    settings: &'a T,
    output: Output,
    plan: &'a Plan,
}

/// Runs a core at the start of its life, the base of the recorder, with another one that is opened like it, its present state.
fn opened<
    C: Opens + Send,
    N: Naming<C::Settings> + Send + Sync,
    W: Outside,
    R: Threads + Wait + Sync,
>(
    rt: &R,
    alloc: Global,
    settings: &C::Settings,
    first: First<C>,
    blanks: Blanks,
    ready: Ready<W>,
) -> Ran<W::Mark, W::Sink>
where
    C::Settings: Sync,
    requires given { N.given ≡
        Some (C.given_with settings.now first.start (last_in ready.publisher) first.counts) }
    requires stands { C.stands_for first.core
        (C.given_with settings.now first.start (last_in ready.publisher) first.counts) [] }
    requires settings { N.settings ≡ Some settings.now }
    requires same { C.settings_of first.core ≡ settings.now }
    requires limit { 1 ≤ first.limit }
    requires blanks { AreCutSo N.taken N.refused N.configured N.top N.turns blanks }
    requires log { (blanks.log.seen.book ≡ N.book) × (blanks.log.seen.log ≡ []) }
    requires count { AreCutInto (vec_len ready.sources + 1)
        N.taken N.refused N.configured N.top N.turns }
    requires streams { vec_len ready.sources ≡ C.Settings.streams settings.now }
    requires few { vec_len ready.sources ≤ MAX_PMUS }
    requires floor { last_in ready.publisher ≡ (stored_in ready.publisher).floor }
    requires rate { IsAtRate N.given (output_in ready.publisher).rate }
    requires opened { IsOpenedWith N.given (stored_in ready.publisher) }
    ensures totals { IsSummed result.outcome }
    ensures lacked { IsErrOf result.outcome NoMemory → LackedRoom }
    ensures kept { PublishesAs ready.publisher result.publisher }
    ensures sink { EndedBySink W.Sink.failures_of ready.sink result }
    ensures each { HasEach result.outcome (vec_len ready.sources) }
    ensures mark { EndedByMark ready.publisher result }
    ensures one { WasLifeReady C.rules (C.Settings.says settings.now)
        (C.given_with settings.now first.start (last_in ready.publisher) first.counts)
        W.Source.told W.Ticker.gave W.Sink.took W.Sink.failures_of ready result }
    ensures sent { HasSentReady W.Sink.took ready result }
{
    let First {
        core,
        start,
        counts,
        limit,
    } = first;
    let Ready {
        sources,
        publisher,
        ticker,
        pace,
        sink,
    } = ready;
    let floor = publisher.last();
    let Ok(state) = core.open_next(alloc, start, floor, &counts) else {
        return not_run(publisher, sink);
    };
    let Ok((hub, shares, pops)) = Hub::<C, N>::new(alloc, core, state, limit, floor, blanks) else {
        return not_run(publisher, sink);
    };
    let crew = Crew {
        shares,
        pops,
        sources,
        publisher,
        ticker,
        pace,
        sink,
    };
    run::<C, N, W, R>(rt, alloc, &hub, settings, crew).ran
}

/// Nothing was run, for want of memory.
fn not_run<M: Mark, K: Sink>(publisher: Publisher<M>, sink: K) -> Ran<M, K>
    requires floor { last_in publisher ≡ (stored_in publisher).floor }
    ensures outcome { result.outcome ≡ Err NoMemory }
    ensures kept { (result.publisher ≡ publisher) × (result.sink ≡ sink) }
    ensures sent { HasRun (K.took sink result.sink)
        (last_in publisher) (stored_in result.publisher).floor result.outcome }
{
    Ran {
        publisher,
        sink,
        outcome: Err(HubFault::NoMemory),
    }
}

/// Runs a core whose life begins with what the mark stores. The copy of the settings goes into the core.
fn run_begun<C: Opens + Send, W: Outside, R: Threads + Wait + Sync>(
    rt: &R,
    alloc: Global,
    life: &Life<'_, C::Settings>,
    copy: C::Settings,
    handed: Handed<W>,
) -> Ran<W::Mark, W::Sink>
where
    C::Settings: Sync,
    requires copy { copy ≡ life.now.settings.now }
    requires begins { BeginsAs C.given_with life.now.settings.now life.now.output }
    requires streams { vec_len handed.sources ≡ C.Settings.streams life.now.settings.now }
    requires few { vec_len handed.sources ≤ MAX_PMUS }
    ensures totals { IsSummed result.outcome }
    ensures lacked { IsErrOf result.outcome NoMemory → LackedRoom }
    ensures kept { PublishesSo life.now.output life.now.plan.now.lead result.publisher }
    ensures sink { EndedBySink W.Sink.failures_of handed.sink result }
    ensures each { HasEach result.outcome (vec_len handed.sources) }
    ensures mark { EndedByBegun handed.mark result }
    ensures one { WasLifeBy C.rules (C.Settings.says life.now.settings.now)
        (C.given_with life.now.settings.now) life.now.output life.now.plan.now.layout_every
        W.Source.told W.Ticker.gave W.Sink.took W.Sink.failures_of handed result }
    ensures sent { HasSentOf W.Sink.took handed result }
{
    let Handed {
        mark,
        sources,
        ticker,
        sink,
    } = handed;
    let (output, plan) = (life.output, life.plan);
    let mark = mark.into_mark();
    let (start, floor) = mark.stored();
    let counts = mark.counts();
    let publisher = Publisher::new(mark, output, plan.lead);
    let Ok(core) = C::open_first(alloc, copy, start, floor, &counts) else {
        return not_run(publisher, sink);
    };
    let blanks = Blanks::new(sources.len() as u64 + 1);
    let first = First {
        core,
        start,
        counts,
        limit: plan.limit,
    };
    let ready = Ready::<W> {
        sources,
        publisher,
        ticker,
        pace: Pace {
            rate: output.rate,
            layout_every: plan.layout_every,
        },
        sink,
    };
    opened::<C, Brand, W, R>(rt, alloc, life.settings, first, blanks, ready)
}

/// Runs a node: a receiver for each PMU, in the order of the settings, the aligner and the sender. Its life begins with what the mark
/// stores, with nothing taken, and its now is 0 until the first tick.
///
/// # Errors
///
/// As `pdc_threads`'s `run`; the publisher and the sink are handed back.
pub fn run_node<W: Outside, R: Threads + Wait + Sync>(
    rt: &R,
    alloc: Global,
    settings: &Settings,
    plan: &Plan,
    handed: Handed<W>,
) -> Ran<W::Mark, W::Sink>
    // Each PMU has a source.
    requires { vec_len handed.sources ≡ length settings.now.pmus.items }
    // The totals are the sums over the receivers.
    ensures totals { IsSummed result.outcome }
    // Want of memory ends it only where a request was refused, or a thread or the channel was not given.
    ensures lacked { IsErrOf result.outcome NoMemory → LackedRoom }
    // Only a sink that failed ends it by the sink's fault.
    ensures sink { EndedBySink W.Sink.failures_of handed.sink result }
    // What the sink took are the first of the frames put, whose instants strictly rise above the floor that was stored, and are at most the
    // one that is stored then; all of them where the run was Ok, and then so many rows were published.
    ensures sent { HasSentOf W.Sink.took handed result }
    // Each source has an entry.
    ensures each { HasEach result.outcome (vec_len handed.sources) }
    // The publisher is one of the node's frames, and reserves as many instants ahead as the plan says.
    ensures kept { PublishesSo settings.now.output plan.now.lead result.publisher }
    // Only a mark that stood broken, or whose device failed, ends it by the device's fault.
    ensures mark { EndedByBegun handed.mark result }
    // It was one life of a node, begun with what the mark stored, of which the sources gave what came, and the sink took the frames.
    ensures one { WasLifeOf (OfNode settings.now) plan.now.layout_every
        W.Source.told W.Ticker.gave W.Sink.took W.Sink.failures_of handed result }
{
    let life = Life {
        settings,
        output: settings.output,
        plan,
    };
    run_begun::<Node<RingTable>, W, R>(rt, alloc, &life, copy_of(settings), handed)
}

/// Runs the merger: a receiver for each node, the aligner and the sender, as [`run_node`].
///
/// # Errors
///
/// As `pdc_threads`'s `run`; the publisher and the sink are handed back.
pub fn run_merger<W: Outside, R: Threads + Wait + Sync>(
    rt: &R,
    alloc: Global,
    settings: &MergerSettings,
    plan: &Plan,
    handed: Handed<W>,
) -> Ran<W::Mark, W::Sink>
    // Node A and node B have a source each.
    requires { vec_len handed.sources ≡ 2 }
    ensures totals { IsSummed result.outcome }
    ensures lacked { IsErrOf result.outcome NoMemory → LackedRoom }
    ensures sink { EndedBySink W.Sink.failures_of handed.sink result }
    ensures sent { HasSentOf W.Sink.took handed result }
    ensures each { HasEach result.outcome (vec_len handed.sources) }
    ensures kept { PublishesSo settings.now.output plan.now.lead result.publisher }
    ensures mark { EndedByBegun handed.mark result }
    ensures one { WasLifeOf (OfMerger settings.now) plan.now.layout_every
        W.Source.told W.Ticker.gave W.Sink.took W.Sink.failures_of handed result }
{
    let life = Life {
        settings,
        output: settings.output,
        plan,
    };
    run_begun::<Merger<RingTable>, W, R>(rt, alloc, &life, copy_of_merger(settings), handed)
}
