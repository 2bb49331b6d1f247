//! A run with consumers beside it.
ghost use Rattle.std.specs.Prelude.{◌≡◌, vec_len};
ghost use Rattle.pdc_service.specs.Handed.{TicksBy, answer_to};
ghost use Rattle.pdc_service.specs.Serving.{IsRunOf, RanServing};
ghost use Rattle.pdc_startup.specs.pdc_sockets.declared.concentrator.Concentrator.{Concentrator};
ghost use Rattle.pdc_startup.specs.pdc_sockets.Concentrator.{output_of, streams_of};
ghost use Rattle.pdc_threads.specs.Run.{GivesFrom};

use crate::beside::{start_journal, start_metrics, start_record, start_sessions};
use crate::either::run_concentrator;
use crate::run_texts::unsent_text;
use pdc_journal::{AnnouncingSink, CountingSink, Reporting, RunCounters};
use pdc_mark::Mark;
use pdc_server::{Naming, Recent, RememberingSink, Seats};
use pdc_startup::{
    Begun, Concentrator, ControlledTicker, Observed, OwnFiles, RecordedTicker, RunOptions, Series,
    ServiceFault, Shelf, observe_all, plan_of,
};
use pdc_threads::{HubFault, Sink, Source, Ticker, Totals};
use pdc_ticking::{ClockTicker, Rated, Timepiece, WatchedTicker};
use std::alloc::Global;
use std::marker::Brand;
use std::net::TcpListener;
use std::random::RandomSource;
use std::rt::Clock;
use std::sync::Wait;
use std::sync::atomic::{AtomicU64, Ordering};
use std::thread;
use std::thread::{Scope, Threads};

/// What is open for a run: its mark, a source for each stream, by what it waits for its ticks or who gives them, and where frames go.
#[derive(Drop)]
pub struct Opened<S: Source + Drop, T: Drop, M: Mark + Drop, K: Sink + Drop> {
    pub mark: Begun<M>,
    pub sources: Vec<S>,
    pub time: T,
    pub sink: K,
}

/// Where consumers come, how many are served at once, and where the counters are asked for.
#[derive(Drop)]
pub struct Consumers {
    pub listener: TcpListener,
    pub most: u8,
    pub seats: Seats,
    pub metrics: Option<TcpListener>,
}

/// What a run has beside what is open for it: whose it is, for how long, who is served beside it, and what is watched of it.
#[derive(Drop)]
pub struct Serving<'a> {
    pub concentrator: &'a Concentrator,
    pub options: &'a RunOptions<'a>,
    pub consumers: &'a Consumers,
    pub observed: &'a Observed,
}

/// Where a run counts.
fn counters_of(observed: &Observed) -> RunCounters<'_> {
    RunCounters {
        tallies: observed.tallies.as_slice(),
        unsent: &observed.signs.unsent,
        outputs: observed.outputs.as_slice(),
        left_out: observed.left_out.as_ref(),
    }
}

/// Runs by the ticks of a ticker, and tells at the end how many frames could not be sent.
fn run_ticked<
    's,
    S: Source + Send + Drop,
    I: Ticker + Drop,
    M: Mark + Drop,
    K: Sink + Send + Drop,
    N: Naming + Send + 's,
    R: Threads + Wait + Clock + Sync + 's,
>(
    rt: &'s R,
    alloc: Global,
    serving: &'s Serving<'s>,
    opened: Opened<S, I, M, K>,
    recent: &'s Recent<N>,
) -> Result<Totals, ServiceFault>
    requires { IsRunOf serving.now.concentrator.now (vec_len opened.sources) N.stream
        (output_of serving.now.concentrator.now).rate }
    ensures { RanServing S.told (GivesFrom I.gave opened.time)
        K.took M.stored serving.now.concentrator.now opened result }
{
    let (concentrator, options, observed) = (
        serving.concentrator,
        serving.options,
        serving.observed,
    );
    let Opened {
        mark,
        sources,
        time,
        sink,
    } = opened;
    let output = concentrator.output();
    let plan = plan_of(&concentrator.service_settings());
    let (journal, signs) = (&observed.journal, &observed.signs);
    let Some(sources) = observe_all(rt, alloc, concentrator, observed, sources) else {
        return Err(ServiceFault::Run(HubFault::NoMemory));
    };
    let counters = counters_of(observed);
    let ticker = ControlledTicker::new(rt, alloc, options.control, counters, time);
    let ticker = RecordedTicker::new(rt, observed.recording.as_ref(), ticker);
    let ticker = WatchedTicker::new(
        rt,
        alloc,
        journal,
        &observed.last_tick,
        &signs.late_ticks,
        output.rate,
        ticker,
    );
    let sink = AnnouncingSink::new(rt, alloc, journal, observed.followers(), sink);
    let sink = CountingSink::new(sink, &signs.unsent);
    let sink = RememberingSink::new(rt, alloc, recent, output, &signs.unsent, sink);
    let mark = mark.timed(rt, &observed.stores);
    let outcome = run_concentrator(rt, alloc, concentrator, &plan, mark, sources, ticker, sink);
    let unsent = signs.unsent.load(Ordering::Relaxed);
    if unsent > 0 {
        journal.tell(rt, unsent_text(alloc, unsent));
    }
    let is_unreadable = signs.is_clock_unreadable.load(Ordering::Relaxed);
    answer(outcome, is_unreadable)
}

/// Runs by the ticks of a clock.
fn run_observed<
    's,
    S: Source + Send + Drop,
    T: Timepiece + Drop,
    M: Mark + Drop,
    K: Sink + Send + Drop,
    N: Naming + Rated + Send + 's,
    R: Threads + Wait + Clock + Sync + 's,
>(
    rt: &'s R,
    alloc: Global,
    serving: &'s Serving<'s>,
    opened: Opened<S, T, M, K>,
    recent: &'s Recent<N>,
) -> Result<Totals, ServiceFault>
    requires { IsRunOf serving.now.concentrator.now (vec_len opened.sources) N.stream N.rate }
    ensures { RanServing S.told (TicksBy T.showed opened.time
        (output_of serving.now.concentrator.now).rate)
        K.took M.stored serving.now.concentrator.now opened result }
{
    let (options, observed) = (serving.options, serving.observed);
    let Opened {
        mark,
        sources,
        time,
        sink,
    } = opened;
    let rate = serving.concentrator.output().rate;
    let flag = &observed.signs.is_clock_unreadable;
    let clock = ClockTicker::<T, N>::new(time, rate, options.ticks, flag);
    let counters = counters_of(observed);
    let ticker = Reporting::new(rt, alloc, &observed.journal, counters, clock, options.every);
    let ticked = Opened {
        mark,
        sources,
        time: ticker,
        sink,
    };
    run_ticked(rt, alloc, serving, ticked, recent)
}

/// What a run answers: what its parts do, or that the clock could not be read.
fn answer(outcome: Result<Totals, HubFault>, is_unreadable: bool) -> Result<Totals, ServiceFault>
    ensures { result ≡ answer_to outcome is_unreadable }
{
    match outcome {
        Ok(_) if is_unreadable => Err(ServiceFault::Clock),
        Ok(totals) => Ok(totals),
        Err(fault) => Err(ServiceFault::Run(fault)),
    }
}

/// Nothing is run of what was opened, for want of memory.
fn not_begun<S: Source + Drop, T: Timepiece + Drop, M: Mark + Drop, K: Sink + Drop>(
    opened: Opened<S, T, M, K>,
) -> Result<Totals, ServiceFault>
    ensures { (concentrator : Concentrator) → RanServing S.told
        (TicksBy T.showed opened.time (output_of concentrator).rate) K.took M.stored concentrator
        opened result }
{
    drop(opened);
    Err(ServiceFault::Run(HubFault::NoMemory))
}

/// Starts the record, the journal, the counters and the sessions, runs, and ends them.
fn conduct<
    's,
    E: 's,
    S: Source + Send + Drop + 's,
    T: Timepiece + Drop + 's,
    M: Mark + Drop + 's,
    K: Sink + Send + Drop + 's,
    N: Naming + Rated + Send + 's,
    R: Threads + Wait + Clock + Eprint + RandomSource + Shelf + OwnFiles + Sync + 's,
>(
    scope: &'s Scope<'s, E>,
    rt: &'s R,
    alloc: Global,
    serving: &'s Serving<'s>,
    opened: Opened<S, T, M, K>,
    record: Option<Series<'s>>,
    recent: &'s Recent<N>,
) -> Result<Totals, ServiceFault>
    requires { IsRunOf serving.now.concentrator.now (vec_len opened.sources) N.stream N.rate }
    ensures { RanServing S.told (TicksBy T.showed opened.time
        (output_of serving.now.concentrator.now).rate)
        K.took M.stored serving.now.concentrator.now opened result }
{
    let observed = serving.observed;
    let is_begun = start_record(scope, rt, alloc, record, observed)
        && start_journal(scope, rt, &observed.journal)
        && start_metrics(scope, rt, alloc, serving.consumers, observed)
        && start_sessions(scope, rt, alloc, recent, serving);
    let outcome = if is_begun {
        run_observed(rt, alloc, serving, opened, recent)
    } else {
        not_begun(opened)
    };
    recent.close(rt);
    observed.signs.has_ended.store(true, Ordering::SeqCst);
    if let Some(recording) = &observed.recording {
        recording.close(rt);
    }
    observed.journal.close(rt);
    outcome
}

/// Runs a concentrator that keeps what it sends in `recent`. Its consumers are served, and what it tells is printed, in threads beside it,
/// for as long as it runs.
fn run_keeping<
    'x,
    S: Source + Send + Drop + 'x,
    T: Timepiece + Drop + 'x,
    M: Mark + Drop + 'x,
    K: Sink + Send + Drop + 'x,
    N: Naming + Rated + Send + 'x,
    R: Threads + Wait + Clock + Eprint + RandomSource + Shelf + OwnFiles + Sync + 'x,
>(
    rt: &'x R,
    alloc: Global,
    serving: &'x Serving<'x>,
    opened: Opened<S, T, M, K>,
    record: Option<Series<'x>>,
    recent: &'x Recent<N>,
) -> Result<Totals, ServiceFault>
    requires { IsRunOf serving.now.concentrator.now (vec_len opened.sources) N.stream N.rate }
    ensures { RanServing S.told (TicksBy T.showed opened.time
        (output_of serving.now.concentrator.now).rate)
        K.took M.stored serving.now.concentrator.now opened result }
{
    thread::scope(
        thread::scope_env(),
        rt,
        move |scope| -> Result<Totals, ServiceFault>
            requires { IsRunOf serving.now.concentrator.now (vec_len opened.sources) N.stream
                N.rate }
        { conduct(scope, rt, alloc, serving, opened, record, recent) },
    )
}

/// Runs a concentrator of the stream that is named, and serves its consumers.
fn run_named<
    S: Source + Send + Drop,
    T: Timepiece + Drop,
    M: Mark + Drop,
    K: Sink + Send + Drop,
    N: Naming + Rated + Send,
    R: Threads + Wait + Clock + Eprint + RandomSource + Shelf + OwnFiles + Sync,
>(
    rt: &R,
    alloc: Global,
    serving: &Serving<'_>,
    opened: Opened<S, T, M, K>,
    record: Option<Series<'_>>,
) -> Result<Totals, ServiceFault>
    requires { IsRunOf serving.now.concentrator.now (vec_len opened.sources) N.stream N.rate }
    ensures { RanServing S.told (TicksBy T.showed opened.time
        (output_of serving.now.concentrator.now).rate)
        K.took M.stored serving.now.concentrator.now opened result }
{
    let output = serving.concentrator.output();
    let Ok(recent) = Recent::<N>::new(alloc, &output, opened.mark.start()) else {
        return not_begun(opened);
    };
    run_keeping(rt, alloc, serving, opened, record, &recent)
}

/// Runs a concentrator, serves its consumers and prints what is told, for as long as it runs.
pub fn run_serving<
    S: Source + Send + Drop,
    T: Timepiece + Drop,
    M: Mark + Drop,
    K: Sink + Send + Drop,
    R: Threads + Wait + Clock + Eprint + RandomSource + Shelf + OwnFiles + Sync,
>(
    rt: &R,
    alloc: Global,
    serving: &Serving<'_>,
    opened: Opened<S, T, M, K>,
    record: Option<Series<'_>>,
) -> Result<Totals, ServiceFault>
    requires { vec_len opened.sources ≡ streams_of serving.now.concentrator.now }
    // Its totals are the sums over the receivers, with an entry for each stream; it failed as runs do; and it was one life, of which its
    // sources gave what came, its timepiece showed the ticks, and its sink took what a run hands on.
    ensures { RanServing S.told (TicksBy T.showed opened.time
        (output_of serving.now.concentrator.now).rate)
        K.took M.stored serving.now.concentrator.now opened result }
{
    run_named::<S, T, M, K, Brand, R>(rt, alloc, serving, opened, record)
}
