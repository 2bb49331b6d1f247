//! A run of all receivers beside the aligner and the sender.
ghost use Rattle.std.specs.Prelude.{◌≡◌, ◌≤◌, ◌+◌, IsErrOf, Some, [], vec_len};
ghost use Rattle.crossbeam_channel.specs.Claims.{IsSeatAt};
ghost use Rattle.crossbeam_channel.specs.Ends.{receives_on, sends_on};
ghost use Rattle.pdc_aligner.specs.Opened.{IsOpenedWith};
ghost use Rattle.pdc_aligner.specs.Rate.{IsAtRate};
ghost use Rattle.pdc_hub.specs.Counted.{AreAllParts, HaveCountedNone};
ghost use Rattle.pdc_hub.specs.Pops.{HasAllTop, HasAllTurns, popped_by};
ghost use Rattle.pdc_life.specs.Given.{Given};
ghost use Rattle.pdc_publisher.specs.Publisher.{last_in, output_in};
ghost use Rattle.pdc_threads.specs.Aligning.{HasAligned, MayAlign};
ghost use Rattle.pdc_threads.specs.Conducted.{HasRunAs, HasSentOut};
ghost use Rattle.pdc_threads.specs.Counted.{HasCountedAll};
ghost use Rattle.pdc_threads.specs.Crew.{IsReady, IsUnread};
ghost use Rattle.pdc_threads.specs.Ran.{EndedByMark, EndedBySink, HasSent, PublishesAs};
ghost use Rattle.pdc_threads.specs.Ran.{RanOneLife, stored_in};
ghost use Rattle.pdc_threads.specs.Shares.{AreParts};
ghost use Rattle.pdc_threads.specs.Run.{ArePublished, HasEach, IsSummed};
ghost use Rattle.pdc_threads.specs.Wanted.{LackedRoom};

use crate::asking::{note_denied, ring};
use crate::crew::{Crew, Finished, Manned, Ran, not_begun};
use crate::outside::Outside;
use crate::receivers::{buffered, join_all, start_all};
use crate::totals::{count_all, outcome};
use pdc_aligner::{Aligner, Pace, align};
use pdc_core::Core;
use pdc_hub::{Hub, HubFault, Intake, Naming};
use pdc_life::MAX_PMUS;
use pdc_mark::Mark;
use pdc_pipe::{Ends, HandsOn, Receiver, Sent, close, send_owned, settle};
use pdc_ports::Ticker;
use std::alloc::Global;
use std::snapshot::Snapshot;
use std::sync::Wait;
use std::thread;
use std::thread::{Scope, Threads};

/// Starts the sender and the receivers, aligns, and joins all.
fn conduct<
    's,
    E: 's,
    C: Core + Drop + Send + 's,
    N: Naming<C::Settings> + Send + Sync + 's,
    W: Outside + 's,
    R: Threads + Wait + Sync,
>(
    scope: &'s Scope<'s, E>,
    rt: &'s R,
    alloc: Global,
    intake: &'s Intake<'s, C, N>,
    from: &'s Receiver,
    manned: Manned<N, W>,
) -> Finished<N, W::Mark, W::Sink>
where
    C::Settings: Sync + 's,
    W::Source: 's,
    W::Sink: 's,
    requires ready { IsReady intake.now manned }
    requires ends { receives_on from.now ≡ sends_on manned.aligner.writer.to }
    requires reader { IsUnread (IsSeatAt (receives_on from.now)) manned.reader }
    ensures conducted { HasRunAs intake.now
        W.Source.told W.Ticker.gave W.Sink.took W.Sink.failures_of manned result }
    ensures counted { HasCountedAll N.taken N.refused N.configured result }
{
    let Manned {
        shares,
        inputs,
        aligner,
        pace,
        reader,
        back,
        sink,
    } = manned;
    let hub = intake.hub;
    let mut aligner = aligner;
    let mut shares = shares;
    let was = Snapshot::of(&sink);
    let child = match scope.spawn_with(
        HandsOn { sink: was, from },
        move || -> Sent<W::Sink>
            requires { IsUnread (IsSeatAt (receives_on from.now)) reader }
            ensures { HasSentOut (IsSeatAt (receives_on from.entry.now))
                W.Sink.took W.Sink.failures_of sink result }
        { send_owned(rt, back, from, reader, sink) },
    ) {
        Ok(child) => child,
        Err(refused) => {
            note_denied(&refused);
            hub.close(rt, &mut aligner.pops);
            let _closed = close(rt, &mut aligner.writer);
            let sent = (refused.value)();
            let Aligner {
                publisher,
                pops,
                ticker: _,
                writer,
            } = aligner;
            let (sink, _ended) = settle(writer, sent);
            return not_begun(publisher, sink, shares, pops);
        }
    };
    let started = start_all(scope, rt, alloc, intake, inputs, &mut shares);
    let aligned = align_or_close(rt, alloc, intake, started.complete, &mut aligner, pace);
    let joined = join_all(rt, alloc, started, &mut shares);
    let sent = child.join(rt);
    let Aligner {
        publisher,
        pops,
        ticker: _,
        writer,
    } = aligner;
    let mut pops = pops;
    let (sink, ended) = settle(writer, sent);
    let counted = count_all(rt, hub, joined.complete, &mut shares, &mut pops);
    let outcome = outcome(joined, aligned, ended, counted);
    Finished {
        ran: Ran {
            publisher,
            sink,
            outcome,
        },
        shares,
        pops,
    }
}

/// Aligns. Where not all receivers were started, closes the hub and puts the end mark in its place.
fn align_or_close<C: Core + Drop, N: Naming<C::Settings>, M: Mark, I: Ticker, R: Wait>(
    rt: &R,
    alloc: Global,
    intake: &Intake<'_, C, N>,
    complete: bool,
    aligner: &mut Aligner<N, M, I>,
    pace: Pace,
) -> Result<u64, HubFault>
    requires { MayAlign intake.now aligner.old }
    ensures { HasAligned intake.now I.gave pace complete aligner.old aligner.new result }
{
    let hub = intake.hub;
    if !complete {
        hub.close(rt, &mut aligner.pops);
        let _closed = close(rt, &mut aligner.writer);
        return Err(HubFault::NoMemory);
    }
    align(rt, alloc, hub, aligner, &pace).outcome
}

/// As `run`, over a channel that is there.
fn run_over<
    'x,
    C: Core + Drop + Send + 'x,
    N: Naming<C::Settings> + Send + Sync + 'x,
    W: Outside + 'x,
    R: Threads + Wait + Sync,
>(
    rt: &'x R,
    alloc: Global,
    intake: &'x Intake<'x, C, N>,
    from: &'x Receiver,
    manned: Manned<N, W>,
) -> Finished<N, W::Mark, W::Sink>
where
    C::Settings: Sync + 'x,
    W::Source: 'x,
    W::Sink: 'x,
    requires ready { IsReady intake.now manned }
    requires ends { receives_on from.now ≡ sends_on manned.aligner.writer.to }
    requires reader { IsUnread (IsSeatAt (receives_on from.now)) manned.reader }
    ensures conducted { HasRunAs intake.now
        W.Source.told W.Ticker.gave W.Sink.took W.Sink.failures_of manned result }
    ensures counted { HasCountedAll N.taken N.refused N.configured result }
{
    thread::scope(
        thread::scope_env(),
        rt,
        move |scope| -> Finished<N, W::Mark, W::Sink>
            requires ready { IsReady intake.now manned }
            requires ends { receives_on from.now ≡ sends_on manned.aligner.writer.to }
            requires reader { IsUnread (IsSeatAt (receives_on from.now)) manned.reader }
        { conduct(scope, rt, alloc, intake, from, manned) },
    )
}

/// Runs a receiver for each source, the aligner and the sender, each in a thread of its own but the aligner, and joins them. The publisher,
/// the sink, the shares and who popped are handed back.
///
/// # Errors
///
/// The first fault in the order receivers, aligner, sender: `SourceFault`, `SinkFault` or `Device` where a device failed; `NoMemory` where
/// memory or a thread was wanted; `CountsUsedUp` where a total was at its greatest value; `Stuck` where a source gave up, or an end of the
/// channel found the other one gone. What was received, published and sent before stays.
pub fn run<
    C: Core + Drop + Send,
    N: Naming<C::Settings> + Send + Sync,
    W: Outside,
    R: Threads + Wait + Sync,
>(
    rt: &R,
    alloc: Global,
    hub: &Hub<C, N>,
    settings: &C::Settings,
    crew: Crew<N, W>,
) -> Finished<N, W::Mark, W::Sink>
// Each stream has a source, in order; the shares are whole and have counted nothing; and the core was opened with what the publisher's
// mark stores, at its rate.
where
    C::Settings: Sync,
    requires settings { N.settings ≡ Some settings.now }
    requires streams { vec_len crew.sources ≡ C.Settings.streams settings.now }
    requires few { vec_len crew.sources ≤ MAX_PMUS }
    requires parts { AreParts (vec_len crew.sources + 1) crew.shares }
    requires whole { AreAllParts crew.shares N.taken N.refused N.configured }
    requires amounts { HaveCountedNone crew.shares }
    requires top { HasAllTop crew.pops N.top }
    requires last { crew.pops.top.amount ≡ last_in crew.publisher }
    requires floor { last_in crew.publisher ≤ (stored_in crew.publisher).floor }
    requires rate { IsAtRate N.given (output_in crew.publisher).rate }
    requires opened { IsOpenedWith N.given (stored_in crew.publisher) }
    requires given { (g : Given) × (N.given ≡ Some g) }
    requires turns { HasAllTurns crew.pops N.turns }
    requires begun { crew.pops.front ≡ [] }
    // The totals are the sums over the receivers, and the amounts of the shares, which are whole again: so they are the core's counters.
    ensures totals { IsSummed result.ran.outcome }
    ensures counted { HasCountedAll N.taken N.refused N.configured result }
    // Each source has an entry.
    ensures each { HasEach result.ran.outcome (vec_len crew.sources) }
    // There is one life, of which the sources gave what came, and the sink took the frames.
    ensures one { RanOneLife C.rules (C.Settings.says settings.now) N.given
        W.Source.told W.Ticker.gave W.Sink.took W.Sink.failures_of crew result.ran }
    // Where it is Ok, the rows that were popped are as many as were published.
    ensures popped { ArePublished result.ran.outcome (popped_by crew.pops) (popped_by result.pops) }
    // Want of memory ends it only where a request was refused, or a thread or the channel was not given.
    ensures lacked { IsErrOf result.ran.outcome HubFault.NoMemory → LackedRoom }
    // Only a sink that failed ends it by the sink's fault, and only the mark's device by the device's.
    ensures sink { EndedBySink W.Sink.failures_of crew.sink result.ran }
    ensures mark { EndedByMark crew.publisher result.ran }
    // The publisher keeps what its frames say, and how many instants it reserves ahead.
    ensures kept { PublishesAs crew.publisher result.ran.publisher }
    // What the sink took are the first of the frames that were put, whose instants strictly rise, lie above the last one published before, and
    // are at most the floor that is stored then; all of them where the run was Ok, and then so many rows were published.
    ensures sent { HasSent W.Sink.took crew result.ran }
{
    let Crew {
        shares,
        pops,
        sources,
        publisher,
        ticker,
        pace,
        sink,
    } = crew;
    let Some(inputs) = buffered(alloc, sources) else {
        return not_begun(publisher, sink, shares, pops);
    };
    let Ok(ends) = ring(rt, alloc) else {
        return not_begun(publisher, sink, shares, pops);
    };
    let Ends {
        writer,
        from,
        reader,
        back,
    } = ends;
    let aligner = Aligner {
        publisher,
        pops,
        ticker,
        writer,
    };
    let manned = Manned::<N, W> {
        shares,
        inputs,
        aligner,
        pace,
        reader,
        back,
        sink,
    };
    let intake = Intake { hub, settings };
    run_over::<C, N, W, R>(rt, alloc, &intake, &from, manned)
}
