//! The aligner: ticks, pops, publishes, and puts on the channel. It alone owns the mark.
ghost use Rattle.std.specs.Prelude.{◌≡◌, ◌||◌, ◌++◌, ◌∷◌, IfErr, IfOk, List, OnErr, OnOk, []};
ghost use Rattle.std.specs.Prelude.{length};
ghost use Rattle.pdc_align.specs.Align.{ticked_of};
ghost use Rattle.pdc_aligner.specs.Aligning.{HasLaid, HasLaidBut, HasTickedAs, MayPublish};
ghost use Rattle.pdc_aligner.specs.Aligning.{PutsAll, PutsRising, TicksOnce};
ghost use Rattle.pdc_aligner.specs.Device.{IsOfAligner};
ghost use Rattle.pdc_aligner.specs.Keeping.{HasDeviceOf, KeepsOutput, OnlyCountsChange};
ghost use Rattle.pdc_aligner.specs.Keeping.{counts_in, floor_in};
ghost use Rattle.pdc_aligner.specs.Laid.{AreDone, IsAt, IsBefore, IsDone};
ghost use Rattle.pdc_aligner.specs.Opened.{IsOpenedWith};
ghost use Rattle.pdc_aligner.specs.Rate.{IsAtRate};
ghost use Rattle.pdc_aligner.specs.Sequence.{Rises, instants_of};
ghost use Rattle.pdc_aligner.specs.Turns.{GivesNone, NoneFalls};
ghost use Rattle.pdc_hub.specs.Adding.{AddsTick};
ghost use Rattle.pdc_hub.specs.Closing.{closing_of};
ghost use Rattle.pdc_hub.specs.Pops.{HasAllTop, HasAllTurns, HasSameShares, PopsNothing};
ghost use Rattle.pdc_log.specs.Log.{HasLooked, InTheLife};
ghost use mathlib.Core.List.{IsPrefix};
ghost use Rattle.pdc_pipe.specs.Writing.{GoesOn, IsOpen, put_by};
ghost use Rattle.pdc_pipe.specs.declared.message.Message.TheVariants.{End};
ghost use Rattle.pdc_pipe.specs.declared.message.Message.{Message};
ghost use Rattle.pdc_ports.specs.pdc_arrival.Counts.{counts_after};
ghost use Rattle.pdc_publisher.specs.Publisher.{last_in, lead_in, mark_in, output_in};

use crate::clearing::tick_cleared;
use crate::layouts::{LayoutRequest, put_layout_where, second_of};
use crate::pace::Pace;
use crate::publishing::publish_due;
use pdc_align::Ticked;
use pdc_core::Core;
use pdc_hub::{Hub, HubFault, Ledgers, Naming, Pops};
use pdc_log::Front;
use pdc_mark::Mark;
use pdc_pipe::{Message, Writer, close};
use pdc_ports::{Did, MAX_PMUS, Numbered, Progress, Ticker};
use pdc_publisher::Publisher;
use std::alloc::Global;
use std::sync::{OnceToken, Wait};

/// Who aligns.
#[derive(Drop)]
pub struct Aligner<N: Ledgers, M: Mark, K> {
    /// It publishes, and alone has the mark.
    pub publisher: Publisher<M>,
    /// By which it pops.
    pub pops: Pops<N, M>,
    /// It says when to tick, and is told of what was done.
    pub ticker: K,
    /// Its end of the channel.
    pub writer: Writer,
}

/// A tick.
#[derive(Clone, Copy, Debug)]
struct Tick {
    /// The instant that is now.
    now: u64,
    /// Whether an earlier one adopted.
    adopted: bool,
    /// Its number, modulo that after which the layout is repeated.
    place: u32,
}

/// Tells the ticker of a tick.
fn note_tick<K: Ticker>(
    ticker: &mut K,
    now: u64,
    counts: &[u16; MAX_PMUS],
    ticked: &Numbered<Ticked>,
)
    ensures { GivesNone K.gave ticker.old ticker.new }
{
    let Ticked {
        closed,
        change,
        used_up,
    } = ticked.answer;
    ticker.note(
        ticked.step,
        &Did::Ticked {
            now,
            counts,
            closed,
            change,
            used_up,
        },
    );
}

/// Raises the mark and ticks.
fn cleared<C: Core + Drop, N: Naming<C::Settings>, M: Mark, K, R: Wait>(
    rt: &R,
    hub: &Hub<C, N>,
    aligner: &mut Aligner<N, M, K>,
    now: u64,
) -> Result<Numbered<Ticked>, HubFault>
    requires { HasAllTurns aligner.old.pops N.turns }
    ensures stored { IfOk result (AddsTick ticked_of C.rules N.given now
        (counts_in aligner.new.publisher)
        aligner.old.pops aligner.new.pops) }
    ensures none_falls { NoneFalls (counts_in aligner.old.publisher)
        (counts_in aligner.new.publisher) }
    ensures kept { OnlyCountsChange aligner.old.publisher aligner.new.publisher }
    ensures same { PopsNothing aligner.old.pops aligner.new.pops }
    ensures others { (aligner.new.writer ≡ aligner.old.writer)
        × (aligner.new.ticker ≡ aligner.old.ticker) }
    ensures err { OnErr result (HasLooked aligner.old.pops.front aligner.new.pops.front) }
    ensures causes { IfErr result IsOfAligner }
    ensures device { HasDeviceOf aligner.old.publisher aligner.new.publisher result }
{
    let Aligner {
        publisher,
        pops,
        ..
    } = aligner;
    tick_cleared(rt, hub, publisher, pops, now)
}

/// One tick: first the mark is raised, and after it all due rows go out, and then the layout, where the tick adopted or it is to be
/// repeated. Whether the tick adopted.
fn turn<C: Core + Drop, N: Naming<C::Settings>, M: Mark, K: Ticker, R: Wait>(
    rt: &R,
    alloc: Global,
    hub: &Hub<C, N>,
    aligner: &mut Aligner<N, M, K>,
    pace: &Pace,
    tick: Tick,
) -> Result<bool, HubFault>
    requires may { MayPublish N.given N.top N.turns aligner.old }
    requires laid { HasLaid C.rules N.given (output_in aligner.old.publisher) pace.now aligner.old }
    requires done { IsDone C.rules N.given aligner.old.pops.front }
    requires before { IsBefore C.rules N.given pace.now.layout_every aligner.old.pops.front
        tick.adopted tick.place }
    ensures parts { HasSameShares aligner.old.pops aligner.new.pops }
    ensures on { GoesOn aligner.old.writer aligner.new.writer }
    ensures rising { PutsRising aligner.old aligner.new }
    // Each row that was popped was put, but the last one where it failed.
    ensures all { PutsAll (put_by aligner.old.writer) aligner.old aligner.new result }
    ensures out { OnOk result (last_in aligner.new.publisher ≡ aligner.new.pops.top.amount) }
    // What was put are the frames of the life, but for one at most where it failed; and so it stands then.
    ensures laid { OnOk result (HasLaid C.rules N.given
        (output_in aligner.old.publisher) pace.now aligner.new) }
    ensures but { HasLaidBut C.rules N.given (output_in aligner.old.publisher) pace.now aligner.new }
    ensures at { IfOk result (λ adopts. IsAt C.rules N.given pace.now.layout_every
        aligner.new.pops.front
        (adopts || tick.adopted) tick.place) }
    // All rows that were due were popped before.
    ensures done { OnOk result (IsDone C.rules N.given aligner.new.pops.front) }
    ensures are_done { AreDone C.rules N.given aligner.new.pops.front }
    // One tick was added, with the counts that the mark stores.
    ensures ticked { TicksOnce tick.now aligner.old aligner.new result }
    ensures none_falls { NoneFalls (counts_in aligner.old.publisher)
        (counts_in aligner.new.publisher) }
    ensures kept { KeepsOutput aligner.old.publisher aligner.new.publisher }
    ensures causes { IfErr result IsOfAligner }
    ensures device { HasDeviceOf aligner.old.publisher aligner.new.publisher result }
    ensures gave { GivesNone K.gave aligner.old.ticker aligner.new.ticker }
{
    let soc = second_of(pace, tick.now);
    let repeat = tick.adopted && tick.place == 0;
    let ticked = match cleared(rt, hub, aligner, tick.now) {
        Ok(ticked) => ticked,
        Err(fault) => return Err(fault),
    };
    let stored = aligner.publisher.counts();
    note_tick(&mut aligner.ticker, tick.now, &stored, &ticked);
    let step = match publish_due(rt, hub, aligner) {
        Ok(step) => step,
        Err(fault) => return Err(fault),
    };
    let adopted = ticked.answer.change.is_some();
    let asked = LayoutRequest {
        step,
        soc,
        is_wanted: adopted || repeat,
    };
    let Aligner {
        pops,
        ticker,
        writer,
        ..
    } = aligner;
    match put_layout_where(rt, alloc, hub, pops, ticker, writer, asked) {
        Ok(()) => Ok(adopted),
        Err(fault) => Err(fault),
    }
}

/// How the run stands: the counts are read under the lock, of the life with all that was seen.
fn told_of<C: Core + Drop, N: Naming<C::Settings>, M: Mark, R: Wait>(
    rt: &R,
    hub: &Hub<C, N>,
    seen: &mut Front<N>,
    publisher: &Publisher<M>,
    published: u64,
) -> Progress
    ensures later { IsPrefix seen.old seen.new }
    ensures counts { InTheLife C.rules N.given seen.new (λ g E. result.counts ≡ counts_after E) }
    ensures published { result.published ≡ published }
    ensures last { result.last ≡ last_in publisher.now }
{
    Progress {
        counts: hub.counts_behind(rt, seen),
        published,
        last: publisher.last(),
    }
}

/// Tells the ticker how the run stands, where it wants to be told.
fn tell<C: Core + Drop, N: Naming<C::Settings>, M: Mark, K: Ticker, R: Wait>(
    rt: &R,
    hub: &Hub<C, N>,
    seen: &mut Front<N>,
    publisher: &Publisher<M>,
    published: u64,
    ticker: &mut K,
)
    ensures { GivesNone K.gave ticker.old ticker.new }
{
    if ticker.wants_counts() {
        ticker.tell(&told_of(rt, hub, seen, publisher, published));
    }
}

/// Ticks until the ticker ends or a call fails. How many rows were published.
fn turns<C: Core + Drop, N: Naming<C::Settings>, M: Mark, K: Ticker, R: Wait>(
    rt: &R,
    alloc: Global,
    hub: &Hub<C, N>,
    aligner: &mut Aligner<N, M, K>,
    pace: &Pace,
) -> Result<u64, HubFault>
    requires may { MayPublish N.given N.top N.turns aligner.old }
    requires front { (aligner.old.pops.front ≡ [])
        × InTheLife C.rules N.given aligner.old.pops.front (λ g E. E ≡ []) }
    requires begins { put_by aligner.old.writer ≡ [] }
    ensures parts { HasSameShares aligner.old.pops aligner.new.pops }
    ensures on { GoesOn aligner.old.writer aligner.new.writer }
    ensures rising { Rises (last_in aligner.old.publisher) (instants_of (put_by aligner.new.writer))
        (last_in aligner.new.publisher) }
    ensures all { PutsAll [] aligner.old aligner.new result }
    ensures counted { IfOk result (λ published.
        published ≡ length (instants_of (put_by aligner.new.writer))) }
    ensures out { OnOk result (last_in aligner.new.publisher ≡ aligner.new.pops.top.amount) }
    ensures laid { OnOk result (HasLaid C.rules N.given
        (output_in aligner.old.publisher) pace.now aligner.new) }
    ensures but { HasLaidBut C.rules N.given (output_in aligner.old.publisher) pace.now aligner.new }
    ensures ticked { HasTickedAs K.gave aligner.old aligner.new result }
    ensures done { OnOk result (IsDone C.rules N.given aligner.new.pops.front) }
    ensures are_done { AreDone C.rules N.given aligner.new.pops.front }
    ensures kept { KeepsOutput aligner.old.publisher aligner.new.publisher }
    ensures causes { IfErr result IsOfAligner }
    ensures device { HasDeviceOf aligner.old.publisher aligner.new.publisher result }
{
    let every = pace.layout_every;
    let first = aligner.pops.count();
    // The number of the tick, modulo `layout_every`: so it never overflows.
    let mut place = 0u32;
    let mut adopted = false;
    for _ in rt.forever() {
        let Some(now) = aligner.ticker.next() else {
            return Ok(aligner.pops.count() - first);
        };
        place = (place + 1) % every;
        let tick = Tick {
            now,
            adopted,
            place,
        };
        match turn(rt, alloc, hub, aligner, pace, tick) {
            Ok(adopts) => adopted = adopts || adopted,
            Err(fault) => return Err(fault),
        }
        let published = aligner.pops.count() - first;
        let mut seen = aligner.pops.front.again();
        tell(
            rt,
            hub,
            &mut seen,
            &aligner.publisher,
            published,
            &mut aligner.ticker,
        );
    }
    unreachable!()
}

/// How the aligner ended.
#[derive(Drop)]
pub struct Aligned<'h> {
    /// How many rows were published, or by what it failed.
    pub outcome: Result<u64, HubFault>,
    /// What shows that the hub is closed.
    pub closed: OnceToken<'h, ()>,
}

/// Ticks until the ticker ends or a call fails; then closes the hub and puts the end mark. At each tick the mark is first raised to the
/// counts that wait, all due rows are popped, published and put on the channel in rising order, and then the layout frame is, where the
/// tick adopted, or where an earlier one did and the tick's number is a multiple of `layout_every`. Then the ticker is told how the run
/// stands, where it wants to be.
///
/// # Errors
///
/// `Device` where the mark's device failed; `NoMemory` where memory was wanted; `Stuck` where the channel's other end is gone. A row that
/// was popped, and not published or not put, is then lost, one at most.
pub fn align<'h, C: Core + Drop, N: Naming<C::Settings>, M: Mark, K: Ticker, R: Wait>(
    rt: &R,
    alloc: Global,
    hub: &'h Hub<C, N>,
    aligner: &mut Aligner<N, M, K>,
    pace: &Pace,
) -> Aligned<'h>
    requires top { HasAllTop aligner.old.pops N.top
        × (aligner.old.pops.top.amount ≡ last_in aligner.old.publisher) }
    requires turns { HasAllTurns aligner.old.pops N.turns }
    requires front { (aligner.old.pops.front ≡ [])
        × InTheLife C.rules N.given aligner.old.pops.front (λ g E. E ≡ []) }
    requires rate { IsAtRate N.given (output_in aligner.old.publisher).rate }
    // The core was opened with the start, the floor and the counts that the publisher's mark stores.
    requires opened { IsOpenedWith N.given (M.stored (mark_in aligner.old.publisher)) }
    requires begins { IsOpen aligner.old.writer × (put_by aligner.old.writer ≡ []) }
    ensures same { aligner.new.writer.to ≡ aligner.old.writer.to }
    // The instants put strictly rise, lie above the last one published before, and are at most the floor that is stored then.
    ensures rising { Rises (last_in aligner.old.publisher) (instants_of (put_by aligner.new.writer))
        (floor_in aligner.new.publisher) }
    // Each row that was popped was put, but one at most where it failed, which is then lost.
    ensures all { PutsAll [] aligner.old aligner.new result.outcome }
    // Where it is Ok, all that were published were put, and so many they are; and the end mark was put last.
    ensures published { IfOk result.outcome (λ published.
        published ≡ length (instants_of (put_by aligner.new.writer))) }
    ensures closed { OnOk result.outcome ((body : List Message)
        × (put_by aligner.new.writer ≡ body ++ End ∷ [])) }
    // Then the greatest instant that was popped is the last one that was published.
    ensures out { OnOk result.outcome (last_in aligner.new.publisher ≡
        aligner.new.pops.top.amount) }
    // What was put are the frames of the life, in order, but for one at most where it failed.
    ensures laid { OnOk result.outcome (HasLaid C.rules N.given
        (output_in aligner.old.publisher) pace.now aligner.new) }
    ensures but { HasLaidBut C.rules N.given (output_in aligner.old.publisher) pace.now aligner.new }
    ensures turns { aligner.new.pops.turns.parts ≡ aligner.old.pops.turns.parts }
    // The ticks of the life are those of the ticker, with counts that never fall from those stored before to those stored then.
    ensures ticked { HasTickedAs K.gave aligner.old aligner.new result.outcome }
    // All rows that were due came out before the next tick, and in the end where it is Ok.
    ensures done { OnOk result.outcome (IsDone C.rules N.given aligner.new.pops.front) }
    ensures are_done { AreDone C.rules N.given aligner.new.pops.front }
    ensures output { output_in aligner.new.publisher ≡ output_in aligner.old.publisher }
    ensures lead { lead_in aligner.new.publisher ≡ lead_in aligner.old.publisher }
    // The hub is closed.
    ensures shut { result.closed.of ≡ closing_of hub.now }
    // It fails only so, and by the device only where that failed.
    ensures causes { IfErr result.outcome IsOfAligner }
    ensures device { HasDeviceOf aligner.old.publisher aligner.new.publisher result.outcome }
{
    let done = turns(rt, alloc, hub, aligner, pace);
    let closed = hub.close(rt, &mut aligner.pops);
    if !close(rt, &mut aligner.writer) {
        return Aligned {
            outcome: Err(HubFault::Stuck),
            closed,
        };
    }
    Aligned {
        outcome: done,
        closed,
    }
}
