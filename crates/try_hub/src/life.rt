//! A life that is lived through a hub in one thread, and recorded as a running one is.
ghost use Rattle.std.specs.Prelude.{◌≡◌, ◌<◌, Some, []};
ghost use Rattle.pdc_hub.specs.Pops.{HasSameShares};

use crate::listed::{Listed, Silent};
use crate::marks::cleared;
use pdc_core::{Core, KeptArrival, Opens, Reads};
use pdc_frame::SECONDS;
use pdc_life::MAX_PMUS;
use pdc_mark::{Mark, ModelMark};
use pdc_recording::{RecordedSource, RecordedTicker, Recording};
use pdc_row::{Output, append_row};
use pdc_threads::{
    Blanks, Did, Hub, Ledgers, Naming, Next, Numbered, Pops, Shares, Source, Ticker,
};
use std::alloc::Global;
use std::marker::Brand;
use std::rt::Clock;
use std::sync::Wait;

/// The instant of the first tick, and its second.
const FIRST: u64 = 57_478_860_000;

const SOC: u32 = 1_149_577_200;

/// After how many steps the hub's base is brought up.
const LIMIT: usize = 3;

/// The longest datagram, in bytes.
const MOST: usize = 128;

/// What both PMUs send.
#[derive(Clone, Copy)]
pub struct Sent {
    /// PMU 11, stream 0,
    pub first: &'static [&'static str],
    /// and PMU 12, stream 1.
    pub second: &'static [&'static str],
}

/// A core at the start of its life, and what it was opened with.
#[derive(Drop)]
pub struct Opened<'s, C: Core> {
    /// Its settings.
    pub settings: &'s C::Settings,
    /// For each column the count below which no section is held.
    pub counts: [u16; MAX_PMUS],
    /// The core.
    pub core: C,
}

/// The hub that the life goes through, the settings of its core, and what frames say of it.
#[derive(Drop)]
struct Lived<'h, C: Core + Drop, N: Naming<C::Settings>> {
    settings: &'h C::Settings,
    output: Output,
    hub: &'h Hub<C, N>,
}

/// The shares of the hub's caller.
#[derive(Drop)]
struct Mine<N: Ledgers> {
    shares: Shares<N>,
    pops: Pops<N, ModelMark>,
}

/// The next datagram of a source, delivered. None where memory was wanted, or there is none.
fn arrive<C: Core + Drop, N: Naming<C::Settings>, R: Wait + Clock>(
    rt: &R,
    alloc: Global,
    lived: &Lived<C, N>,
    shares: &mut Shares<N>,
    stream: usize,
    source: &mut RecordedSource<'_, Listed, R>,
) -> Option<()>
    requires settings { N.settings ≡ Some lived.now.settings.now }
    requires stream { stream < C.Settings.streams lived.now.settings.now }
    requires parts { (0 < shares.old.taken.parts) × (0 < shares.old.refused.parts) × (0 < shares.old.configured.parts) }
    ensures parts { (shares.new.taken.parts ≡ shares.old.taken.parts) × (shares.new.refused.parts ≡ shares.old.refused.parts) × (shares.new.configured.parts ≡ shares.old.configured.parts) }
{
    let Ok(mut buffer) = vec![in alloc; 0u8; MOST] else {
        return None;
    };
    let Next::Datagram(len) = source.next(buffer.as_mut_slice()) else {
        return None;
    };
    let bytes = &buffer[..len];
    let mut kept = KeptArrival::blank();
    let Ok(lent) = lived.settings.lend(alloc, stream, bytes, &mut kept) else {
        return None;
    };
    let Ok(answer) = lived
        .hub
        .deliver(rt, stream, bytes, &lent, &mut kept, shares)
    else {
        return None;
    };
    source.answered(Some(answer));
    Some(())
}

/// A tick. The number of its step.
fn tick<C: Core + Drop, N: Naming<C::Settings>, R: Wait + Clock>(
    rt: &R,
    hub: &Hub<C, N>,
    pops: &mut Pops<N, ModelMark>,
    ticker: &mut RecordedTicker<'_, Silent, R>,
    now: u64,
) -> u64
    requires top { (pops.old.top.parts ≡ N.top.parts) × (0 < pops.old.top.parts) }
    requires turns { (pops.old.turns.parts ≡ N.turns.parts) × (0 < pops.old.turns.parts) }
    ensures parts { HasSameShares pops.old pops.new }
{
    let mark = cleared();
    let counts = mark.counts();
    let Numbered { step, answer } = hub.tick(rt, pops, now, &mark);
    ticker.note(
        step,
        &Did::Ticked {
            now,
            counts: &counts,
            closed: answer.closed,
            change: answer.change,
            used_up: answer.used_up,
        },
    );
    step
}

/// The layout in force is laid, behind the step with this number. None where memory was wanted.
fn lay<C: Core + Drop, N: Naming<C::Settings>, R: Wait + Clock>(
    rt: &R,
    alloc: Global,
    hub: &Hub<C, N>,
    pops: &mut Pops<N, ModelMark>,
    ticker: &mut RecordedTicker<'_, Silent, R>,
    step: u64,
) -> Option<()>
    requires top { (pops.old.top.parts ≡ N.top.parts) × (0 < pops.old.top.parts) }
    requires turns { (pops.old.turns.parts ≡ N.turns.parts) × (0 < pops.old.turns.parts) }
    ensures parts { HasSameShares pops.old pops.new }
{
    let mut frame = Vec::new(alloc);
    if hub.layout(rt, pops, SOC, &mut frame).is_err() {
        return None;
    }
    ticker.note(step, &Did::Laid(frame.as_slice()));
    Some(())
}

/// A pop, whose row is published. None where memory was wanted.
fn pop<C: Core + Drop, N: Naming<C::Settings>, R: Wait + Clock>(
    rt: &R,
    alloc: Global,
    lived: &Lived<C, N>,
    pops: &mut Pops<N, ModelMark>,
    ticker: &mut RecordedTicker<'_, Silent, R>,
) -> Option<()>
    requires top { (pops.old.top.parts ≡ N.top.parts) × (0 < pops.old.top.parts) }
    requires turns { (pops.old.turns.parts ≡ N.turns.parts) × (0 < pops.old.turns.parts) }
    ensures parts { HasSameShares pops.old pops.new }
{
    let Numbered { step, answer } = lived.hub.pop(rt, pops);
    if !answer {
        ticker.note(step, &Did::FoundNone);
        return Some(());
    }
    let row = pops.row.get();
    let mut frame = Vec::new(alloc);
    if row.instant >= SECONDS * u64::from(lived.output.rate) {
        return None;
    }
    if append_row(&lived.output, row, &mut frame).is_err() {
        return None;
    }
    let instant = row.instant;
    ticker.note(
        step,
        &Did::Popped {
            instant,
            frame: Some(frame.as_slice()),
        },
    );
    Some(())
}

/// The life: both configurations, the tick that adopts them, its layout, the data of both for one instant, and its row. None where memory
/// was wanted.
fn live<C: Core + Drop, N: Naming<C::Settings>, R: Wait + Clock>(
    rt: &R,
    alloc: Global,
    lived: &Lived<C, N>,
    mine: &mut Mine<N>,
    recording: &Recording,
    sent: &Sent,
) -> Option<()>
    requires settings { N.settings ≡ Some lived.now.settings.now }
    requires streams { C.Settings.streams lived.now.settings.now ≡ 2 }
    requires parts { (0 < mine.old.shares.taken.parts) × (0 < mine.old.shares.refused.parts) × (0 < mine.old.shares.configured.parts) }
    requires top { (mine.old.pops.top.parts ≡ N.top.parts) × (0 < mine.old.pops.top.parts) }
    requires turns { (mine.old.pops.turns.parts ≡ N.turns.parts) × (0 < mine.old.pops.turns.parts) }
{
    let recording = Some(recording);
    let mut first = RecordedSource::new(rt, alloc, recording, 0, Listed::of(sent.first));
    let mut second = RecordedSource::new(rt, alloc, recording, 1, Listed::of(sent.second));
    let mut ticker = RecordedTicker::new(rt, recording, Silent);
    arrive(rt, alloc, lived, &mut mine.shares, 0, &mut first)?;
    arrive(rt, alloc, lived, &mut mine.shares, 1, &mut second)?;
    let step = tick(rt, lived.hub, &mut mine.pops, &mut ticker, FIRST);
    lay(rt, alloc, lived.hub, &mut mine.pops, &mut ticker, step)?;
    pop(rt, alloc, lived, &mut mine.pops, &mut ticker)?;
    arrive(rt, alloc, lived, &mut mine.shares, 1, &mut second)?;
    arrive(rt, alloc, lived, &mut mine.shares, 0, &mut first)?;
    tick(rt, lived.hub, &mut mine.pops, &mut ticker, FIRST + 1);
    pop(rt, alloc, lived, &mut mine.pops, &mut ticker)?;
    pop(rt, alloc, lived, &mut mine.pops, &mut ticker)
}

/// The life of a core through a hub. None where memory was wanted.
fn live_on<C: Opens, N: Naming<C::Settings>, R: Wait + Clock>(
    rt: &R,
    alloc: Global,
    opened: Opened<C>,
    recording: &Recording,
    sent: &Sent,
    blanks: Blanks,
) -> Option<()>
    requires given { N.given ≡ Some (C.given_with opened.settings.now 1 0 opened.counts) }
    requires stands { C.stands_for opened.core (C.given_with opened.settings.now 1 0 opened.counts) [] }
    requires settings { (N.settings ≡ Some opened.settings.now) × (C.settings_of opened.core ≡ opened.settings.now) }
    requires streams { C.Settings.streams opened.settings.now ≡ 2 }
    requires names { (blanks.taken.name ≡ N.taken.name) × (blanks.refused.name ≡ N.refused.name) × (blanks.configured.name ≡ N.configured.name) × (blanks.top.name ≡ N.top.name) × (blanks.turns.name ≡ N.turns.name) }
    requires log { (blanks.log.seen.book ≡ N.book) × (blanks.log.seen.log ≡ []) }
    requires parts { (blanks.taken.parts ≡ N.taken.parts) × (blanks.refused.parts ≡ N.refused.parts) × (blanks.configured.parts ≡ N.configured.parts) × (blanks.top.parts ≡ N.top.parts) × (blanks.turns.parts ≡ N.turns.parts) }
    requires count { (N.taken.parts ≡ 1) × (N.refused.parts ≡ 1) × (N.configured.parts ≡ 1) × (N.top.parts ≡ 1) × (N.turns.parts ≡ 1) }
{
    let Opened {
        settings,
        counts,
        core,
    } = opened;
    let output = core.output();
    let Ok(state) = core.open_next(alloc, 1, 0, &counts) else {
        return None;
    };
    let Ok((hub, shares, pops)) = Hub::<C, N>::new(alloc, core, state, LIMIT, 0, blanks) else {
        return None;
    };
    let lived = Lived {
        settings,
        output,
        hub: &hub,
    };
    let mut mine = Mine { shares, pops };
    live(rt, alloc, &lived, &mut mine, recording, sent)
}

/// The life of a core, which is at its start. None where memory was wanted.
pub fn record_life<C: Opens, R: Wait + Clock>(
    rt: &R,
    alloc: Global,
    opened: Opened<C>,
    recording: &Recording,
    sent: &Sent,
) -> Option<()>
    requires stands { C.stands_for opened.core (C.given_with opened.settings.now 1 0 opened.counts) [] }
    requires settings { C.settings_of opened.core ≡ opened.settings.now }
    requires streams { C.Settings.streams opened.settings.now ≡ 2 }
{
    let blanks = Blanks::new(1);
    live_on::<C, Brand, R>(rt, alloc, opened, recording, sent, blanks)
}
