//! The calls, in rounds of ten.
ghost use Rattle.std.specs.Prelude.{◌≡◌, ◌<◌, ◌≤◌, ◌+◌, Some, []};
ghost use Rattle.try_hub.specs.Mine.{IsFit};

use crate::streams::{SOC, Streams};
use crate::two::{Mine, deliver, pop, shows_same, tick};
use pdc_core::{Core, Opens};
use pdc_life::MAX_PMUS;
use pdc_threads::{Blanks, Hub, Naming};
use std::alloc::Global;
use std::marker::Brand;
use std::sync::Wait;

/// The first instant: that of the first frame of `SOC`.
const FIRST: u64 = 57_478_860_000;

/// After how many steps the hub's base is brought up.
const LIMIT: usize = 7;

/// The rounds after the first one.
const ROUNDS: u16 = 99;

/// What was seen of all calls.
#[derive(Clone, Copy, Debug)]
pub struct Seen {
    pub calls: u32,
    pub taken: u64,
    pub candidate: u64,
    pub known: u64,
    pub refused: u64,
    pub rows: u32,
    pub alike: bool,
}

/// The first ten calls: both configurations, of which the tick adopts, and each again.
fn begin<C: Core + Drop, N: Naming<C::Settings>, R: Wait>(
    rt: &R,
    alloc: Global,
    hub: &Hub<C, N>,
    mine: &mut Mine<C, N>,
    streams: &Streams,
) -> Option<()>
    requires settings { N.settings ≡ Some (C.settings_of mine.old.bare) }
    requires streams { C.Settings.streams (C.settings_of mine.old.bare) ≡ 2 }
    requires fit { IsFit mine.old N.top.parts N.turns.parts }
    ensures settings { C.settings_of mine.new.bare ≡ C.settings_of mine.old.bare }
    ensures fit { IsFit mine.new N.top.parts N.turns.parts }
{
    deliver(rt, alloc, hub, mine, 0, &streams.first.config)?;
    deliver(rt, alloc, hub, mine, 1, &streams.second.config)?;
    tick(rt, hub, mine, FIRST);
    pop(rt, hub, mine);
    pop(rt, hub, mine);
    pop(rt, hub, mine);
    deliver(rt, alloc, hub, mine, 0, &streams.first.config)?;
    deliver(rt, alloc, hub, mine, 1, &streams.second.config)?;
    tick(rt, hub, mine, FIRST);
    pop(rt, hub, mine);
    Some(())
}

/// Ten calls: the data of an instant, of each stream and of the first one again, a tick, the row, and then data that is late, the
/// configuration of the first stream in the second one, and its own again.
fn round<C: Core + Drop, N: Naming<C::Settings>, R: Wait>(
    rt: &R,
    alloc: Global,
    hub: &Hub<C, N>,
    mine: &mut Mine<C, N>,
    streams: &Streams,
    after: u16,
) -> Option<()>
    requires settings { N.settings ≡ Some (C.settings_of mine.old.bare) }
    requires streams { C.Settings.streams (C.settings_of mine.old.bare) ≡ 2 }
    requires fit { IsFit mine.old N.top.parts N.turns.parts }
    ensures settings { C.settings_of mine.new.bare ≡ C.settings_of mine.old.bare }
    ensures fit { IsFit mine.new N.top.parts N.turns.parts }
{
    let first = streams.first.data(alloc, after)?;
    let second = streams.second.data(alloc, after)?;
    deliver(rt, alloc, hub, mine, 0, &first)?;
    deliver(rt, alloc, hub, mine, 1, &second)?;
    deliver(rt, alloc, hub, mine, 0, &first)?;
    tick(rt, hub, mine, FIRST + u64::from(after));
    pop(rt, hub, mine);
    pop(rt, hub, mine);
    deliver(rt, alloc, hub, mine, 0, &first)?;
    deliver(rt, alloc, hub, mine, 1, &streams.first.config)?;
    deliver(rt, alloc, hub, mine, 0, &streams.first.config)?;
    pop(rt, hub, mine);
    Some(())
}

/// All calls, on a core at the start of its life, which is the hub's base, and on two more that are opened like it: the hub's state, and the
/// bare core. None where memory was wanted.
fn side_by_side<C: Opens, N: Naming<C::Settings>, R: Wait>(
    rt: &R,
    alloc: Global,
    base: C,
    counts: &[u16; MAX_PMUS],
    streams: &Streams,
    blanks: Blanks,
) -> Option<Seen>
    requires given { N.given ≡ Some (C.given_with (C.settings_of base) 1 0 counts.now) }
    requires stands { C.stands_for base (C.given_with (C.settings_of base) 1 0 counts.now) [] }
    requires settings { N.settings ≡ Some (C.settings_of base) }
    requires streams { C.Settings.streams (C.settings_of base) ≡ 2 }
    requires names { (blanks.taken.name ≡ N.taken.name) × (blanks.refused.name ≡ N.refused.name) × (blanks.configured.name ≡ N.configured.name) × (blanks.top.name ≡ N.top.name) × (blanks.turns.name ≡ N.turns.name) }
    requires log { (blanks.log.seen.book ≡ N.book) × (blanks.log.seen.log ≡ []) }
    requires parts { (blanks.taken.parts ≡ N.taken.parts) × (blanks.refused.parts ≡ N.refused.parts) × (blanks.configured.parts ≡ N.configured.parts) × (blanks.top.parts ≡ N.top.parts) × (blanks.turns.parts ≡ N.turns.parts) }
    requires count { (N.taken.parts ≡ 1) × (N.refused.parts ≡ 1) × (N.configured.parts ≡ 1) × (N.top.parts ≡ 1) × (N.turns.parts ≡ 1) }
{
    let Ok(state) = base.open_next(alloc, 1, 0, counts) else {
        return None;
    };
    let Ok(bare) = base.open_next(alloc, 1, 0, counts) else {
        return None;
    };
    let Ok((hub, shares, pops)) = Hub::<C, N>::new(alloc, base, state, LIMIT, 0, blanks) else {
        return None;
    };
    let shared = &hub;
    let mut mine = Mine {
        bare,
        shares,
        pops,
        calls: 0,
        rows: 0,
        alike: true,
    };
    begin(rt, alloc, shared, &mut mine, streams)?;
    for after in 0..ROUNDS {
        round(rt, alloc, shared, &mut mine, streams, after + 1)?;
    }
    let shows_same = shows_same(rt, alloc, shared, &mut mine, SOC);
    let counts = shared.counts(rt);
    Some(Seen {
        calls: mine.calls,
        taken: counts.taken,
        candidate: counts.candidate,
        known: counts.known,
        refused: counts.refused,
        rows: mine.rows,
        alike: mine.alike && shows_same,
    })
}

/// All calls on a core at the start of its life. None where memory was wanted.
pub fn try_core<C: Opens, R: Wait>(
    rt: &R,
    alloc: Global,
    first: C,
    counts: &[u16; MAX_PMUS],
    streams: &Streams,
) -> Option<Seen>
    requires stands { C.stands_for first (C.given_with (C.settings_of first) 1 0 counts.now) [] }
    requires streams { C.Settings.streams (C.settings_of first) ≡ 2 }
{
    let blanks = Blanks::new(1);
    side_by_side::<C, Brand, R>(rt, alloc, first, counts, streams, blanks)
}
