//! Each call twice: through a hub that brings its base up now and then, and on the bare core.
ghost use Rattle.std.specs.Prelude.{◌≡◌, ◌<◌, ◌≤◌, Some};
ghost use Rattle.try_hub.specs.Mine.{IsFit};

use crate::marks::cleared;
use pdc_core::{Core, KeptArrival, Reads};
use pdc_mark::{Mark, ModelMark};
use pdc_row::DueRow;
use pdc_threads::{Hub, Ledgers, Naming, Numbered, Pops, Shares};
use std::alloc::Global;
use std::sync::Wait;

/// The bare core, the shares of the hub's caller, and what was seen so far.
#[derive(Drop)]
pub struct Mine<C, N: Ledgers> {
    pub bare: C,
    pub shares: Shares<N>,
    pub pops: Pops<N, ModelMark>,
    /// How many calls were made.
    pub calls: u32,
    /// How many rows were popped.
    pub rows: u32,
    /// Whether all answers were alike, and each step bore its number.
    pub alike: bool,
}

impl<C, N: Ledgers> Mine<C, N> {
    /// Adds a call, with the number of its step, which is to be how many calls were made before, and whether its answers were alike.
    fn saw(&mut self, step: u64, is_alike: bool)
        ensures bare { self.new.bare ≡ self.old.bare }
        ensures shares { self.new.shares ≡ self.old.shares }
        ensures pops { self.new.pops ≡ self.old.pops }
    {
        self.alike = self.alike && is_alike && step == u64::from(self.calls);
        self.calls = self.calls.saturating_add(1);
    }
}

/// Delivers these bytes to both. None where memory was wanted.
pub fn deliver<C: Core + Drop, N: Naming<C::Settings>, R: Wait>(
    rt: &R,
    alloc: Global,
    hub: &Hub<C, N>,
    mine: &mut Mine<C, N>,
    stream: usize,
    bytes: &[u8],
) -> Option<()>
    requires settings { N.settings ≡ Some (C.settings_of mine.old.bare) }
    requires stream { stream < C.Settings.streams (C.settings_of mine.old.bare) }
    requires fit { IsFit mine.old N.top.parts N.turns.parts }
    ensures settings { C.settings_of mine.new.bare ≡ C.settings_of mine.old.bare }
    ensures fit { IsFit mine.new N.top.parts N.turns.parts }
{
    let mut kept = KeptArrival::blank();
    let settings = mine.bare.settings();
    let Ok(lent) = settings.lend(alloc, stream, bytes, &mut kept) else {
        return None;
    };
    let Ok(Numbered { step, answer }) = hub.deliver(
        rt,
        stream,
        bytes,
        &lent,
        &mut kept,
        &mut mine.shares,
    ) else {
        return None;
    };
    let bare_answer = mine.bare.put_datagram(stream, bytes);
    mine.saw(step, answer == bare_answer);
    Some(())
}

/// Ticks both.
pub fn tick<C: Core + Drop, N: Naming<C::Settings>, R: Wait>(
    rt: &R,
    hub: &Hub<C, N>,
    mine: &mut Mine<C, N>,
    now: u64,
)
    requires fit { IsFit mine.old N.top.parts N.turns.parts }
    ensures settings { C.settings_of mine.new.bare ≡ C.settings_of mine.old.bare }
    ensures fit { IsFit mine.new N.top.parts N.turns.parts }
{
    let mark = cleared();
    let Numbered { step, answer } = hub.tick(rt, &mut mine.pops, now, &mark);
    let bare_answer = mine.bare.tick(now, &mark.counts());
    mine.saw(step, answer == bare_answer);
}

/// Whether the rows are the same, block by block.
fn are_same(one: &DueRow, other: &DueRow) -> bool {
    one.instant == other.instant
        && one.start == other.start
        && one.change == other.change
        && one.quality == other.quality
        && one.blocks.len() == other.blocks.len()
        && one.blocks.bytes() == other.blocks.bytes()
}

/// Pops from both.
pub fn pop<C: Core + Drop, N: Naming<C::Settings>, R: Wait>(
    rt: &R,
    hub: &Hub<C, N>,
    mine: &mut Mine<C, N>,
)
    requires fit { IsFit mine.old N.top.parts N.turns.parts }
    ensures settings { C.settings_of mine.new.bare ≡ C.settings_of mine.old.bare }
    ensures fit { IsFit mine.new N.top.parts N.turns.parts }
{
    let Numbered { step, answer } = hub.pop(rt, &mut mine.pops);
    let is_alike = match &mine.bare.pop_due() {
        Some(bare_row) => answer && are_same(mine.pops.row.get(), bare_row),
        None => !answer,
    };
    if answer {
        mine.rows = mine.rows.saturating_add(1);
    }
    mine.saw(step, is_alike);
}

/// Whether both show the same: the counts, the counts that wait, and the layout.
pub fn shows_same<C: Core + Drop, N: Naming<C::Settings>, R: Wait>(
    rt: &R,
    alloc: Global,
    hub: &Hub<C, N>,
    mine: &mut Mine<C, N>,
    soc: u32,
) -> bool
    requires fit { IsFit mine.old N.top.parts N.turns.parts }
{
    let Mine { bare, pops, .. } = mine;
    let mut layout = Vec::new(alloc);
    let mut bare_layout = Vec::new(alloc);
    hub.layout(rt, pops, soc, &mut layout).is_ok()
        && bare.layout_frame(soc, &mut bare_layout).is_ok()
        && layout.as_slice() == bare_layout.as_slice()
        && hub.counts(rt) == bare.counts()
        && hub.waiting(rt, pops) == bare.waiting()
}
