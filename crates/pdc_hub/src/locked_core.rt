//! The value under the lock.
ghost use Rattle.std.specs.Prelude.{◌≡◌, ◌+◌, ◌^◌, ◌<◌, ◌≤◌, ◌↔◌, Err, IfOk, IsErrOf, OnErr};
ghost use Rattle.std.specs.Prelude.{OnOk, Some, [], false, true};
ghost use Rattle.pdc_core.specs.Lent.{HasRoomFor, brought_view};
ghost use Rattle.pdc_core.specs.Step.{ticked_of};
ghost use Rattle.pdc_hub.specs.Adding.{AddsArrival, AddsPop, AddsTick, IsLayoutBehind};
ghost use Rattle.pdc_hub.specs.Counted.{AreAsBefore, AreSomeParts, HasSameAmounts, HasSameParts};
ghost use Rattle.pdc_hub.specs.Counted.{HaveCountedOne};
ghost use Rattle.pdc_hub.specs.Counted.{configurations, configured_by, is_used_up, refused_by};
ghost use Rattle.pdc_hub.specs.Counted.{taken_by};
ghost use Rattle.pdc_hub.specs.Opened.{AreBegun, AreOpened};
ghost use Rattle.pdc_hub.specs.Pops.{CanBeTagged, HasAllTop, HasAllTurns, OnlyLooks, PopsNothing};
ghost use Rattle.pdc_hub.specs.Pops.{HasPoppedNone, HasPoppedOne, HasSameShares};
ghost use Rattle.pdc_hub.specs.Replay.{WasRead};
ghost use Rattle.pdc_log.specs.Log.{HasLooked, came_in, turned_in};
ghost use Rattle.pdc_memory.specs.Asking.{ForSome, WasRefused};

use crate::fault::HubFault;
use crate::ledgers::{ConfiguredIn, Ledgers, RefusedIn, TakenIn, TopIn, TurnsIn};
use crate::naming::Naming;
use crate::pops::Pops;
use crate::replayed::Replayed;
use crate::shares::{Books, Shares};
use crate::totals::Totals;
use pdc_core::{Core, Counts, KeptArrival, LentData, Ticked};
use pdc_frame::Buffer;
use pdc_life::{MAX_PMUS, Outcome};
use pdc_log::Log;
use pdc_ports::Numbered;
use std::alloc::{AllocError, Global};
use std::sync::Wait;
use std::sync::ledger::Book;

/// The value under the lock: a core beside its base and the steps since, and the books of what it counted.
#[derive(Drop)]
pub struct LockedCore<C: Core + Drop, N: Naming<C::Settings>> {
    /// The core, with its base and the steps since.
    pub core: Replayed<C, N>,
    /// The book of data that was taken.
    pub taken: Book<TakenIn<N>>,
    /// The book of what was refused.
    pub refused: Book<RefusedIn<N>>,
    /// The book of configurations that were new or held already.
    pub configured: Book<ConfiguredIn<N>>,
    /// The book whose total is the greatest instant popped, at first the floor.
    pub top: Book<TopIn<N>>,
    /// That instant.
    pub popped: u64,
    /// The book of ticks and pops.
    pub turns: Book<TurnsIn<N>>,
    // The totals of the first three books.
    totals: Totals,
    pub ghost taken_is: { (C.counts_of core.state).taken ≡ taken.total },
    pub ghost refused_is: { (C.counts_of core.state).refused ≡ refused.total },
    pub ghost configured_is: { configurations (C.counts_of core.state) ≡ configured.total },
    pub ghost top_is: { C.popped_of core.state ≡ top.total },
    pub ghost popped_is: { top.total ≡ popped },
    // Each step of the log is counted in a book.
    pub ghost came_are: { (taken.total + refused.total) + configured.total ≡
        came_in core.log.seen.log },
    pub ghost turns_are: { turns.total ≡ turned_in core.log.seen.log },
    ghost totals_are: { (taken.total ≡ totals.taken) × (refused.total ≡ totals.refused)
        × (configured.total ≡ totals.configured) },
}

impl<C: Core + Drop, N: Naming<C::Settings>> LockedCore<C, N> {
    /// A core over two that were opened alike, with no step taken since, and with its books. Its base is brought up each time
    /// that so many steps are kept, for which it takes the memory here.
    ///
    /// # Errors
    ///
    /// [`AllocError`] where a request for the room of so many steps was refused.
    pub fn new(
        alloc: Global,
        base: C,
        now: C,
        limit: usize,
        floor: u64,
        books: Books<N>,
        log: Log,
    ) -> Result<Self, AllocError>
        requires alike { AreOpened N.given (C.stands_for base) (C.stands_for now) }
        requires settings { (N.settings ≡ Some (C.settings_of base))
            × (N.settings ≡ Some (C.settings_of now)) }
        requires limit { 1 ≤ limit }
        requires floor { C.popped_of now ≡ floor }
        requires books { AreBegun books floor }
        requires log { (log.seen.book ≡ N.book) × (log.seen.log ≡ []) }
        ensures { OnErr result (WasRefused limit) }
    {
        let Books {
            taken,
            refused,
            configured,
            top,
            turns,
        } = books;
        let _counts = now.counts();
        let core = Replayed::new(alloc, base, now, limit, log)?;
        Ok(LockedCore {
            core,
            taken,
            refused,
            configured,
            top,
            popped: floor,
            turns,
            totals: Totals::new(),
        })
    }

    /// Adds data that is lent, or else what is kept, which arrived for a stream, and counts its answer in the caller's shares. What is left of what
    /// is kept is to be written over.
    ///
    /// # Errors
    ///
    /// `CountsUsedUp` where one of the three totals is at its greatest value. Nothing is added then.
    pub fn deliver<R: Wait>(
        &mut self,
        rt: &R,
        stream: usize,
        bytes: &[u8],
        lent: &Option<LentData<'_>>,
        datagram: &mut KeptArrival,
        mine: &mut Shares<N>,
    ) -> Result<Numbered<Outcome>, HubFault>
        requires read { WasRead C.Settings.says C.Settings.fits N.settings stream bytes.now
            (brought_view lent.now datagram.old) }
        requires room { HasRoomFor datagram.old lent.now }
        requires parts { AreSomeParts mine.old }
        // It is of the one life of the log, behind what the caller has seen of it, and is answered as that is.
        ensures added { IfOk result (AddsArrival C.rules N.given stream bytes.now
            (brought_view lent.now datagram.old) mine.old mine.new) }
        // The shares rise by what is counted, stay below 2^64, and keep their parts.
        ensures counted { IfOk result (λ numbered. HaveCountedOne mine.old mine.new
            numbered.answer) }
        ensures most { (mine.new.taken.amount < 2 ^ 64) × (mine.new.refused.amount < 2 ^ 64) }
        ensures parts { HasSameParts mine.old mine.new }
        ensures used_up { IsErrOf result HubFault.CountsUsedUp
            ↔ (is_used_up self.old.taken.total self.old.refused.total self.old.configured.total ≡
            true) }
        ensures causes { OnErr result (result ≡ Err HubFault.CountsUsedUp) }
        ensures err { OnErr result ((self.new.core.state ≡ self.old.core.state)
            × AreAsBefore mine.old mine.new × (datagram.new ≡ datagram.old)) }
    {
        self.audit(mine);
        if self.totals.are_used_up() {
            return Err(HubFault::CountsUsedUp);
        }
        Ok(self.add(rt, stream, bytes, lent, datagram, mine))
    }

    /// The caller's shares count no more than the core did.
    fn audit(&mut self, mine: &mut Shares<N>)
        ensures core { self.new.core ≡ self.old.core }
        ensures totals { (self.new.taken.total ≡ self.old.taken.total)
            × (self.new.refused.total ≡ self.old.refused.total)
            × (self.new.configured.total ≡ self.old.configured.total) }
        ensures below { (mine.old.taken.amount ≤ self.old.taken.total)
            × (mine.old.refused.amount ≤ self.old.refused.total) }
        ensures most { (self.old.taken.total < 2 ^ 64) × (self.old.refused.total < 2 ^ 64) }
        ensures amounts { HasSameAmounts mine.old mine.new }
        ensures parts { HasSameParts mine.old mine.new }
        ensures front { mine.new.front ≡ mine.old.front }
    {
        self.totals.fit();
        self.taken.audit(&mut mine.taken);
        self.refused.audit(&mut mine.refused);
        self.configured.audit(&mut mine.configured);
    }

    /// Adds what arrived, where no total is at its greatest value.
    fn add<R: Wait>(
        &mut self,
        rt: &R,
        stream: usize,
        bytes: &[u8],
        lent: &Option<LentData<'_>>,
        datagram: &mut KeptArrival,
        mine: &mut Shares<N>,
    ) -> Numbered<Outcome>
        requires read { WasRead C.Settings.says C.Settings.fits N.settings stream bytes.now
            (brought_view lent.now datagram.old) }
        requires room { HasRoomFor datagram.old lent.now }
        requires parts { AreSomeParts mine.old }
        requires free { is_used_up self.old.taken.total self.old.refused.total
            self.old.configured.total ≡ false }
        ensures added { AddsArrival C.rules N.given stream bytes.now
            (brought_view lent.now datagram.old) mine.old mine.new result }
        ensures counted { HaveCountedOne mine.old mine.new result.answer }
        ensures parts { HasSameParts mine.old mine.new }
    {
        let LockedCore {
            core,
            taken,
            refused,
            configured,
            totals,
            ..
        } = self;
        let step = core.step();
        let outcome = core.arrive(rt, &mut mine.front, stream, bytes, lent, datagram);
        count(outcome, taken, refused, configured, mine);
        totals.count(outcome);
        Numbered {
            step,
            answer: outcome,
        }
    }

    /// Ticks: the instant that is now, and for each column the count up to which a section may be adopted.
    pub fn tick<M, R: Wait>(
        &mut self,
        rt: &R,
        pops: &mut Pops<N, M>,
        now: u64,
        counts: &[u16; MAX_PMUS],
    ) -> Numbered<Ticked>
        requires { HasAllTurns pops.old N.turns }
        ensures turned { AddsTick ticked_of C.rules N.given now counts.now pops.old pops.new result }
        ensures none { PopsNothing pops.old pops.new }
    {
        let LockedCore { core, turns, .. } = self;
        let Pops {
            front,
            turns: own,
            ..
        } = pops;
        turns.audit(own);
        let step = core.step();
        let answer = core.tick(rt, front, now, counts);
        turns.add(own, 1);
        Numbered { step, answer }
    }

    /// Pops the lowest row that closed and was not popped, which takes the place of the one popped before, and counts it. Whether there was one.
    /// It lies above all rows popped before, and its instant can be tagged.
    pub fn pop<M, R: Wait>(&mut self, rt: &R, pops: &mut Pops<N, M>) -> Numbered<bool>
        requires top { HasAllTop pops.old N.top }
        requires turns { HasAllTurns pops.old N.turns }
        ensures turned { AddsPop C.rules N.given pops.old pops.new result }
        // A row that was popped lies above all before, and is counted; only such a row is.
        ensures row { result.answer ≡ true → HasPoppedOne pops.old pops.new }
        ensures tagged { result.answer ≡ true → CanBeTagged N.given pops.new.row.value }
        ensures none { result.answer ≡ false → HasPoppedNone pops.old pops.new }
        ensures parts { HasSameShares pops.old pops.new }
    {
        let LockedCore {
            core,
            top,
            popped,
            turns,
            ..
        } = self;
        let Pops {
            top: all,
            row,
            count,
            front,
            turns: own,
            ..
        } = pops;
        top.audit(all);
        turns.audit(own);
        let step = core.step();
        let answer = core.pop_into(rt, front, row);
        turns.add(own, 1);
        if !answer {
            return Numbered { step, answer };
        }
        let instant = row.get().instant;
        top.add(all, instant - *popped);
        *popped = instant;
        *count += 1;
        Numbered { step, answer }
    }

    /// Shows all steps to who pops.
    pub fn show<M, R: Wait>(&mut self, rt: &R, pops: &mut Pops<N, M>)
        requires { HasAllTurns pops.old N.turns }
        ensures core { self.new.core ≡ self.old.core }
        ensures seen { pops.new.front ≡ self.old.core.log.seen.log }
        ensures looked { HasLooked pops.old.front pops.new.front }
        ensures none { PopsNothing pops.old pops.new }
    {
        let LockedCore { core, turns, .. } = self;
        let Pops {
            front,
            turns: own,
            ..
        } = pops;
        turns.audit(own);
        core.log.look(rt, front);
    }

    /// Appends the frame of the layout in force, dated with this second.
    ///
    /// # Errors
    ///
    /// `NoMemory` where `out` has no room and gets none; it is as it was.
    pub fn layout<M, B: Buffer, R: Wait>(
        &mut self,
        rt: &R,
        pops: &mut Pops<N, M>,
        soc: u32,
        out: &mut B,
    ) -> Result<(), HubFault>
        requires { HasAllTurns pops.old N.turns }
        ensures looked { OnlyLooks pops.old pops.new }
        ensures layout { OnOk result (IsLayoutBehind C.rules N.given pops.new.front soc
            (B.content out.old) (B.content out.new)) }
        ensures causes { OnErr result ((result ≡ Err HubFault.NoMemory)
            × ForSome (B.refused out.new)) }
        ensures err { OnErr result (B.content out.new ≡ B.content out.old) }
    {
        self.show(rt, pops);
        match self.core.state.layout_frame(soc, out) {
            Ok(()) => Ok(()),
            Err(_) => Err(HubFault::NoMemory),
        }
    }
}

/// Counts an answer in the caller's shares.
fn count<N: Ledgers>(
    outcome: Outcome,
    taken: &mut Book<TakenIn<N>>,
    refused: &mut Book<RefusedIn<N>>,
    configured: &mut Book<ConfiguredIn<N>>,
    mine: &mut Shares<N>,
)
    requires { AreSomeParts mine.old }
    ensures front { mine.new.front ≡ mine.old.front }
    ensures once { (taken.new.total + refused.new.total) + configured.new.total
        ≡ ((taken.old.total + refused.old.total) + configured.old.total) + 1 }
    ensures taken { taken.new.total ≡ taken.old.total + taken_by outcome }
    ensures refused { refused.new.total ≡ refused.old.total + refused_by outcome }
    ensures configured { configured.new.total ≡ configured.old.total + configured_by outcome }
    ensures counted { HaveCountedOne mine.old mine.new outcome }
    ensures parts { HasSameParts mine.old mine.new }
{
    match outcome {
        Outcome::Taken => taken.add(&mut mine.taken, 1),
        Outcome::Refused(_) => refused.add(&mut mine.refused, 1),
        _ => configured.add(&mut mine.configured, 1),
    }
}
