//! The lock round a core.
ghost use Rattle.std.specs.Prelude.{◌≡◌, ◌^◌, ◌<◌, ◌≤◌, ◌⊎◌, Err, IfOk, IfSome, OnErr, OnOk, Some, []};
ghost use Rattle.std.specs.Prelude.{false, true};
ghost use Rattle.pdc_core.specs.Lent.{HasRoomFor, brought_view};
ghost use Rattle.pdc_core.specs.Step.{ticked_of};
ghost use Rattle.pdc_life.specs.Answer.{waiting_counts};
ghost use Rattle.pdc_life.specs.Row.{is_whole};
ghost use Rattle.pdc_ports.specs.pdc_arrival.Counts.{counts_after};
ghost use Rattle.pdc_hub.specs.Adding.{AddsArrival, AddsPop, AddsTick, IsLayoutBehind};
ghost use Rattle.pdc_hub.specs.Closing.{closing_of};
ghost use Rattle.pdc_hub.specs.Counted.{AreAllParts, AreAsBefore, AreSomeParts, HasSameAmounts};
ghost use Rattle.pdc_hub.specs.Counted.{HasSameParts, sum_of};
ghost use Rattle.pdc_hub.specs.Counted.{HaveCountedAs, HaveCountedNone, HaveCountedOne};
ghost use Rattle.pdc_hub.specs.Opened.{AreCut, AreNamed, AreOpened};
ghost use Rattle.pdc_hub.specs.Pops.{CanBeTagged, HasAllTop, HasAllTurns, OnlyLooks, PopsNothing};
ghost use Rattle.pdc_hub.specs.Pops.{popped_by};
ghost use Rattle.pdc_hub.specs.Pops.{HasPoppedNone, HasPoppedOne, HasSameShares};
ghost use Rattle.pdc_hub.specs.Replay.{AreSaid, WasRead};
ghost use Rattle.pdc_log.specs.Log.{InTheLife, came_in};
ghost use Rattle.pdc_memory.specs.Asking.{ForSome, WasRefused};
ghost use mathlib.Core.List.{IsPrefix};

use crate::fault::HubFault;
use crate::ledgers::{ConfiguredIn, RefusedIn, TakenIn, TopIn, TurnsIn};
use crate::locked_core::LockedCore;
use crate::naming::Naming;
use crate::pops::{Pops, spare_row};
use crate::shares::{Blanks, Books, Shares};
use pdc_core::{Core, Counts, KeptArrival, LentData, Ticked};
use pdc_frame::Buffer;
use pdc_life::{MAX_PMUS, Outcome};
use pdc_log::Front;
use pdc_mark::Mark;
use pdc_ports::Numbered;
use std::alloc::{AllocError, Global};
use std::sync::{Mutex, MutexGuard, OnceLock, OnceToken, Wait};
use std::thread;

/// How often a thread that finds the lock held lets another one run, before it sleeps until the lock is free.
const TURNS: u32 = 8;

/// The lock round a core, and beside it whether no more is to be delivered. Each call but [`Hub::closed`] takes the lock once, and may
/// wait for it.
#[derive(Drop)]
pub struct Hub<C: Core + Drop, N: Naming<C::Settings>> {
    table: Mutex<LockedCore<C, N>>,
    closing: OnceLock<()>,
}

impl<C: Core + Drop, N: Naming<C::Settings>> Hub<C, N> {
    /// A hub over two cores that were opened alike with this floor, with no step taken since; the shares with all parts; and who
    /// pops. The base is brought up each time that so many steps are kept. Their memory is taken here: what is delivered, ticks and pops
    /// take none for their step.
    ///
    /// # Errors
    ///
    /// [`AllocError`] where a request for the room of so many steps was refused, or one for the row that is popped.
    pub fn new<M>(
        alloc: Global,
        base: C,
        now: C,
        limit: usize,
        floor: u64,
        blanks: Blanks,
    ) -> Result<(Self, Shares<N>, Pops<N, M>), AllocError>
        requires alike { AreOpened N.given (C.stands_for base) (C.stands_for now) }
        requires settings { (N.settings ≡ Some (C.settings_of base))
            × (N.settings ≡ Some (C.settings_of now)) }
        requires limit { 1 ≤ limit }
        requires floor { C.popped_of now ≡ floor }
        requires names { AreNamed blanks N.taken N.refused N.configured N.top N.turns }
        requires log { (blanks.log.seen.book ≡ N.book) × (blanks.log.seen.log ≡ []) }
        requires blank { AreCut blanks N.taken N.refused N.configured N.top N.turns }
        ensures parts { IfOk result (λ made. AreAllParts made.1 N.taken N.refused N.configured
            × (made.2.top.parts ≡ N.top.parts) × (made.2.turns.parts ≡ N.turns.parts)) }
        ensures amounts { IfOk result (λ made. HaveCountedNone made.1
            × (made.2.top.amount ≡ floor)) }
        ensures none { IfOk result (λ made. (popped_by made.2 ≡ 0) × (made.1.front ≡ [])
            × (made.2.front ≡ [])) }
        ensures denied { OnErr result (WasRefused limit ⊎ WasRefused 1) }
    {
        let row = spare_row(alloc)?;
        let Blanks {
            taken,
            refused,
            configured,
            top,
            turns,
            log,
        } = blanks;
        let (taken, mine_taken) = taken.open::<TakenIn<N>>();
        let (refused, mine_refused) = refused.open::<RefusedIn<N>>();
        let (configured, mine_configured) = configured.open::<ConfiguredIn<N>>();
        let (turns, mine_turns) = turns.open::<TurnsIn<N>>();
        let front = log.front::<N>();
        let pops_front = front.again();
        let (mut top, mut mine_top) = top.open::<TopIn<N>>();
        top.add(&mut mine_top, floor);
        let books = Books {
            taken,
            refused,
            configured,
            top,
            turns,
        };
        let core = LockedCore::new(alloc, base, now, limit, floor, books, log)?;
        Ok((
            Hub {
                table: Mutex::new(core),
                closing: OnceLock::new(),
            },
            Shares {
                taken: mine_taken,
                refused: mine_refused,
                configured: mine_configured,
                front,
            },
            Pops::new(mine_top, mine_turns, pops_front, row),
        ))
    }

    /// Takes the lock. For a datagram it is held for less than a microsecond, so a thread that finds it held lets others run some times before
    /// it sleeps: who lets go of the lock wakes a thread that sleeps, and waits for the call of the system that does it. It does not turn
    /// at the lock, since each look takes the lock's memory from who holds it. A tick, a layout or a base that is brought up hold it longer.
    #[inline(always)]
    fn locked<R: Wait>(&self, rt: &R) -> MutexGuard<'_, LockedCore<C, N>> {
        if let Some(guard) = self.table.try_lock() {
            return guard;
        }
        self.locked_in_turn(rt)
    }

    /// The same where it is held. A call of its own, so that the way of a thread that finds the lock free stays short.
    #[inline(never)]
    fn locked_in_turn<R: Wait>(&self, rt: &R) -> MutexGuard<'_, LockedCore<C, N>> {
        for _ in 0..TURNS {
            thread::yield_now();
            if let Some(guard) = self.table.try_lock() {
                return guard;
            }
        }
        self.table.lock(rt)
    }

    /// Adds data that is lent, or else what is kept, which arrived for a stream, and counts its answer in the caller's shares. The answer is that
    /// of the one life, behind all that the caller had seen of it, and bears the number of the step, given under the lock: how many steps that
    /// life had. What is left of what is kept is to be written over.
    ///
    /// # Errors
    ///
    /// `CountsUsedUp` where one of the three totals is at its greatest value. Nothing is added then.
    pub fn deliver<R: Wait>(
        &self,
        rt: &R,
        stream: usize,
        bytes: &[u8],
        lent: &Option<LentData<'_>>,
        datagram: &mut KeptArrival,
        mine: &mut Shares<N>,
    ) -> Result<Numbered<Outcome>, HubFault>
        requires read { WasRead C.Settings.says C.Settings.fits N.settings stream bytes.now
            (brought_view lent.now datagram.old) }
        requires room { HasRoomFor datagram.old lent.now }
        requires parts { AreSomeParts mine.old }
        ensures added { IfOk result (AddsArrival C.rules N.given stream bytes.now
            (brought_view lent.now datagram.old) mine.old mine.new) }
        ensures counted { IfOk result (λ numbered. HaveCountedOne mine.old mine.new
            numbered.answer) }
        ensures most { (mine.new.taken.amount < 2 ^ 64) × (mine.new.refused.amount < 2 ^ 64) }
        ensures parts { HasSameParts mine.old mine.new }
        ensures causes { OnErr result (result ≡ Err HubFault.CountsUsedUp) }
        ensures err { OnErr result (AreAsBefore mine.old mine.new × (datagram.new ≡ datagram.old)) }
    {
        self.locked(rt)
            .deliver(rt, stream, bytes, lent, datagram, mine)
    }

    /// Ticks: the instant that is now, and for each column the count up to which a section may be adopted, which is the one that the mark
    /// stores. The mark is lent, and a store wants it whole: so it stored these counts before the tick, and stores them until the answer.
    /// The answer bears the number of the step.
    pub fn tick<M: Mark, R: Wait>(
        &self,
        rt: &R,
        pops: &mut Pops<N, M>,
        now: u64,
        mark: &M,
    ) -> Numbered<Ticked>
        requires { HasAllTurns pops.old N.turns }
        ensures turned { AddsTick ticked_of C.rules N.given now
            (M.stored mark.now).counts pops.old pops.new result }
        ensures none { PopsNothing pops.old pops.new }
    {
        let counts = mark.counts();
        self.locked(rt).tick(rt, pops, now, &counts)
    }

    /// Pops the lowest row that closed and was not popped, which takes the place of the one popped before, and counts it. Whether there was one.
    /// It lies above all rows popped before, and its instant can be tagged. The answer bears the number of the step.
    pub fn pop<M, R: Wait>(&self, rt: &R, pops: &mut Pops<N, M>) -> Numbered<bool>
        requires top { HasAllTop pops.old N.top }
        requires turns { HasAllTurns pops.old N.turns }
        ensures turned { AddsPop C.rules N.given pops.old pops.new result }
        // A row that was popped lies above all before, and is counted; only such a row is.
        ensures row { result.answer ≡ true → HasPoppedOne pops.old pops.new }
        ensures tagged { result.answer ≡ true → CanBeTagged N.given pops.new.row.value }
        ensures none { result.answer ≡ false → HasPoppedNone pops.old pops.new }
        ensures parts { HasSameShares pops.old pops.new }
    {
        self.locked(rt).pop(rt, pops)
    }

    /// Appends the frame of the layout in force, dated with this second.
    ///
    /// # Errors
    ///
    /// `NoMemory` where `out` has no room and gets none; it is as it was.
    pub fn layout<M, B: Buffer, R: Wait>(
        &self,
        rt: &R,
        pops: &mut Pops<N, M>,
        soc: u32,
        out: &mut B,
    ) -> Result<(), HubFault>
        requires { HasAllTurns pops.old N.turns }
        ensures looked { OnlyLooks pops.old pops.new }
        ensures layout { OnOk result (IsLayoutBehind C.rules N.given pops.new.front soc
            (B.content out.old) (B.content out.new)) }
        ensures causes { OnErr result ((result ≡ Err HubFault.NoMemory)
            × ForSome (B.refused out.new)) }
        ensures err { OnErr result (B.content out.new ≡ B.content out.old) }
    {
        self.locked(rt).layout(rt, pops, soc, out)
    }

    /// How arrivals were answered.
    pub fn counts<R: Wait>(&self, rt: &R) -> Counts {
        self.locked(rt).counts()
    }

    /// How arrivals were answered in the life with all that the caller had seen, and what others added since.
    pub fn counts_behind<R: Wait>(&self, rt: &R, seen: &mut Front<N>) -> Counts
        ensures later { IsPrefix seen.old seen.new }
        ensures counts { InTheLife C.rules N.given seen.new (λ g E. result ≡ counts_after E) }
    {
        self.locked(rt).counts_behind(rt, seen)
    }

    /// How arrivals were answered. Who has all parts learns that these are the amounts of the shares.
    pub fn totals<M, R: Wait>(&self, rt: &R, all: &mut Shares<N>, pops: &mut Pops<N, M>) -> Counts
        requires turns { HasAllTurns pops.old N.turns }
        requires parts { AreAllParts all.old N.taken N.refused N.configured }
        ensures amounts { HaveCountedAs all.old result }
        ensures kept { HasSameAmounts all.old all.new }
        ensures parts { HasSameParts all.old all.new }
        ensures looked { OnlyLooks pops.old pops.new }
        ensures later { IsPrefix all.old.front pops.new.front }
        ensures came { came_in pops.new.front ≡ sum_of all.old }
        ensures said { ∥ AreSaid (WasRead C.Settings.says C.Settings.fits N.settings)
            pops.new.front ∥₁ }
    {
        self.locked(rt).totals(rt, all, pops)
    }

    /// Shows all steps to who pops, among them all that these shares saw. Each was read from bytes that say it.
    pub fn look<M, R: Wait>(&self, rt: &R, all: &mut Shares<N>, pops: &mut Pops<N, M>)
        requires { HasAllTurns pops.old N.turns }
        ensures kept { HasSameAmounts all.old all.new × HasSameParts all.old all.new }
        ensures looked { OnlyLooks pops.old pops.new }
        ensures later { IsPrefix all.old.front pops.new.front }
        ensures said { ∥ AreSaid (WasRead C.Settings.says C.Settings.fits N.settings)
            pops.new.front ∥₁ }
    {
        self.locked(rt).look(rt, all, pops);
    }

    /// For each column the count that waits to be stored.
    pub fn waiting<M, R: Wait>(&self, rt: &R, pops: &mut Pops<N, M>) -> [u16; MAX_PMUS]
        requires { HasAllTurns pops.old N.turns }
        ensures looked { OnlyLooks pops.old pops.new }
        ensures waits { InTheLife C.rules N.given pops.new.front (λ g E. result ≡
            waiting_counts g E) }
    {
        self.locked(rt).waiting(rt, pops)
    }

    /// Whether the lowest open instant is whole: each stream that it waits for has come. Where none is open, none is. It is told of a life with
    /// all that the caller had seen, and what others added since.
    pub fn is_whole<R: Wait>(&self, rt: &R, seen: &mut Front<N>) -> bool
        ensures later { IsPrefix seen.old seen.new }
        ensures whole { InTheLife C.rules N.given seen.new (λ g E. result ≡ is_whole g E) }
    {
        self.locked(rt).is_whole(rt, seen)
    }

    /// No more is to be delivered. Only who pops closes it, with all parts of the share, so no receiver does. Answers what shows it.
    pub fn close<M, R: Wait>(&self, rt: &R, pops: &mut Pops<N, M>) -> OnceToken<'_, ()>
        requires { HasAllTop pops.old N.top }
        ensures closed { result.of ≡ closing_of self.now }
        ensures kept { pops.new ≡ pops.old }
    {
        let _ = pops;
        self.closing.init(rt, || -> () {})
    }

    /// What shows that no more is to be delivered, if that is so.
    pub fn closed(&self) -> Option<OnceToken<'_, ()>>
        ensures { IfSome result (λ token. token.of ≡ closing_of self.now) }
    {
        self.closing.witness()
    }
}
