//! A core beside a base from which the steps since lead to it.
ghost use Rattle.std.specs.Prelude.{◌≡◌, ◌+◌, ◌≤◌, ◌<◌, ◌∷◌, ◌++◌, ℕ, IfOk, List, OnErr, Some, []};
ghost use Rattle.std.specs.Prelude.{false, length, true};
ghost use Rattle.std.specs.List.{list_all};
ghost use Rattle.pdc_core.specs.Step.{after_answer, is_allowed, ticked_of};
ghost use Rattle.pdc_core.specs.Lent.{HasRoomFor, brought_view};
ghost use Rattle.pdc_core.specs.declared.step.CoreStep.TheVariants as step;
ghost use Rattle.pdc_life.specs.Answer.{ToArrive, ToPop, ToTick, pop_answer, tick_answer};
ghost use Rattle.pdc_life.specs.Given.{Given};
ghost use Rattle.pdc_life.specs.Life.{Entry, changes};
ghost use Rattle.pdc_hub.specs.Kept.{KeepsArrival};
ghost use Rattle.pdc_hub.specs.Opened.{AreOpened};
ghost use Rattle.pdc_hub.specs.Pops.{CanBeTagged, IsPop};
ghost use Rattle.pdc_hub.specs.Replay.{Follows, HasLogged, Records, WasRead, since};
ghost use Rattle.pdc_memory.specs.Asking.{WasRefused};

use crate::naming::Naming;
use crate::steps::Steps;
use pdc_core::{Core, CoreStep, KeptArrival, LentData, Ticked};
use pdc_life::{MAX_PMUS, Outcome};
use pdc_log::{Add, Arriving, Front, Log, Popping, Ticking};
use pdc_memory::HeldBox;
use pdc_row::DueRow;
use std::alloc::{AllocError, Global};
use std::marker::PhantomData;
use std::sync::Wait;

/// A core beside a base from which the steps since lead to it.
#[derive(Drop)]
pub struct Replayed<C: Core + Drop, N: Naming<C::Settings>> {
    pub base: C,
    /// All steps of its life.
    pub log: Log,
    /// The steps since, with room for as many as the limit.
    pub events: Steps,
    pub state: C,
    pub limit: usize,
    of: PhantomData<N>,
    pub ghost named: { log.seen.book ≡ N.book },
    pub ghost replays: { ∥ Records C.rules (WasRead C.Settings.says C.Settings.fits N.settings)
        N.given
        (C.stands_for base) (C.stands_for state) log.seen.log events.items ∥₁ },
    pub ghost base_settings: { ∥ (N.settings ≡ Some (C.settings_of base)) ∥₁ },
    pub ghost state_settings: { ∥ (N.settings ≡ Some (C.settings_of state)) ∥₁ },
    pub ghost allowed: { list_all (is_allowed (C.Settings.fits (C.settings_of base))) events.items ≡
        true },
    pub ghost bounded: { length events.items ≤ limit },
    pub ghost room: { events.capacity ≡ limit },
    pub ghost some: { 1 ≤ limit },
}

impl<C: Core + Drop, N: Naming<C::Settings>> Replayed<C, N> {
    /// Two cores that were opened alike, with room for as many steps as the limit.
    ///
    /// # Errors
    ///
    /// [`AllocError`] where a request for that room was refused.
    pub fn new(alloc: Global, base: C, state: C, limit: usize, log: Log) -> Result<Self, AllocError>
        requires alike { AreOpened N.given (C.stands_for base) (C.stands_for state) }
        requires settings { (N.settings ≡ Some (C.settings_of base))
            × (N.settings ≡ Some (C.settings_of state)) }
        requires limit { 1 ≤ limit }
        requires log { (log.seen.book ≡ N.book) × (log.seen.log ≡ []) }
        ensures made { IfOk result (λ made. (made.base ≡ base) × (made.state ≡ state)
            × (made.events.items ≡ []) × (made.limit ≡ limit) × (made.log ≡ log)) }
        ensures denied { OnErr result (WasRefused limit) }
    {
        let events = Steps::with_capacity(alloc, limit)?;
        Ok(Replayed {
            base,
            log,
            events,
            state,
            limit,
            of: PhantomData,
        })
    }

    /// The number of the step that comes next: how many steps the life has.
    pub fn step(&self) -> u64
        ensures { result ≡ length self.now.log.seen.log }
    {
        self.log.len()
    }

    /// Where the list is full, the base is brought up by it: it becomes what the steps made of the state.
    fn bring_up(&mut self)
        ensures state { self.new.state ≡ self.old.state }
        ensures events { self.new.events.items ≡ since self.old.limit self.old.events.items }
        ensures limit { self.new.limit ≡ self.old.limit }
        ensures log { self.new.log ≡ self.old.log }
        ensures room { length self.new.events.items < self.new.limit }
    {
        if self.events.len() < self.limit {
            return;
        }
        let Replayed {
            base,
            events,
            state,
            ..
        } = self;
        base.copy_from(state);
        events.clear();
    }

    /// Answers data that is lent, or else what is kept, which arrived for a stream, and keeps the step. What is left of what is kept is to be
    /// written over. Where the list is full, the base is brought up first.
    pub fn arrive<R: Wait>(
        &mut self,
        rt: &R,
        front: &mut Front<N>,
        stream: usize,
        bytes: &[u8],
        lent: &Option<LentData<'_>>,
        taken: &mut KeptArrival,
    ) -> Outcome
        requires read { WasRead C.Settings.says C.Settings.fits N.settings stream bytes.now
            (brought_view lent.now taken.old) }
        requires room { HasRoomFor taken.old lent.now }
        ensures answer { (g : Given) (E : List Entry) → C.stands_for self.old.state g E →
            result ≡ (C.rules g E stream (brought_view lent.now taken.old)).outcome }
        ensures stands { C.Settings.says (C.settings_of self.old.state) stream bytes.now
            (brought_view lent.now taken.old) →
            Follows C.rules (C.stands_for self.old.state) (C.stands_for self.new.state)
            (ToArrive stream bytes.now (brought_view lent.now taken.old)) }
        ensures logged { HasLogged (ToArrive stream bytes.now (brought_view lent.now taken.old))
            self.old.log.seen.log self.new.log.seen.log front.old front.new }
        ensures counts { C.counts_of self.new.state ≡
            after_answer result (C.counts_of self.old.state) }
        ensures popped { C.popped_of self.new.state ≡ C.popped_of self.old.state }
        ensures event { KeepsArrival stream (brought_view lent.now taken.old)
            (since self.old.limit self.old.events.items) self.new.events.items }
        ensures limit { self.new.limit ≡ self.old.limit }
    {
        self.bring_up();
        let Replayed {
            log,
            events,
            state,
            ..
        } = self;
        log.add::<N, R, Arriving<'_, '_>, Add>(
            rt,
            front,
            &Arriving {
                stream,
                bytes,
                lent,
                taken,
            },
        );
        kept(events, state, stream, lent, taken)
    }

    /// Ticks, and keeps the step. Where the list is full, the base is brought up first.
    pub fn tick<R: Wait>(
        &mut self,
        rt: &R,
        front: &mut Front<N>,
        now: u64,
        counts: &[u16; MAX_PMUS],
    ) -> Ticked
        ensures answer { (g : Given) (E : List Entry) → C.stands_for self.old.state g E →
            result ≡ ticked_of (changes E) (tick_answer g E now counts.now) }
        ensures stands { Follows C.rules (C.stands_for self.old.state) (C.stands_for self.new.state)
            (ToTick now counts.now) }
        ensures logged { HasLogged (ToTick now counts.now) self.old.log.seen.log
            self.new.log.seen.log front.old front.new }
        ensures counts { C.counts_of self.new.state ≡ C.counts_of self.old.state }
        ensures popped { C.popped_of self.new.state ≡ C.popped_of self.old.state }
        ensures event { self.new.events.items ≡ since self.old.limit self.old.events.items ++
            step.Tick now counts.now ∷ [] }
        ensures limit { self.new.limit ≡ self.old.limit }
    {
        self.bring_up();
        let Replayed {
            log,
            events,
            state,
            ..
        } = self;
        log.add::<N, R, Ticking<'_>, Add>(rt, front, &Ticking { now, counts });
        let ticked = state.tick(now, counts);
        events.push(CoreStep::Tick {
            now,
            counts: *counts,
        });
        ticked
    }

    /// Pops a row, which is handed out in place of this one, and keeps the step. Whether there was one; else the row stays. Where the list is full,
    /// the base is brought up first.
    pub fn pop_into<R: Wait>(
        &mut self,
        rt: &R,
        front: &mut Front<N>,
        row: &mut HeldBox<DueRow>,
    ) -> bool
        ensures answer { (g : Given) (E : List Entry) → C.stands_for self.old.state g E →
            IsPop result row.new.value (pop_answer E) }
        ensures stands { Follows C.rules (C.stands_for self.old.state)
            (C.stands_for self.new.state) ToPop }
        ensures logged { HasLogged ToPop self.old.log.seen.log self.new.log.seen.log front.old
            front.new }
        ensures rises { result ≡ true → C.popped_of self.old.state < row.new.value.instant }
        ensures tagged { result ≡ true → CanBeTagged N.given row.new.value }
        ensures popped { (result ≡ true → C.popped_of self.new.state ≡ row.new.value.instant)
            × (result ≡ false → C.popped_of self.new.state ≡ C.popped_of self.old.state) }
        ensures none { result ≡ false → row.new ≡ row.old }
        ensures counts { C.counts_of self.new.state ≡ C.counts_of self.old.state }
        ensures event { self.new.events.items ≡ since self.old.limit self.old.events.items ++
            step.Pop ∷ [] }
        ensures limit { self.new.limit ≡ self.old.limit }
    {
        self.bring_up();
        let Replayed {
            log,
            events,
            state,
            ..
        } = self;
        log.add::<N, R, Popping, Add>(rt, front, &Popping);
        let is_some = state.pop_into(row);
        events.push(CoreStep::Pop);
        is_some
    }
}

/// Answers what arrived, and keeps it as the last step.
#[inline(always)]
fn kept<C: Core>(
    events: &mut Steps,
    state: &mut C,
    stream: usize,
    lent: &Option<LentData<'_>>,
    taken: &mut KeptArrival,
) -> Outcome
    requires space { length events.old.items < events.old.capacity }
    requires room { HasRoomFor taken.old lent.now }
    requires fits { C.Settings.fits (C.settings_of state.old) stream
        (brought_view lent.now taken.old) ≡ true }
    ensures answer { (g : Given) (E : List Entry) → C.stands_for state.old g E →
        result ≡ (C.rules g E stream (brought_view lent.now taken.old)).outcome }
    ensures stands { (bytes : List ℕ) → C.Settings.says (C.settings_of state.old) stream bytes
        (brought_view lent.now taken.old) →
        Follows C.rules (C.stands_for state.old) (C.stands_for state.new)
        (ToArrive stream bytes (brought_view lent.now taken.old)) }
    ensures counts { C.counts_of state.new ≡ after_answer result (C.counts_of state.old) }
    ensures popped { C.popped_of state.new ≡ C.popped_of state.old }
    ensures settings { C.settings_of state.new ≡ C.settings_of state.old }
    ensures event { KeepsArrival stream (brought_view lent.now taken.old) events.old.items
        events.new.items }
    ensures len { length events.new.items ≡ length events.old.items + 1 }
    ensures capacity { events.new.capacity ≡ events.old.capacity }
{
    let outcome = answered(state, stream, lent, taken);
    events.arrive(stream, lent, taken);
    outcome
}

/// Answers data that is lent, or else what is kept.
#[inline(always)]
fn answered<C: Core>(
    state: &mut C,
    stream: usize,
    lent: &Option<LentData<'_>>,
    taken: &KeptArrival,
) -> Outcome
    requires { C.Settings.fits (C.settings_of state.old) stream (brought_view lent.now taken.now) ≡
        true }
    ensures answer { (g : Given) (E : List Entry) → C.stands_for state.old g E →
        result ≡ (C.rules g E stream (brought_view lent.now taken.now)).outcome }
    ensures stands { (bytes : List ℕ) → C.Settings.says (C.settings_of state.old) stream bytes
        (brought_view lent.now taken.now) →
        Follows C.rules (C.stands_for state.old) (C.stands_for state.new)
        (ToArrive stream bytes (brought_view lent.now taken.now)) }
    ensures counts { C.counts_of state.new ≡ after_answer result (C.counts_of state.old) }
    ensures popped { C.popped_of state.new ≡ C.popped_of state.old }
    ensures settings { C.settings_of state.new ≡ C.settings_of state.old }
{
    match lent {
        Some(data) => state.arrive_lent(stream, data),
        None => state.arrive_kept(stream, taken),
    }
}
