//! What is told of the value under the lock: its counts, the log, and what waits.
ghost use Rattle.std.specs.Prelude.{◌≡◌};
ghost use Rattle.pdc_life.specs.Answer.{waiting_counts};
ghost use Rattle.pdc_life.specs.Row.{is_whole};
ghost use Rattle.pdc_ports.specs.pdc_arrival.Counts.{counts_after};
ghost use Rattle.pdc_hub.specs.Counted.{AreAllParts, HasSameAmounts, HasSameParts, HaveCountedAs};
ghost use Rattle.pdc_hub.specs.Counted.{configurations, sum_of};
ghost use Rattle.pdc_hub.specs.Pops.{HasAllTurns, OnlyLooks};
ghost use Rattle.pdc_hub.specs.Replay.{AreSaid, WasRead};
ghost use Rattle.pdc_log.specs.Log.{InTheLife, came_in};
ghost use mathlib.Core.List.{IsPrefix};

use crate::locked_core::LockedCore;
use crate::naming::Naming;
use crate::pops::Pops;
use crate::shares::Shares;
use pdc_core::{Core, Counts};
use pdc_life::MAX_PMUS;
use pdc_log::Front;
use std::sync::Wait;

impl<C: Core + Drop, N: Naming<C::Settings>> LockedCore<C, N> {
    /// How arrivals were answered.
    pub fn counts(&self) -> Counts
        ensures value { result ≡ C.counts_of self.now.core.state }
        ensures totals { (result.taken ≡ self.now.taken.total)
            × (result.refused ≡ self.now.refused.total)
            × (configurations result ≡ self.now.configured.total) }
    {
        self.core.state.counts()
    }

    /// How arrivals were answered. Who has all parts, and pops, learns that these are the amounts of the shares, and sees the whole log: no more
    /// came than the shares count, and all ticks and pops are those of who pops.
    pub fn totals<M, R: Wait>(
        &mut self,
        rt: &R,
        all: &mut Shares<N>,
        pops: &mut Pops<N, M>,
    ) -> Counts
        requires turns { HasAllTurns pops.old N.turns }
        requires parts { AreAllParts all.old N.taken N.refused N.configured }
        ensures amounts { HaveCountedAs all.old result }
        ensures kept { HasSameAmounts all.old all.new }
        ensures parts { HasSameParts all.old all.new }
        ensures looked { OnlyLooks pops.old pops.new }
        ensures later { IsPrefix all.old.front pops.new.front }
        ensures came { came_in pops.new.front ≡ sum_of all.old }
        ensures said { ∥ AreSaid (WasRead C.Settings.says C.Settings.fits N.settings)
            pops.new.front ∥₁ }
    {
        self.show(rt, pops);
        let counts = self.counts();
        let LockedCore {
            core,
            taken,
            refused,
            configured,
            ..
        } = self;
        taken.audit(&mut all.taken);
        refused.audit(&mut all.refused);
        configured.audit(&mut all.configured);
        core.log.look(rt, &mut all.front);
        counts
    }

    /// Shows all steps to who pops, among them all that these shares saw. Each was read from bytes that say it.
    pub fn look<M, R: Wait>(&mut self, rt: &R, all: &mut Shares<N>, pops: &mut Pops<N, M>)
        requires { HasAllTurns pops.old N.turns }
        ensures kept { HasSameAmounts all.old all.new × HasSameParts all.old all.new }
        ensures looked { OnlyLooks pops.old pops.new }
        ensures later { IsPrefix all.old.front pops.new.front }
        ensures said { ∥ AreSaid (WasRead C.Settings.says C.Settings.fits N.settings)
            pops.new.front ∥₁ }
    {
        self.show(rt, pops);
        self.core.log.look(rt, &mut all.front);
    }

    /// For each column the count that waits to be stored.
    pub fn waiting<M, R: Wait>(&mut self, rt: &R, pops: &mut Pops<N, M>) -> [u16; MAX_PMUS]
        requires { HasAllTurns pops.old N.turns }
        ensures looked { OnlyLooks pops.old pops.new }
        ensures waits { InTheLife C.rules N.given pops.new.front (λ g E. result ≡
            waiting_counts g E) }
    {
        self.show(rt, pops);
        self.core.state.waiting()
    }

    /// Whether the lowest open instant is whole: each stream that it waits for has come. Where none is open, none is. It is told of the life as
    /// it is now, which the caller then has seen.
    pub fn is_whole<R: Wait>(&self, rt: &R, seen: &mut Front<N>) -> bool
        ensures later { IsPrefix seen.old seen.new }
        ensures whole { InTheLife C.rules N.given seen.new (λ g E. result ≡ is_whole g E) }
    {
        self.core.log.look(rt, seen);
        self.core.state.is_whole()
    }

    /// How arrivals were answered in the life as it is now, which the caller then has seen.
    pub fn counts_behind<R: Wait>(&self, rt: &R, seen: &mut Front<N>) -> Counts
        ensures later { IsPrefix seen.old seen.new }
        ensures counts { InTheLife C.rules N.given seen.new (λ g E. result ≡ counts_after E) }
    {
        self.core.log.look(rt, seen);
        self.core.state.counts()
    }
}
