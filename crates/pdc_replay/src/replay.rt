//! A life that is played again on a core.
ghost use Rattle.std.specs.Prelude.{◌≡◌, [], IfOk, List, OnOk, false};
ghost use Rattle.pdc_life.specs.Given.{Given};
ghost use Rattle.pdc_life.specs.Life.{Entry as LifeEntry};
ghost use Rattle.pdc_record.specs.Carried.{is_carried};
ghost use Rattle.pdc_replay.specs.Passed.{Passes, behind, is_step};

use crate::begins::{Begins, Unbegun};
use crate::halt::Halt;
use crate::plays::Plays;
use crate::replayed::Replayed;
use crate::seen::SeenRow;
use pdc_record::{Begun, Entry, What};
use std::alloc::Global;

/// What stands at the front of a file, behind its first entry.
#[derive(Clone, Copy)]
enum Front {
    /// Steps that bring the core to where the file begins.
    Carried {
        /// A tick was among them.
        has_ticked: bool,
    },
    /// Steps that were played already.
    Known,
    /// They are over.
    Past,
}

/// A life that is played again on a core.
#[derive(Drop)]
pub struct Replay<C: Begins> {
    life: Replayed<C>,
    /// The number of its start.
    start: u32,
    /// The number of the first step that is compared.
    first: u64,
    /// The number of the next step.
    next: u64,
    front: Front,
}

/// Whether an entry is a step.
fn is_step(what: &What<'_>) -> bool
    ensures { result ≡ is_step what.now }
{
    matches!(
        what,
        What::Arrived { .. }
            | What::Ticked { .. }
            | What::FoundNone
            | What::Popped { .. }
            | What::NoFrame { .. }
    )
}

impl<C: Begins> Replay<C> {
    /// The life at its start, whose settings are this text, or where a later file begins, with the step of this number. Then the file carries
    /// over what a core must know.
    ///
    /// # Errors
    ///
    /// Why it cannot be begun so.
    pub fn begin(
        alloc: Global,
        begun: &Begun<'_>,
        step: u64,
        text: &str,
    ) -> Result<Replay<C>, Unbegun>
        // It is at the start of the life that is given so much by its settings, and its next step has this number.
        ensures stands { IfOk result (λ replay. ⟦<Replay<C> as Plays>⟧.stands_for replay
            (C.begun_with (⟦<Replay<C> as Plays>⟧.settings_of replay)
            begun.entry.now.start begun.entry.now.floor begun.entry.now.counts begun.entry.now.now)
            []) }
        ensures next { IfOk result (λ replay. ⟦<Replay<C> as Plays>⟧.next_of replay ≡ step) }
    {
        let life = Replayed::begin(alloc, begun, text)?;
        let front = if step == 0 {
            Front::Past
        } else {
            Front::Carried { has_ticked: false }
        };
        Ok(Replay {
            life,
            start: begun.start,
            first: step,
            next: step,
            front,
        })
    }

    /// How many steps were played and compared.
    pub fn steps(&self) -> u64 {
        self.next.saturating_sub(self.first)
    }

    /// How many frames were published.
    pub fn frames(&self) -> u64 {
        self.life.frames()
    }

    /// How many datagrams were not kept whole: they are no frames, and their refusals are those that are recorded.
    pub fn unkept(&self) -> u64 {
        self.life.unkept()
    }

    /// The row that was popped last, with the sections that it closed under.
    pub fn last_row(&self) -> SeenRow<'_> {
        self.life.last_row()
    }

    /// Whether this is the number of the next step.
    fn is_next(&self, step: u64) -> Result<(), Halt>
        ensures { OnOk result (step ≡ self.now.next) }
    {
        if step > self.next {
            return Err(Halt::Missing {
                from: self.next,
                until: step,
            });
        }
        if step < self.next {
            return Err(Halt::OutOfOrder {
                step,
                wanted: self.next,
            });
        }
        Ok(())
    }

    /// A file that goes on with this life.
    fn goes_on(&mut self, step: u64, begun: &Begun<'_>) -> Result<(), Halt>
        ensures same { self.new.life.core ≡ self.old.life.core }
        ensures next { self.new.next ≡ self.old.next }
    {
        if begun.start != self.start || !self.life.is_of(begun) {
            return Err(Halt::OtherLife);
        }
        self.is_next(step)?;
        self.front = Front::Known;
        Ok(())
    }

    /// Plays an entry at the front of a file; answers whether it is one that is carried over.
    fn play_front(&mut self, entry: &Entry<'_>) -> Result<bool, Halt>
        ensures passes { is_carried entry.now self.old.next ≡ false →
            IfOk result (λ is_carried. is_carried ≡ false) }
        ensures same { is_carried entry.now self.old.next ≡ false →
            self.new.life.core ≡ self.old.life.core }
        ensures next { self.new.next ≡ self.old.next }
        ensures settings { C.settings_of self.new.life.core ≡ C.settings_of self.old.life.core }
    {
        let is_carried = entry.is_carried(self.next);
        match self.front {
            Front::Past => return Ok(false),
            Front::Known => {}
            Front::Carried { .. } if is_carried => {
                if !self.life.carry(&entry.what)? {
                    return Err(Halt::NotCarried { step: entry.step });
                }
                if matches!(entry.what, What::Ticked { .. }) {
                    self.front = Front::Carried { has_ticked: true };
                }
            }
            Front::Carried { has_ticked: false } => {
                return Err(Halt::NotTheFirst {
                    step: Some(self.first),
                });
            }
            Front::Carried { has_ticked: true } => {}
        }
        if !is_carried {
            self.front = Front::Past;
        }
        Ok(is_carried)
    }

    /// Plays an entry that is a step: the next one, or one at the front of a file.
    fn play_step(&mut self, entry: &Entry<'_>) -> Result<(), Halt>
        ensures as_recorded { (g : Given) (E : List LifeEntry) →
            C.stands_for self.old.life.core g E →
            is_carried entry.now self.old.next ≡ false → OnOk result (Passes C.rules
            (C.Settings.says (C.settings_of self.old.life.core)) g E
            (C.stands_for self.new.life.core g) entry.now.what) }
        ensures next { is_carried entry.now self.old.next ≡ false →
            OnOk result (entry.now.step ≡ self.old.next) }
        ensures after { is_carried entry.now self.old.next ≡ false →
            OnOk result (self.new.next ≡ behind self.old.next) }
        ensures settings { C.settings_of self.new.life.core ≡ C.settings_of self.old.life.core }
    {
        if self.play_front(entry)? {
            return Ok(());
        }
        self.is_next(entry.step)?;
        self.life.make(self.next, entry)?;
        self.next = self.next.saturating_add(1);
        Ok(())
    }
}

impl<C: Begins> Plays for Replay<C> {
    type Settings = C::Settings;

    ghost rules = { C.rules };

    ghost settings_of = { λ replay. C.settings_of replay.life.core };

    ghost stands_for = { λ replay. C.stands_for replay.life.core };

    ghost next_of = { λ replay. replay.next };

    fn play(&mut self, entry: &Entry<'_>) -> Result<(), Halt> {
        if is_step(&entry.what) {
            return self.play_step(entry);
        }
        if let What::Begun(begun) = &entry.what {
            self.goes_on(entry.step, begun)?;
        }
        self.life.make(self.next, entry)
    }
}
