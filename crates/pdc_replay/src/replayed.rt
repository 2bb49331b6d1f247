//! A core that lives a recorded life again, and what of it is compared.
ghost use Rattle.std.specs.Prelude.{◌≡◌, ◌∷◌, [], IfOk, List, None, OnOk, true};
ghost use Rattle.pdc_life.specs.Answer.{ToPop, answered, pop_answer};
ghost use Rattle.pdc_life.specs.Given.{Given};
ghost use Rattle.pdc_life.specs.Life.{Entry as LifeEntry};
ghost use Rattle.pdc_replay.specs.Passed.{Passes, PassesArrival, PassesRow, PassesTick, carried_as};
ghost use Rattle.pdc_replay.specs.Unkept.{IsNoFrame};

use crate::begins::{Begins, Unbegun};
use crate::halt::Halt;
use crate::seen::{Layout, Section, SeenRow, drop_layouts, layout_of};
use crate::steps::{arrive, compare_layout, compare_popped, pass, pop, tick, write_layout};
use arrayvec::ArrayVec;
use pdc_core::Ticked;
use pdc_life::{MAX_PMUS, Outcome};
use pdc_record::{Begun, Entry, What};
use pdc_row::{Block, MAX_CUT};
use pdc_table::{DueRow, HeldBox, spare_row};
use std::alloc::{AllocError, Global};

/// A core that lives a recorded life again.
#[derive(Drop)]
pub struct Replayed<C: Begins> {
    alloc: Global,
    core: C,
    /// How many frames were published.
    frames: u64,
    /// How many datagrams were not kept whole.
    unkept: u64,
    /// The row that was popped last,
    row: HeldBox<DueRow>,
    /// and its blocks.
    blocks: ArrayVec<Block, MAX_CUT>,
    /// The frame of a row or of a layout.
    wire: Vec<u8>,
    /// The layouts of rows that were not popped yet, and that in force, the oldest first.
    layouts: Vec<Layout>,
}

/// Keeps the layout that a tick brought into force.
fn keep_layout<C: Begins>(
    core: &C,
    change: u32,
    wire: &mut Vec<u8>,
    layouts: &mut Vec<Layout>,
) -> Result<(), AllocError> {
    write_layout(core, 0, wire)?;
    layouts.push(layout_of(change, wire))?;
    Ok(())
}

impl<C: Begins> Replayed<C> {
    /// A core at the start of a life, whose settings are this text.
    ///
    /// # Errors
    ///
    /// Why it cannot be begun so.
    pub fn begin(alloc: Global, begun: &Begun<'_>, text: &str) -> Result<Replayed<C>, Unbegun>
        ensures stands { IfOk result (λ life. C.stands_for life.core
            (C.begun_with (C.settings_of life.core) begun.entry.now.start begun.entry.now.floor
            begun.entry.now.counts begun.entry.now.now) []) }
    {
        let core = C::begin(alloc, begun, text)?;
        Ok(Replayed {
            alloc,
            core,
            frames: 0,
            unkept: 0,
            row: spare_row(alloc)?,
            blocks: ArrayVec::new(),
            wire: Vec::new(alloc),
            layouts: Vec::new(alloc),
        })
    }

    /// How many frames were published.
    pub fn frames(&self) -> u64 {
        self.frames
    }

    /// How many datagrams were not kept whole.
    pub fn unkept(&self) -> u64 {
        self.unkept
    }

    /// Whether frames of this life have this id, and so many in a second.
    pub fn is_of(&self, begun: &Begun<'_>) -> bool {
        let output = self.core.output();
        begun.id == output.id.value && begun.rate == output.rate
    }

    /// The row that was popped last, with the sections that it closed under.
    pub fn last_row(&self) -> SeenRow<'_> {
        let row = self.row.get();
        let mut sections: &[Section] = &[];
        for layout in &self.layouts {
            if layout.change == row.change {
                sections = layout.sections.as_slice();
            }
        }
        SeenRow {
            instant: row.instant,
            blocks: self.blocks.as_slice(),
            sections,
        }
    }

    /// A tick. The layout that it brought into force is kept.
    fn tick(
        &mut self,
        step: u64,
        now: u64,
        counts: &[u16; MAX_PMUS],
        recorded: Ticked,
    ) -> Result<(), Halt>
        ensures as_recorded { (g : Given) (E : List LifeEntry) → C.stands_for self.old.core g E →
            OnOk result (PassesTick C.rules g E (C.stands_for self.new.core g) now counts.now
            recorded) }
        ensures settings { C.settings_of self.new.core ≡ C.settings_of self.old.core }
    {
        if let Err(what) = tick(&mut self.core, now, counts, recorded) {
            return Err(Halt::Differs { step, what });
        }
        if let Some(change) = recorded.change {
            keep_layout(&self.core, change, &mut self.wire, &mut self.layouts)?;
        }
        Ok(())
    }

    /// A datagram is answered.
    fn arrive(
        &mut self,
        step: u64,
        stream: u16,
        recorded: Outcome,
        datagram: &[u8],
    ) -> Result<(), Halt>
        ensures as_recorded { (g : Given) (E : List LifeEntry) → C.stands_for self.old.core g E →
            OnOk result (PassesArrival C.rules (C.Settings.says (C.settings_of self.old.core)) g E
            (C.stands_for self.new.core g) stream recorded datagram.now) }
        ensures settings { C.settings_of self.new.core ≡ C.settings_of self.old.core }
    {
        match arrive(&mut self.core, stream, recorded, datagram) {
            Ok(()) => Ok(()),
            Err(what) => Err(Halt::Differs { step, what }),
        }
    }

    /// A datagram that was not kept whole is passed over.
    fn pass(&mut self, step: u64, stream: u16, recorded: Outcome) -> Result<(), Halt>
        ensures as_recorded { OnOk result (IsNoFrame recorded) }
        ensures same { self.new.core ≡ self.old.core }
    {
        if let Err(what) = pass(&self.core, stream, recorded) {
            return Err(Halt::Differs { step, what });
        }
        self.unkept = self.unkept.saturating_add(1);
        Ok(())
    }

    /// No row is there to be popped.
    fn find_none(&mut self, step: u64) -> Result<(), Halt>
        ensures as_recorded { (g : Given) (E : List LifeEntry) → C.stands_for self.old.core g E →
            OnOk result ((pop_answer E ≡ None)
            × C.stands_for self.new.core g (answered C.rules g E ToPop ∷ E)) }
        ensures settings { C.settings_of self.new.core ≡ C.settings_of self.old.core }
    {
        match pop(&mut self.core, &mut self.row, None) {
            Ok(()) => Ok(()),
            Err(what) => Err(Halt::Differs { step, what }),
        }
    }

    /// A row is popped, and its frame is the one that was published, where one was.
    fn pop_row(&mut self, step: u64, instant: u64, frame: Option<&[u8]>) -> Result<(), Halt>
        ensures as_recorded { (g : Given) (E : List LifeEntry) → C.stands_for self.old.core g E →
            OnOk result (PassesRow C.rules g E (C.stands_for self.new.core g) instant frame.entry) }
        ensures settings { C.settings_of self.new.core ≡ C.settings_of self.old.core }
    {
        if let Err(what) = pop(&mut self.core, &mut self.row, Some(instant)) {
            return Err(Halt::Differs { step, what });
        }
        self.blocks = self.row.get().blocks.to_blocks();
        drop_layouts(&mut self.layouts, self.row.get().change);
        compare_popped(
            self.alloc,
            step,
            &self.core,
            &self.row,
            frame,
            &mut self.wire,
        )?;
        if frame.is_some() {
            self.frames = self.frames.saturating_add(1);
        }
        Ok(())
    }

    /// Makes the step of an entry, where it is one, and compares what it says with what the core does.
    ///
    /// # Errors
    ///
    /// What differs at the step that is played, of which this is the number, or at the one before it where it is a layout.
    pub fn make(&mut self, step: u64, entry: &Entry<'_>) -> Result<(), Halt>
        ensures as_recorded { (g : Given) (E : List LifeEntry) → C.stands_for self.old.core g E →
            OnOk result (Passes C.rules (C.Settings.says (C.settings_of self.old.core)) g E
            (C.stands_for self.new.core g) entry.now.what) }
        ensures settings { C.settings_of self.new.core ≡ C.settings_of self.old.core }
    {
        match &entry.what {
            What::Arrived {
                stream,
                outcome,
                datagram,
            } => self.arrive(step, *stream, *outcome, datagram),
            What::Ticked {
                now,
                counts,
                closed,
                change,
                used_up,
            } => self.tick(
                step,
                *now,
                counts,
                Ticked {
                    closed: *closed,
                    change: *change,
                    used_up: *used_up,
                },
            ),
            What::NoFrame {
                stream,
                outcome,
                ..
            } => self.pass(step, *stream, *outcome),
            What::FoundNone => self.find_none(step),
            What::Popped { instant, frame } => self.pop_row(step, *instant, *frame),
            What::Laid { frame } => compare_layout(
                self.alloc,
                step.saturating_sub(1),
                &self.core,
                frame,
                &mut self.wire,
            ),
            What::Missing { until } => Err(Halt::Missing {
                from: entry.step,
                until: *until,
            }),
            What::Begun(_) | What::Unanswered { .. } => Ok(()),
        }
    }

    /// Makes a step that is carried over, and answers whether it is answered as it was. A tick closes no row, since those that it closed were
    /// popped before the file begins.
    ///
    /// # Errors
    ///
    /// No memory was left.
    pub fn carry(&mut self, what: &What<'_>) -> Result<bool, AllocError>
        ensures as_recorded { (g : Given) (E : List LifeEntry) → C.stands_for self.old.core g E →
            IfOk result (λ is_as_it_was. is_as_it_was ≡ true →
            Passes C.rules (C.Settings.says (C.settings_of self.old.core)) g E
            (C.stands_for self.new.core g) (carried_as what.now)) }
        ensures settings { C.settings_of self.new.core ≡ C.settings_of self.old.core }
    {
        match what {
            What::Arrived {
                stream,
                outcome,
                datagram,
            } => Ok(arrive(&mut self.core, *stream, *outcome, datagram).is_ok()),
            What::Ticked {
                now,
                counts,
                change,
                used_up,
                ..
            } => {
                let recorded = Ticked {
                    closed: 0,
                    change: *change,
                    used_up: *used_up,
                };
                if tick(&mut self.core, *now, counts, recorded).is_err() {
                    return Ok(false);
                }
                if let Some(change) = change {
                    keep_layout(&self.core, *change, &mut self.wire, &mut self.layouts)?;
                }
                Ok(true)
            }
            _ => Ok(false),
        }
    }
}
