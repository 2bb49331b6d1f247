//! A station.
ghost use Rattle.std.specs.Prelude.{◌≡◌, ◌+◌, ◌<◌, ◌≤◌, ◌∷◌, ◌++◌, IfOk, IsOk, List, OnErr, OnOk};
ghost use Rattle.std.specs.Prelude.{false, length, option_map};
ghost use Rattle.pdc_align.specs.Align.{ticked_of};
ghost use Rattle.pdc_core.specs.Core.{Hears};
ghost use Rattle.pdc_history.specs.World.{reserved};
ghost use Rattle.pdc_life.specs.Answer.{ToPop, ToTick, answered, pop_answer, tick_answer};
ghost use Rattle.pdc_life.specs.Answer.{waiting_counts};
ghost use Rattle.pdc_life.specs.Given.{Given};
ghost use Rattle.pdc_life.specs.Life.{Entry, changes};
ghost use Rattle.pdc_row.specs.declared.row_frame.TheConstants.{MAX_ROW_LEN};
ghost use Rattle.pdc_publisher.specs.Publisher.{has_failed_in, last_in, lead_in, mark_in};
ghost use Rattle.pdc_publisher.specs.Publisher.{output_in};
ghost use Rattle.pdc_row.specs.RowView.{row_view};
ghost use Rattle.pdc_mark.specs.Stored.{with_waiting};
ghost use Rattle.pdc_station.specs.Calls.{Makes, publish_of};
ghost use Rattle.pdc_station.specs.Station.{IsOfSomeLife, wire_of_some};

use crate::next_row::next_row;
use crate::publishes::{publish_some, raise_to};
use pdc_align::Ticked;
use pdc_core::Opens;
use pdc_frame::Buffer;
use pdc_life::Outcome;
use pdc_mark::Store;
use pdc_publisher::Publisher;
use pdc_row::{DueRow, MAX_ROW_LEN};
use std::alloc::AllocError;

/// A core with the publisher of its mark.
#[derive(Drop)]
pub struct Station<C: Opens, M: Store> {
    /// The core, in its present life.
    pub core: C,
    /// What publishes its rows, and raises its mark.
    pub publisher: Publisher<M>,
    pub ghost stands: { IsOfSomeLife (C.stands_for core) },
    pub ghost works: { has_failed_in publisher ≡ false },
    pub ghost says: { output_in publisher ≡ C.output_of (C.settings_of core) },
    pub ghost last: { last_in publisher ≤ C.popped_of core },
}

impl<C: Opens, M: Store> Station<C, M> {
    /// A station of a core in its first life, over this mark: all that the core has popped lies at or above the stored floor.
    pub(crate) fn new(core: C, mark: M, lead: u16) -> Station<C, M>
        requires some { IsOfSomeLife (C.stands_for core) }
        requires floor { (M.stored mark).floor ≤ C.popped_of core }
        ensures core { result.core ≡ core }
        ensures mark { mark_in result.publisher ≡ mark }
        ensures lead { lead_in result.publisher ≡ lead }
    {
        let publisher = Publisher::new(mark, core.output(), lead);
        Station { core, publisher }
    }

    /// Answers the bytes of a datagram that came for a stream. Nothing is stored.
    pub fn put_datagram(&mut self, stream: usize, bytes: &[u8]) -> Outcome
        requires { stream < C.Settings.streams (C.settings_of self.old.core) }
        ensures hears { Hears (C.Settings.says (C.settings_of self.old.core)) C.rules
            (C.stands_for self.old.core) (C.stands_for self.new.core)
            stream bytes.now result }
        ensures mark { mark_in self.new.publisher ≡ mark_in self.old.publisher }
        ensures popped { C.popped_of self.new.core ≡ C.popped_of self.old.core }
        ensures settings { C.settings_of self.new.core ≡ C.settings_of self.old.core }
        ensures lead { lead_in self.new.publisher ≡ lead_in self.old.publisher }
    {
        self.core.put_datagram(stream, bytes)
    }

    /// A tick. First the mark is raised to the counts that wait, where one is greater; then the core ticks with the counts of the mark.
    pub fn tick(&mut self, now: u64) -> Ticked
        ensures mark { (g : Given) (E : List Entry) → C.stands_for self.old.core g E →
            M.stored (mark_in self.new.publisher) ≡
            with_waiting (waiting_counts g E) (M.stored (mark_in self.old.publisher)) }
        ensures answer { (g : Given) (E : List Entry) → C.stands_for self.old.core g E →
            result ≡ ticked_of (changes E) (tick_answer g E now
            (M.stored (mark_in self.new.publisher)).counts) }
        ensures stands { (g : Given) (E : List Entry) → C.stands_for self.old.core g E →
            C.stands_for self.new.core g (answered C.rules g E
            (ToTick now (M.stored (mark_in self.new.publisher)).counts) ∷ E) }
        ensures popped { C.popped_of self.new.core ≡ C.popped_of self.old.core }
        ensures settings { C.settings_of self.new.core ≡ C.settings_of self.old.core }
        ensures lead { lead_in self.new.publisher ≡ lead_in self.old.publisher }
    {
        let waiting = self.core.waiting();
        raise_to(&mut self.publisher, &waiting);
        let counts = self.publisher.counts();
        self.core.tick(now, &counts)
    }

    /// Takes the next row out and publishes it: its instant is stored where it is above the floor, and then its frame is appended.
    ///
    /// # Errors
    ///
    /// [`AllocError`] where `out` has no room for a frame of the most bytes, and its request for that was refused. Then nothing was taken
    /// out.
    pub fn publish<B: Buffer>(&mut self, out: &mut B) -> Result<Option<DueRow>, AllocError>
        ensures answer { (g : Given) (E : List Entry) → C.stands_for self.old.core g E →
            IfOk result (λ row. option_map row_view row ≡ pop_answer E) }
        ensures bytes { (g : Given) (E : List Entry) → C.stands_for self.old.core g E →
            OnOk result (B.content out.new ≡ B.content out.old ++
            wire_of_some g.output (pop_answer E)) }
        ensures mark { (g : Given) (E : List Entry) → C.stands_for self.old.core g E →
            OnOk result (M.stored (mark_in self.new.publisher) ≡
            reserved (lead_in self.old.publisher) (pop_answer E)
            (M.stored (mark_in self.old.publisher))) }
        ensures stands { (g : Given) (E : List Entry) → C.stands_for self.old.core g E →
            OnOk result (C.stands_for self.new.core g (answered C.rules g E ToPop ∷ E)) }
        // It is a call of the core and of the publisher, as the law of such calls has them.
        ensures call { (g : Given) (E : List Entry) → C.stands_for self.old.core g E →
            IfOk result (λ row. Makes C.rules g (publish_of (option_map row_view row))
            (record { life = E; popped = C.popped_of self.old.core; bytes = B.content out.old })
            (record {
              life = answered C.rules g E ToPop ∷
                  E;
              popped = C.popped_of self.new.core;
              bytes = B.content out.new;
            })) }
        ensures err { OnErr result ((B.content out.new ≡ B.content out.old)
            × (self.new ≡ self.old)) }
        ensures room { length (B.content out.old) + MAX_ROW_LEN ≤ B.capacity out.old → IsOk result }
        ensures refused { OnErr result (B.refused out.new MAX_ROW_LEN) }
        ensures settings { C.settings_of self.new.core ≡ C.settings_of self.old.core }
        ensures lead { lead_in self.new.publisher ≡ lead_in self.old.publisher }
    {
        out.make_room(MAX_ROW_LEN)?;
        let (output, row) = next_row(&mut self.core);
        publish_some(&mut self.publisher, &output, &row, out);
        Ok(row)
    }
}
