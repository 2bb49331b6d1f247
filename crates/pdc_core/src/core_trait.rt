//! What a node and the merger are to the programs that run them.
ghost use Rattle.std.specs.Prelude.{◌≡◌, ◌≤◌, ◌<◌, ◌+◌, ◌*◌, ◌++◌, ◌∷◌, ℕ, IfSome, IsOk, List};
ghost use Rattle.std.specs.Prelude.{OnErr, OnOk, false, length, option_map, true};
ghost use Rattle.pdc_align.specs.pdc_memory.Asking.{ForSome};
ghost use Rattle.pdc_align.specs.Align.{ticked_of};
ghost use Rattle.pdc_align.specs.pdc_arrival.Counts.{after_answer, counts_after};
ghost use Rattle.pdc_align.specs.pdc_arrival.declared.counts.Counts.{Counts as CountsData};
ghost use Rattle.pdc_core.specs.Alike.{AreAlike};
ghost use Rattle.pdc_core.specs.Core.{Hears};
ghost use Rattle.pdc_core.specs.KeptArrival.{taken_view};
ghost use Rattle.pdc_core.specs.Lent.{lent_view};
ghost use Rattle.pdc_align.specs.Popped.{popped_after};
ghost use Rattle.pdc_core.specs.Step.{IsOf, Tells, answers, counted_by, is_allowed, popped_by};
ghost use Rattle.pdc_core.specs.Step.{rises_by};
ghost use Rattle.pdc_align.specs.pdc_life.Answer.{IsReadStep, ReadStep, Rules, ToArrive, ToPop};
ghost use Rattle.pdc_align.specs.pdc_life.Answer.{ToTick, answered, pop_answer, tick_answer};
ghost use Rattle.pdc_align.specs.pdc_life.Answer.{waiting_counts};
ghost use Rattle.pdc_align.specs.pdc_life.Given.{Given};
ghost use Rattle.pdc_align.specs.pdc_life.Life.{Entry, changes, popped};
ghost use Rattle.pdc_align.specs.pdc_life.Published.{layout_wire};
ghost use Rattle.pdc_align.specs.pdc_life.Row.{is_whole};
ghost use Rattle.pdc_align.specs.pdc_arrival.Views.{arrival_view};
ghost use Rattle.pdc_align.specs.pdc_row.Rising.{AreBelow};
ghost use Rattle.pdc_align.specs.pdc_row.RowView.{RowView, row_instants, row_view};
ghost use Rattle.pdc_align.specs.pdc_table.KeptRow.{popped_into};
ghost use Rattle.pdc_align.specs.pdc_frame.declared.tag_limits.TheConstants.{SECONDS};

use crate::{CoreStep, KeptArrival, LentData, Reads, Reply};
use pdc_align::{Arrival, Buffer, Counts, DueRow, HeldBox, MAX_PMUS, Outcome, Ticked};
use std::alloc::AllocError;

/// The core of a concentrator: for every life that it stands for, each call answers as the life does, and the core then stands for
/// the life with that step more. No call takes memory, but `layout_frame` where `out` has no room.
pub trait Core {
    /// How it reads what arrives.
    type Settings: Reads;

    // It has these settings,
    ghost settings_of: { Self → Self.Settings };

    // and stands for a life that begins with what is given;
    ghost stands_for: { Self → Given → List Entry → Type 0 };

    // arrivals are answered by these rules,
    ghost rules: { Rules };

    // and counted so.
    ghost counts_of: { Self → CountsData };

    // The greatest instant popped, at first the floor.
    ghost popped_of: { Self → ℕ };

    // It has so many places in each buffer that it holds.
    ghost memory: { Self → List ℕ };

    /// How it reads what arrives.
    fn settings(&self) -> &Self::Settings
        ensures { result.now ≡ settings_of self.now };

    /// Answers what arrived for a stream, and takes it where it is to be taken.
    fn arrive(&mut self, stream: usize, arrival: &Arrival<'_>) -> Outcome
        requires { Self.Settings.fits (settings_of self.old) stream (arrival_view arrival.now) ≡
            true }
        ensures answer { (g : Given) (E : List Entry) → stands_for self.old g E →
            result ≡ (rules g E stream (arrival_view arrival.now)).outcome }
        ensures stands { (g : Given) (E : List Entry) (bytes : List ℕ) →
            Self.Settings.says (settings_of self.old) stream bytes (arrival_view arrival.now) →
            stands_for self.old g E →
            stands_for self.new g (answered rules g E
            (ToArrive stream bytes (arrival_view arrival.now)) ∷ E) }
        ensures counts { counts_of self.new ≡ after_answer result (counts_of self.old) }
        ensures popped { popped_of self.new ≡ popped_of self.old }
        ensures settings { settings_of self.new ≡ settings_of self.old }
        ensures memory { memory self.new ≡ memory self.old };

    /// Answers what was kept of what arrived for a stream, as it does what arrived.
    fn arrive_kept(&mut self, stream: usize, taken: &KeptArrival) -> Outcome
        requires { Self.Settings.fits (settings_of self.old) stream (taken_view taken.now) ≡ true }
        ensures answer { (g : Given) (E : List Entry) → stands_for self.old g E →
            result ≡ (rules g E stream (taken_view taken.now)).outcome }
        ensures stands { (g : Given) (E : List Entry) (bytes : List ℕ) →
            Self.Settings.says (settings_of self.old) stream bytes (taken_view taken.now) →
            stands_for self.old g E →
            stands_for self.new g (answered rules g E
            (ToArrive stream bytes (taken_view taken.now)) ∷ E) }
        ensures counts { counts_of self.new ≡ after_answer result (counts_of self.old) }
        ensures popped { popped_of self.new ≡ popped_of self.old }
        ensures settings { settings_of self.new ≡ settings_of self.old }
        ensures memory { memory self.new ≡ memory self.old }
    {
        let arrival = taken.view();
        self.arrive(stream, &arrival)
    }

    /// Answers data that is lent, as it does what arrived.
    fn arrive_lent(&mut self, stream: usize, lent: &LentData<'_>) -> Outcome
        requires { Self.Settings.fits (settings_of self.old) stream (lent_view lent.now) ≡ true }
        ensures answer { (g : Given) (E : List Entry) → stands_for self.old g E →
            result ≡ (rules g E stream (lent_view lent.now)).outcome }
        ensures stands { (g : Given) (E : List Entry) (bytes : List ℕ) →
            Self.Settings.says (settings_of self.old) stream bytes (lent_view lent.now) →
            stands_for self.old g E →
            stands_for self.new g (answered rules g E
            (ToArrive stream bytes (lent_view lent.now)) ∷ E) }
        ensures counts { counts_of self.new ≡ after_answer result (counts_of self.old) }
        ensures popped { popped_of self.new ≡ popped_of self.old }
        ensures settings { settings_of self.new ≡ settings_of self.old }
        ensures memory { memory self.new ≡ memory self.old }
    {
        let arrival = lent.view();
        self.arrive(stream, &arrival)
    }

    /// A tick: the instant that is now, and for each column the count up to which a section may be adopted.
    fn tick(&mut self, now: u64, counts: &[u16; MAX_PMUS]) -> Ticked
        ensures answer { (g : Given) (E : List Entry) → stands_for self.old g E →
            result ≡ ticked_of (changes E) (tick_answer g E now counts.now) }
        ensures stands { (g : Given) (E : List Entry) → stands_for self.old g E →
            stands_for self.new g (answered rules g E (ToTick now counts.now) ∷ E) }
        ensures counts { counts_of self.new ≡ counts_of self.old }
        ensures popped { popped_of self.new ≡ popped_of self.old }
        ensures settings { settings_of self.new ≡ settings_of self.old }
        ensures memory { memory self.new ≡ memory self.old };

    /// The lowest row that closed and was not popped.
    fn pop_due(&mut self) -> Option<DueRow>
        ensures answer { (g : Given) (E : List Entry) → stands_for self.old g E →
            option_map row_view result ≡ pop_answer E }
        // Its instant is above the floor and above all that were popped before, and can be tagged.
        ensures next { (g : Given) (E : List Entry) → stands_for self.old g E →
            IfSome result (λ row. (g.floor < row.instant)
            × AreBelow row.instant (row_instants (popped E))
            × (row.instant < SECONDS * g.output.rate)) }
        ensures stands { (g : Given) (E : List Entry) → stands_for self.old g E →
            stands_for self.new g (answered rules g E ToPop ∷ E) }
        ensures counts { counts_of self.new ≡ counts_of self.old }
        ensures rises { IfSome result (λ row. popped_of self.old < row.instant) }
        ensures popped { popped_of self.new ≡
            popped_after (option_map row_view result) (popped_of self.old) }
        ensures settings { settings_of self.new ≡ settings_of self.old }
        ensures memory { memory self.new ≡ memory self.old };

    /// Takes the lowest row that closed and was not popped, and hands it out in place of this one, whose memory it may keep for a row that comes.
    /// Whether there was one; else the row stays.
    fn pop_into(&mut self, row: &mut HeldBox<DueRow>) -> bool
        ensures answer { (g : Given) (E : List Entry) → stands_for self.old g E →
            popped_into result row.new ≡ pop_answer E }
        ensures none { result ≡ false → row.new ≡ row.old }
        // Its instant is above the floor and above all that were popped before, and can be tagged.
        ensures next { (g : Given) (E : List Entry) → stands_for self.old g E →
            IfSome (popped_into result row.new) (λ (row : RowView). (g.floor < row.instant)
            × AreBelow row.instant (row_instants (popped E))
            × (row.instant < SECONDS * g.output.rate)) }
        ensures stands { (g : Given) (E : List Entry) → stands_for self.old g E →
            stands_for self.new g (answered rules g E ToPop ∷ E) }
        ensures counts { counts_of self.new ≡ counts_of self.old }
        ensures rises { IfSome (popped_into result row.new)
            (λ (row : RowView). popped_of self.old < row.instant) }
        ensures popped { popped_of self.new ≡
            popped_after (popped_into result row.new) (popped_of self.old) }
        ensures settings { settings_of self.new ≡ settings_of self.old }
        ensures memory { memory self.new ≡ memory self.old };

    /// The instant of the lowest row that closed and was not popped.
    fn next_due(&self) -> Option<u64>
        ensures answer { (g : Given) (E : List Entry) → stands_for self.now g E →
            result ≡ option_map (λ row. row.instant) (pop_answer E) }
        // It can be tagged.
        ensures tagged { (g : Given) (E : List Entry) → stands_for self.now g E →
            IfSome result (λ instant. instant < SECONDS * g.output.rate) };

    /// Whether the lowest open instant is whole: each stream that it waits for has come. Where none is open, none is.
    fn is_whole(&self) -> bool
        ensures { (g : Given) (E : List Entry) → stands_for self.now g E → result ≡ is_whole g E };

    /// Appends the frame of the layout in force, dated with this second.
    ///
    /// # Errors
    ///
    /// [`AllocError`] where `out` has no room and gets none.
    fn layout_frame<B: Buffer>(&self, soc: u32, out: &mut B) -> Result<(), AllocError>
        ensures ok { (g : Given) (E : List Entry) → stands_for self.now g E →
            OnOk result (B.content out.new ≡ B.content out.old ++ layout_wire g E soc) }
        ensures err { OnErr result ((B.content out.new ≡ B.content out.old)
            × (B.capacity out.new ≡ B.capacity out.old)) }
        ensures room { (g : Given) (E : List Entry) → stands_for self.now g E →
            length (B.content out.old) + length (layout_wire g E soc) ≤ B.capacity out.old →
            IsOk result }
        ensures refused { OnErr result (ForSome (B.refused out.new)) }
        ensures in_place { (g : Given) (E : List Entry) → stands_for self.now g E →
            length (B.content out.old) + length (layout_wire g E soc) ≤ B.capacity out.old →
            B.capacity out.new ≡ B.capacity out.old }
        ensures capacity { B.capacity out.old ≤ B.capacity out.new };

    /// How arrivals were answered.
    fn counts(&self) -> Counts
        ensures value { result ≡ counts_of self.now }
        ensures life { (g : Given) (E : List Entry) → stands_for self.now g E →
            result ≡ counts_after E };

    /// For each column the count that waits to be stored.
    fn waiting(&self) -> [u16; MAX_PMUS]
        ensures { (g : Given) (E : List Entry) → stands_for self.now g E →
            result ≡ waiting_counts g E };

    /// Makes this core stand for each life that the other one stands for. Both were opened alike.
    fn copy_from(&mut self, other: &Self)
        requires { ∥ AreAlike (stands_for self.old) (stands_for other.now) ∥₁ }
        ensures stands { (g : Given) (E : List Entry) → stands_for other.now g E →
            stands_for self.new g E }
        ensures counts { counts_of self.new ≡ counts_of other.now }
        ensures popped { popped_of self.new ≡ popped_of other.now }
        ensures settings { settings_of self.new ≡ settings_of other.now }
        ensures memory { memory self.new ≡ memory self.old };

    /// Makes a step: what arrived is answered, a tick ticks, or a row is taken out.
    fn apply(&mut self, step: &CoreStep) -> Reply
        requires { is_allowed (Self.Settings.fits (settings_of self.old)) step.now ≡ true }
        ensures answer { (g : Given) (E : List Entry) (read : ReadStep) → IsOf step.now read →
            stands_for self.old g E →
            Tells E (answered rules g E read) result }
        ensures kind { answers step.now result ≡ true }
        ensures stands { (g : Given) (E : List Entry) (read : ReadStep) → IsOf step.now read →
            IsReadStep (Self.Settings.says (settings_of self.old)) read →
            stands_for self.old g E → stands_for self.new g (answered rules g E read ∷ E) }
        ensures counts { counts_of self.new ≡ counted_by result (counts_of self.old) }
        ensures rises { rises_by result (popped_of self.old) ≡ true }
        ensures popped { popped_of self.new ≡ popped_by result (popped_of self.old) }
        ensures settings { settings_of self.new ≡ settings_of self.old }
        ensures memory { memory self.new ≡ memory self.old }
    {
        match step {
            CoreStep::Arrive { stream, taken } => Reply::Arrived(self.arrive_kept(*stream, taken)),
            CoreStep::Tick { now, counts } => Reply::Closed(self.tick(*now, counts)),
            CoreStep::Pop => Reply::Popped(self.pop_due()),
        }
    }

    /// Answers the bytes of a datagram that came for a stream: what they say is read, and arrives.
    fn put_datagram(&mut self, stream: usize, bytes: &[u8]) -> Outcome
        requires { stream < Self.Settings.streams (settings_of self.old) }
        ensures hears { Hears (Self.Settings.says (settings_of self.old)) rules
            (stands_for self.old) (stands_for self.new) stream bytes.now result }
        ensures counts { counts_of self.new ≡ after_answer result (counts_of self.old) }
        ensures popped { popped_of self.new ≡ popped_of self.old }
        ensures settings { settings_of self.new ≡ settings_of self.old }
        ensures memory { memory self.new ≡ memory self.old }
    {
        let arrival = self.settings().read(stream, bytes);
        self.arrive(stream, &arrival)
    }
}
