//! A node.
ghost use Rattle.std.specs.Prelude.{◌≡◌, ◌<◌, ◌∷◌, ℕ, [], IfOk, List, length, true, OnErr};
ghost use Rattle.pdc_core.specs.pdc_memory.Asking.{SomeWasRefused};
ghost use Rattle.pdc_align.specs.Align.{given_by};
ghost use Rattle.pdc_arrival.specs.Counts.{after_answer};
ghost use Rattle.pdc_core.specs.Fits.{fits_node};
ghost use Rattle.pdc_core.specs.KeptArrival.{taken_view};
ghost use Rattle.pdc_core.specs.Lent.{lent_view};
ghost use Rattle.pdc_life.specs.Answer.{ToArrive, answered};
ghost use Rattle.pdc_life.specs.Arrival.{BytesRefused, Data};
ghost use Rattle.pdc_life.specs.CoreKind.{given_of, OfNode, Says};
ghost use Rattle.pdc_life.specs.Given.{Given};
ghost use Rattle.pdc_life.specs.Life.{Entry};
ghost use Rattle.pdc_life.specs.Node.{node_answer};
ghost use Rattle.pdc_life.specs.Views.{arrival_view as reading_view};
ghost use Rattle.pdc_node.specs.Node.{StandsFor};

use crate::answering;
use crate::opens::copy_of;
use pdc_align::{Alignment, Plan, Ticked, append_layout_frame, others_are_left};
use pdc_arrival::{Arrival, Counts, arrival_from_pmu, hear_from_pmu};
use pdc_core::{Core, KeptArrival, LentData};
use pdc_frame::Buffer;
use pdc_life::{
    MAX_PMUS, Outcome, Reading, Refusal, SectionView, Settings, lives_are_runs, rows_have_tags,
};
use pdc_table::{DueRow, HeldBox, Table};
use std::alloc::{AllocError, Global};
use std::marker::Model;

/// A node over a table.
#[derive(Drop)]
pub struct Node<T: Table> {
    settings: Settings,
    start: u32,
    opening: [u16; MAX_PMUS],
    alignment: Alignment<T>,
    counts: Counts,
}

impl<T: Table> Model for Node<T> {
    ghost use Rattle.std.specs.Prelude.{length};
    ghost use Rattle.pdc_align.specs.Align.{HasSizes};
    ghost use Rattle.pdc_node.specs.Node.{NodeView};

    ghost Value = { NodeView };

    ghost view = { λ n. record {
      settings = n.settings;
      start = n.start;
      opening = n.opening;
      state = n.alignment.state;
      counts = n.counts;
      memory = n.alignment.memory;
      popped = n.alignment.popped;
    } };

    ghost invariant = { λ n. HasSizes (length n.settings.pmus.items) 1 n.alignment.state };
}

/// How the instants of a node are aligned: each PMU has a stream and a column of its own.
fn plan_of(settings: &Settings) -> Plan
    ensures given { (start floor : ℕ) (counts : List ℕ) (opening : ℕ) →
        given_by result settings.now.output start floor counts opening ≡
        given_of (OfNode settings.now) start floor counts opening }
    ensures columns { result.columns ≡ length settings.now.pmus.items }
    ensures lanes { result.lanes ≡ 1 }
{
    Plan {
        wait: settings.timing.wait,
        wait_kind: settings.timing.wait_kind,
        window: settings.timing.window,
        ahead: settings.timing.ahead,
        columns: settings.pmus.len(),
        lanes: 1,
    }
}

impl<T: Table> Node<T> {
    /// A node at the start of a life: the number of the start, the instant up to which all is published, for each PMU the count
    /// below which no configuration is held, and what counts as now until the first tick.
    ///
    /// # Errors
    ///
    /// [`AllocError`] where a request for memory was refused. No other call makes one, but for a layout for which there is no room.
    pub fn open(
        alloc: Global,
        settings: Settings,
        start: u32,
        floor: u64,
        counts: &[u16; MAX_PMUS],
        now: u64,
    ) -> Result<Node<T>, AllocError>
        ensures stands { IfOk result (λ n. StandsFor
            (given_of (OfNode settings) start floor counts.now now) [] n) }
        ensures settings { IfOk result (λ n. n.settings ≡ settings) }
        ensures popped { IfOk result (λ n. n.popped ≡ floor) }
        ensures refused { OnErr result SomeWasRefused }
    {
        let alignment = Alignment::new(alloc, plan_of(&settings), start, floor, counts, now)?;
        Ok(Node {
            settings,
            start,
            opening: *counts,
            alignment,
            counts: Counts::new(),
        })
    }

    /// Answers data of a PMU, and takes it where it is to be taken.
    fn arrive_data(&mut self, stream: usize, instant: u64, quality: u8, payload: &[u8]) -> Outcome
        requires { stream < length self.old.settings.pmus.items }
        ensures answer { (g : Given) (E : List Entry) → StandsFor g E self.old →
            result ≡ (node_answer g E stream (Data instant quality payload.now)).outcome }
        ensures stands { (g : Given) (E : List Entry) (bytes : List ℕ) →
            Says (OfNode self.old.settings) stream bytes (Data instant quality payload.now) →
            StandsFor g E self.old →
            StandsFor g (answered node_answer g E (ToArrive stream bytes
            (Data instant quality payload.now)) ∷ E) self.new }
        ensures counts { self.new.counts ≡ after_answer result self.old.counts }
        ensures popped { self.new.popped ≡ self.old.popped }
        ensures settings { self.new.settings ≡ self.old.settings }
        ensures memory { self.new.memory ≡ self.old.memory }
    {
        lives_are_runs();
        let outcome = answering::answer_data(
            &mut self.alignment,
            stream,
            instant,
            quality,
            payload,
        );
        self.counts.count(outcome);
        outcome
    }

    /// Answers refused bytes, of whatever stream: they are counted, and nothing else changes.
    fn arrive_refused(&mut self, refusal: Refusal) -> Outcome
        ensures answer { (g : Given) (E : List Entry) (stream : ℕ) → StandsFor g E self.old →
            result ≡ (node_answer g E stream (BytesRefused refusal)).outcome }
        ensures stands { (g : Given) (E : List Entry) (stream : ℕ) (bytes : List ℕ) →
            Says (OfNode self.old.settings) stream bytes (BytesRefused refusal) →
            StandsFor g E self.old →
            StandsFor g (answered node_answer g E (ToArrive stream bytes (BytesRefused refusal)) ∷
            E) self.new }
        ensures counts { self.new.counts ≡ after_answer result self.old.counts }
        ensures popped { self.new.popped ≡ self.old.popped }
        ensures settings { self.new.settings ≡ self.old.settings }
        ensures memory { self.new.memory ≡ self.old.memory }
    {
        lives_are_runs();
        others_are_left();
        let outcome = Outcome::Refused(refusal);
        self.counts.count(outcome);
        outcome
    }

    /// Answers what was kept of an arrival. It stands apart, so that refused bytes do not pay for an [`Arrival`].
    #[inline(never)]
    fn arrive_whole(&mut self, stream: usize, taken: &KeptArrival) -> Outcome
        requires { fits_node self.old.settings stream (taken_view taken.now) ≡ true }
        ensures answer { (g : Given) (E : List Entry) → StandsFor g E self.old →
            result ≡ (node_answer g E stream (taken_view taken.now)).outcome }
        ensures stands { (g : Given) (E : List Entry) (bytes : List ℕ) →
            Says (OfNode self.old.settings) stream bytes (taken_view taken.now) →
            StandsFor g E self.old →
            StandsFor g (answered node_answer g E (ToArrive stream bytes (taken_view taken.now)) ∷
            E) self.new }
        ensures counts { self.new.counts ≡ after_answer result self.old.counts }
        ensures popped { self.new.popped ≡ self.old.popped }
        ensures settings { self.new.settings ≡ self.old.settings }
        ensures memory { self.new.memory ≡ self.old.memory }
    {
        let arrival = taken.view();
        self.arrive(stream, &arrival)
    }

    /// Answers data that is lent, whether its check word is computed or not. It stands apart for the same reason.
    #[inline(never)]
    fn arrive_claimed(&mut self, stream: usize, lent: &LentData<'_>) -> Outcome
        requires { fits_node self.old.settings stream (lent_view lent.now) ≡ true }
        ensures answer { (g : Given) (E : List Entry) → StandsFor g E self.old →
            result ≡ (node_answer g E stream (lent_view lent.now)).outcome }
        ensures stands { (g : Given) (E : List Entry) (bytes : List ℕ) →
            Says (OfNode self.old.settings) stream bytes (lent_view lent.now) →
            StandsFor g E self.old →
            StandsFor g (answered node_answer g E (ToArrive stream bytes (lent_view lent.now)) ∷
            E) self.new }
        ensures counts { self.new.counts ≡ after_answer result self.old.counts }
        ensures popped { self.new.popped ≡ self.old.popped }
        ensures settings { self.new.settings ≡ self.old.settings }
        ensures memory { self.new.memory ≡ self.old.memory }
    {
        let arrival = lent.view();
        self.arrive(stream, &arrival)
    }

    /// Answers what was read of a datagram, whatever it is. It stands apart for the same reason.
    #[inline(never)]
    fn arrive_read(&mut self, stream: usize, reading: Reading<'_, SectionView<'_>>) -> Outcome
        requires { fits_node self.old.settings stream (reading_view stream reading) ≡ true }
        ensures answer { (g : Given) (E : List Entry) → StandsFor g E self.old →
            result ≡ (node_answer g E stream (reading_view stream reading.entry)).outcome }
        ensures stands { (g : Given) (E : List Entry) (bytes : List ℕ) →
            Says (OfNode self.old.settings) stream bytes (reading_view stream reading.entry) →
            StandsFor g E self.old →
            StandsFor g (answered node_answer g E (ToArrive stream bytes
            (reading_view stream reading.entry)) ∷ E) self.new }
        ensures counts { self.new.counts ≡ after_answer result self.old.counts }
        ensures popped { self.new.popped ≡ self.old.popped }
        ensures settings { self.new.settings ≡ self.old.settings }
        ensures memory { self.new.memory ≡ self.old.memory }
    {
        let arrival = arrival_from_pmu(stream, reading);
        self.arrive(stream, &arrival)
    }
}

/// A stream comes from each PMU, and has the column of its number.
impl<T: Table> Core for Node<T> {
    type Settings = Settings;

    ghost settings_of = { λ n. n.settings };

    ghost stands_for = { λ n g E. StandsFor g E n };

    ghost rules = { node_answer };

    ghost counts_of = { λ n. n.counts };

    ghost popped_of = { λ n. n.popped };

    ghost memory = { λ n. n.memory };

    fn settings(&self) -> &Settings {
        &self.settings
    }

    fn arrive(&mut self, stream: usize, arrival: &Arrival<'_>) -> Outcome {
        lives_are_runs();
        let outcome = answering::answer(&mut self.alignment, &self.opening, stream, arrival);
        self.counts.count(outcome);
        outcome
    }

    /// Refused bytes are answered as they were kept: an [`Arrival`] has room for all sections of a layout, and is made for the others.
    fn arrive_kept(&mut self, stream: usize, taken: &KeptArrival) -> Outcome {
        match taken {
            KeptArrival::BytesRefused(refusal) => self.arrive_refused(*refusal),
            _ => self.arrive_whole(stream, taken),
        }
    }

    /// Data is answered as it was read, with no [`Arrival`] between. A PMU's has its check word computed.
    fn arrive_lent(&mut self, stream: usize, lent: &LentData<'_>) -> Outcome {
        match lent.claim {
            None => self.arrive_data(stream, lent.instant, lent.quality, lent.payload),
            Some(_) => {
                let data = *lent;
                self.arrive_claimed(stream, &data)
            }
        }
    }

    /// Data and refused bytes are answered as they were read: an [`Arrival`] has room for all sections of a layout, and is made for
    /// configurations alone.
    fn put_datagram(&mut self, stream: usize, bytes: &[u8]) -> Outcome {
        match hear_from_pmu(&self.settings, stream, bytes) {
            Reading::Data {
                instant,
                quality,
                payload,
            } => self.arrive_data(stream, instant, quality, payload),
            Reading::BytesRefused(refusal) => self.arrive_refused(refusal),
            reading => self.arrive_read(stream, reading),
        }
    }

    /// A tick. Rows close under the layout before it, and then what is held comes into force.
    fn tick(&mut self, now: u64, counts: &[u16; MAX_PMUS]) -> Ticked {
        self.alignment.tick(now, counts)
    }

    fn pop_due(&mut self) -> Option<DueRow> {
        rows_have_tags();
        self.alignment.pop_due()
    }

    fn pop_into(&mut self, row: &mut HeldBox<DueRow>) -> bool {
        rows_have_tags();
        self.alignment.pop_into(row)
    }

    fn next_due(&self) -> Option<u64> {
        rows_have_tags();
        self.alignment.next_due()
    }

    fn is_whole(&self) -> bool {
        self.alignment.is_whole()
    }

    /// Appends the frame of the layout in force: the node's own section, and those in force.
    fn layout_frame<B: Buffer>(&self, soc: u32, out: &mut B) -> Result<(), AllocError> {
        append_layout_frame(
            &self.alignment,
            &self.settings.output,
            self.start,
            self.settings.pmus.len(),
            soc,
            out,
        )
    }

    fn counts(&self) -> Counts {
        self.counts
    }

    fn copy_from(&mut self, other: &Node<T>) {
        self.settings = copy_of(&other.settings);
        self.start = other.start;
        self.opening = other.opening;
        self.alignment.copy_from(&other.alignment);
        self.counts = other.counts;
    }

    /// For each PMU the count that waits to be stored: the greater of the cleared and the held one; 0 past the last.
    fn waiting(&self) -> [u16; MAX_PMUS] {
        self.alignment.waiting()
    }
}
