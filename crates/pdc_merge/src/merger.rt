//! The merger.
ghost use Rattle.std.specs.Prelude.{◌≡◌, ◌∷◌, ℕ, [], IfOk, List, length, true, OnErr};
ghost use Rattle.pdc_core.specs.pdc_memory.Asking.{SomeWasRefused};
ghost use Rattle.pdc_core.specs.Fits.{fits_merger};
ghost use Rattle.pdc_core.specs.KeptArrival.{taken_view};
ghost use Rattle.pdc_align.specs.Align.{given_by};
ghost use Rattle.pdc_arrival.specs.Counts.{after_answer};
ghost use Rattle.pdc_life.specs.Answer.{ToArrive, answered};
ghost use Rattle.pdc_life.specs.CoreKind.{given_of, OfMerger, Says};
ghost use Rattle.pdc_life.specs.Given.{Given};
ghost use Rattle.pdc_life.specs.Life.{Entry};
ghost use Rattle.pdc_life.specs.Merger.{merged_answer};
ghost use Rattle.pdc_merge.specs.Merger.{StandsFor};

use crate::answering;
use crate::in_force::{InForce, layouts_in_force};
use crate::layouts::HeldLayouts;
use crate::opens::copy_of_merger;
use pdc_align::{Alignment, Plan, Ticked, append_layout_frame};
use pdc_arrival::{Arrival, Counts, Reading, arrival_from_node, hear_from_node};
use pdc_core::{Core, KeptArrival, LentData};
use pdc_frame::{Buffer, FrontDifference};
use pdc_life::{MAX_PMUS, MergerSettings, Outcome, lives_are_runs, rows_have_tags};
use pdc_table::{DueRow, HeldBox, Table};
use std::alloc::{AllocError, Global};
use std::marker::Model;

/// The lanes of the merger's table: one for each node.
const LANES: usize = 2;

/// The merger over a table. Stream 0 is node A's, stream 1 is node B's.
#[derive(Drop)]
pub struct Merger<T: Table> {
    pub(crate) settings: MergerSettings,
    start: u32,
    pub(crate) alignment: Alignment<T>,
    pub(crate) layouts: HeldLayouts,
    /// Of which nodes the held layout is in force: told anew where a configuration comes or a tick adopts.
    pub(crate) in_force: InForce,
    pub(crate) counts: Counts,
    /// What the fronts of both nodes' frames differed in last.
    pub(crate) difference: FrontDifference,
}

impl<T: Table> Model for Merger<T> {
    ghost use Rattle.std.specs.Prelude.{length};
    ghost use Rattle.pdc_merge.specs.Merger.{IsWhole, MergerView};

    ghost Value = { MergerView };

    ghost view = { λ m. record {
      settings = m.settings;
      start = m.start;
      state = m.alignment.state;
      layouts = m.layouts;
      counts = m.counts;
      memory = m.alignment.memory;
      popped = m.alignment.popped;
      disagreements = m.alignment.disagreements;
    } };

    ghost invariant = { λ m. IsWhole (length m.settings.sources.items) m.alignment.state m.layouts
        m.in_force };
}

/// How the instants of the merger are aligned: each node has a stream, which brings cells for all columns.
fn plan_of(settings: &MergerSettings) -> Plan
    ensures given { (start floor : ℕ) (counts : List ℕ) (opening : ℕ) →
        given_by result settings.now.output start floor counts opening ≡
        given_of (OfMerger settings.now) start floor counts opening }
    ensures columns { result.columns ≡ length settings.now.sources.items }
    ensures lanes { result.lanes ≡ 2 }
{
    Plan {
        wait: settings.timing.wait,
        wait_kind: settings.timing.wait_kind,
        window: settings.timing.window,
        ahead: settings.timing.ahead,
        columns: settings.sources.len(),
        lanes: LANES,
    }
}

impl<T: Table> Merger<T> {
    /// A merger at the start of a life: the number of the start, the instant up to which all is published, for each column the count
    /// below which no section is held, and what counts as now until the first tick.
    ///
    /// # Errors
    ///
    /// [`AllocError`] where a request for memory was refused. No other call makes one, but for a layout for which there is no room.
    pub fn open(
        alloc: Global,
        settings: MergerSettings,
        start: u32,
        floor: u64,
        counts: &[u16; MAX_PMUS],
        now: u64,
    ) -> Result<Merger<T>, AllocError>
        ensures stands { IfOk result (λ m. StandsFor
            (given_of (OfMerger settings) start floor counts.now now) [] m) }
        ensures settings { IfOk result (λ m. m.settings ≡ settings) }
        ensures popped { IfOk result (λ m. m.popped ≡ floor) }
        ensures disagreements { IfOk result (λ m. m.disagreements ≡ 0) }
        ensures refused { OnErr result SomeWasRefused }
    {
        let alignment = Alignment::new(alloc, plan_of(&settings), start, floor, counts, now)?;
        Ok(Merger {
            settings,
            start,
            alignment,
            layouts: HeldLayouts::new(),
            in_force: InForce::none(),
            counts: Counts::new(),
            difference: FrontDifference::new(),
        })
    }

    /// Answers what was kept of an arrival. It stands apart, so that refused bytes do not pay for an [`Arrival`].
    #[inline(never)]
    fn arrive_whole(&mut self, stream: usize, taken: &KeptArrival) -> Outcome
        requires { fits_merger self.old.settings stream (taken_view taken.now) ≡ true }
        ensures answer { (g : Given) (E : List Entry) → StandsFor g E self.old →
            result ≡ (merged_answer g E stream (taken_view taken.now)).outcome }
        ensures stands { (g : Given) (E : List Entry) (bytes : List ℕ) →
            Says (OfMerger self.old.settings) stream bytes (taken_view taken.now) →
            StandsFor g E self.old →
            StandsFor g (answered merged_answer g E
            (ToArrive stream bytes (taken_view taken.now)) ∷ E) self.new }
        ensures counts { self.new.counts ≡ after_answer result self.old.counts }
        ensures popped { self.new.popped ≡ self.old.popped }
        ensures settings { self.new.settings ≡ self.old.settings }
        ensures memory { self.new.memory ≡ self.old.memory }
    {
        let arrival = taken.view();
        self.arrive(stream, &arrival)
    }

    /// How often, at a closing, both nodes had present blocks of a column that differed. Those of node A stay.
    pub fn disagree(&self) -> u64
        ensures { result ≡ self.now.disagreements }
    {
        self.alignment.disagree()
    }
}

/// A stream comes from each node, and brings cells for all columns.
impl<T: Table> Core for Merger<T> {
    type Settings = MergerSettings;

    ghost settings_of = { λ m. m.settings };

    ghost stands_for = { λ m g E. StandsFor g E m };

    ghost rules = { merged_answer };

    ghost counts_of = { λ m. m.counts };

    ghost popped_of = { λ m. m.popped };

    ghost memory = { λ m. m.memory };

    fn settings(&self) -> &MergerSettings {
        &self.settings
    }

    fn arrive(&mut self, stream: usize, arrival: &Arrival<'_>) -> Outcome {
        lives_are_runs();
        let outcome = answering::answer(
            &mut self.alignment,
            &mut self.layouts,
            self.in_force,
            stream,
            arrival,
        );
        self.in_force = layouts_in_force(&self.alignment, &self.layouts);
        self.counts.count(outcome);
        outcome
    }

    /// Refused bytes are answered as they were kept: an [`Arrival`] has room for all sections of a layout, and is made for the others.
    fn arrive_kept(&mut self, stream: usize, taken: &KeptArrival) -> Outcome {
        match taken {
            KeptArrival::BytesRefused(refusal) => self.arrive_refused(*refusal),
            _ => self.arrive_whole(stream, taken),
        }
    }

    /// Data is answered as it was read, with no [`Arrival`] between.
    fn arrive_lent(&mut self, stream: usize, lent: &LentData<'_>) -> Outcome {
        self.arrive_read(
            stream,
            lent.instant,
            lent.quality,
            lent.payload,
            &lent.claim,
        )
    }

    /// Data and refused bytes are answered as they were read: an [`Arrival`] has room for all sections of a layout, and is made for
    /// configurations alone.
    fn put_datagram(&mut self, stream: usize, bytes: &[u8]) -> Outcome {
        match hear_from_node(&self.settings, stream, bytes) {
            Reading::Data {
                instant,
                quality,
                payload,
            } => self.arrive_data(stream, instant, quality, payload, None, false),
            Reading::BytesRefused(refusal) => self.arrive_refused(refusal),
            heard => {
                let arrival = arrival_from_node(&self.settings, stream, heard);
                self.arrive(stream, &arrival)
            }
        }
    }

    /// A tick. Rows close under the layout before it, and then what is held comes into force.
    fn tick(&mut self, now: u64, counts: &[u16; MAX_PMUS]) -> Ticked {
        let ticked = self.alignment.tick(now, counts);
        if ticked.change.is_some() {
            self.in_force = layouts_in_force(&self.alignment, &self.layouts);
        }
        ticked
    }

    fn pop_due(&mut self) -> Option<DueRow> {
        rows_have_tags();
        self.alignment.pop_due()
    }

    fn pop_into(&mut self, row: &mut HeldBox<DueRow>) -> bool {
        rows_have_tags();
        self.alignment.pop_into(row)
    }

    fn next_due(&self) -> Option<u64> {
        rows_have_tags();
        self.alignment.next_due()
    }

    fn is_whole(&self) -> bool {
        self.alignment.is_whole()
    }

    /// Appends the frame of the layout in force: the merger's own section, and those in force.
    fn layout_frame<B: Buffer>(&self, soc: u32, out: &mut B) -> Result<(), AllocError> {
        append_layout_frame(
            &self.alignment,
            &self.settings.output,
            self.start,
            self.settings.sources.len(),
            soc,
            out,
        )
    }

    fn counts(&self) -> Counts {
        self.counts
    }

    fn copy_from(&mut self, other: &Merger<T>) {
        self.settings = copy_of_merger(&other.settings);
        self.start = other.start;
        self.alignment.copy_from(&other.alignment);
        self.layouts = other.layouts.copy();
        self.in_force = other.in_force;
        self.counts = other.counts;
        self.difference = other.difference;
    }

    /// For each column the count that waits to be stored: the greater of the cleared and the held one; 0 past the last.
    fn waiting(&self) -> [u16; MAX_PMUS] {
        self.alignment.waiting()
    }
}
