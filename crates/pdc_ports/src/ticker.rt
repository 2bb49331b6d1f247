//! When a running concentrator ticks, and who is told how it stands.
ghost use Rattle.std.specs.Prelude.{◌++◌, ◌∷◌, ℕ, IfNone, IfSome, List, []};

use pdc_arrival::{Counts, MAX_PMUS};

/// How a run stands once all rows of a tick were published.
#[derive(Clone, Copy, Debug)]
pub struct Progress {
    /// How arrivals were answered since the core was opened.
    pub counts: Counts,
    /// How many rows were published in this run so far.
    pub published: u64,
    /// The last instant that was published, or the floor that the run began with.
    pub last: u64,
}

/// What the aligner did.
#[derive(Clone, Copy, Debug)]
pub enum Did<'a> {
    /// It ticked.
    Ticked {
        /// The instant that is now.
        now: u64,
        /// For each column the count up to which a section may be adopted.
        counts: &'a [u16; MAX_PMUS],
        /// How many rows closed.
        closed: u32,
        /// The change number, where some column was adopted.
        change: Option<u32>,
        /// Whether a column was to be adopted and no change number was left.
        used_up: bool,
    },
    /// It asked for a row that is due, and there was none.
    FoundNone,
    /// It popped the row of this instant, and published this frame; or none, where it could not be published.
    Popped {
        /// The instant.
        instant: u64,
        /// The bytes of the data frame.
        frame: Option<&'a [u8]>,
    },
    /// It put the frame of the layout in force, with these bytes, after the step with this number.
    Laid(&'a [u8]),
}

/// When the aligner ticks, and who is told how the run stands. It may tell what it gave: where `gave ticker nows`, it gave exactly these
/// instants, in order. A ticker that tells nothing says that of any.
pub trait Ticker {
    ghost gave: { Self → List ℕ → Type 0 } = { λ ticker nows. Unit {0} };

    /// The instant that is now, at the next tick; none at the end.
    fn next(&mut self) -> Option<u64>
        ensures some { IfSome result (λ now. (nows : List ℕ) → gave self.old nows →
            gave self.new (nows ++ now ∷ [])) }
        ensures none { IfNone result ((nows : List ℕ) → gave self.old nows → gave self.new nows) };

    /// Takes what the aligner did, with the number of the step: how many steps the life had before it. A ticker that wants to know nothing of
    /// it passes it over.
    fn note(&mut self, _step: u64, _did: &Did<'_>)
        ensures { (nows : List ℕ) → gave self.old nows → gave self.new nows }
    {}

    /// Whether it wants to be told how the run stands, after the tick that it gave last. One that says nothing of it never does.
    fn wants_counts(&self) -> bool {
        false
    }

    /// Takes how the run stands. Whoever calls it waits for its return: no tick comes before.
    fn tell(&mut self, _told: &Progress)
        ensures { (nows : List ℕ) → gave self.old nows → gave self.new nows }
    {}
}
