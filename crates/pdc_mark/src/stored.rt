//! What a mark stores, and the order of marks.
ghost use Rattle.std.specs.Prelude.{◌≡◌, ◌+◌, ◌<◌, ◌≤◌, true};
ghost use Rattle.pdc_mark.specs.Counts.{are_below, IsRaise};

use crate::greater::{needed_floor, raised};
use crate::layout::COUNTS;

/// What a mark stores.
#[derive(Clone, Copy, Debug, PartialEq, Eq)]
pub struct Stored {
    /// The number of lives begun.
    pub start: u32,
    /// Everything that was published lies at or below this instant.
    pub floor: u64,
    /// For each PMU in the order of the settings: no count above it was adopted. Those past the last PMU are 0.
    pub counts: [u16; COUNTS],
}

impl Stored {
    ghost use Rattle.pdc_mark.specs.Stored.{first_stored, is_below, with_counts, with_floor};
    ghost use Rattle.pdc_mark.specs.Stored.{with_instant, with_next_start, with_waiting};

    /// What a mark stores before the first life: nothing but zeros.
    pub(crate) fn first() -> Stored
        ensures { result ≡ first_stored }
    {
        Stored {
            start: 0,
            floor: 0,
            counts: [0; COUNTS],
        }
    }

    /// Of the next life.
    pub(crate) fn with_next_start(self) -> Stored
        requires { self.start < u32.MAX }
        ensures value { result ≡ with_next_start self }
        ensures above { is_below self result ≡ true }
    {
        Stored {
            start: self.start + 1,
            ..self
        }
    }

    /// With a greater floor.
    pub(crate) fn with_floor(self, floor: u64) -> Stored
        requires { self.floor < floor }
        ensures value { result ≡ with_floor self floor }
        ensures above { is_below self result ≡ true }
    {
        Stored { floor, ..self }
    }

    /// With counts that were raised.
    pub(crate) fn with_counts(self, counts: [u16; COUNTS]) -> Stored
        requires { IsRaise self.counts counts }
        ensures value { result ≡ with_counts self counts }
        ensures above { is_below self result ≡ true }
    {
        counts_rise(&self.counts, &counts);
        Stored { counts, ..self }
    }

    /// With the floor that the instant needs, where it is above this one: itself and so many instants behind it.
    pub fn with_instant(self, instant: u64, lead: u16) -> Stored
        requires { instant + lead ≤ u64.MAX }
        ensures { result ≡ with_instant lead instant self }
    {
        match needed_floor(self.floor, instant, lead) {
            Some(floor) => Stored { floor, ..self },
            None => self,
        }
    }

    /// With the greater of each two counts.
    pub fn with_waiting(self, waiting: &[u16; COUNTS]) -> Stored
        ensures { result ≡ with_waiting waiting.now self }
    {
        match raised(&self.counts, waiting) {
            Some(counts) => Stored { counts, ..self },
            None => self,
        }
    }

    /// Whether this is lower: by the start, then by the floor, then by the counts, from the first on.
    pub(crate) fn is_below(&self, other: &Stored) -> bool
        ensures { result ≡ is_below self.now other.now }
    {
        if self.start != other.start {
            return self.start < other.start;
        }
        if self.floor != other.floor {
            return self.floor < other.floor;
        }
        are_counts_below(&self.counts, &other.counts)
    }
}

/// Whether these counts are lower, the first that differs deciding.
fn are_counts_below(counts: &[u16; COUNTS], others: &[u16; COUNTS]) -> bool
    ensures { result ≡ are_below counts.now others.now }
{
    counts.cmp(others).is_lt()
}

/// Counts that may be raised to others are below them.
fn counts_rise(counts: &[u16; COUNTS], others: &[u16; COUNTS])
    requires { IsRaise counts.now others.now }
    ensures { are_below counts.now others.now ≡ true }
{}
