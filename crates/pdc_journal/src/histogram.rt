//! Lengths of time, counted by size.
ghost use Rattle.std.specs.Prelude.{◌≡◌, ◌+◌, ◌≤◌, length};
ghost use Rattle.pdc_journal.specs.Histogram.{counted, counter, place_in};

/// How many bounds there are.
const COUNT: usize = 10;

/// The bounds, in microseconds: from a millisecond to a second.
pub const BOUNDS: [u64; COUNT] = [
    1_000, 2_000, 5_000, 10_000, 20_000, 50_000, 100_000, 200_000, 500_000, 1_000_000,
];

/// Lengths of time by size: each place counts those that are at most its bound and above the bound before, the last place those above all
/// bounds. A counter stays at its greatest value.
#[derive(Clone, Copy, Debug)]
pub struct Histogram {
    /// How many there were, by place.
    pub counts: [u64; COUNT + 1],
    /// Their sum, in microseconds.
    pub sum: u64,
}

/// The place of a length among these bounds, which rise: so many lie below it.
fn place_of(bounds: &[u64], micros: u64) -> usize
    ensures place { result ≡ place_in bounds.now micros }
    ensures most { result ≤ length bounds.now }
{
    bounds.iter().take_while(|bound| **bound < micros).count()
}

impl Histogram {
    /// Nothing was counted yet.
    pub const fn new() -> Histogram {
        Histogram {
            counts: [0; COUNT + 1],
            sum: 0,
        }
    }

    /// Counts a length of so many microseconds.
    pub fn observe(&mut self, micros: u64)
        ensures counts { self.new.counts ≡ counted self.old.counts (place_in BOUNDS micros) }
        ensures sum { self.new.sum ≡ counter (self.old.sum + micros) }
    {
        let place = place_of(&BOUNDS, micros);
        self.counts[place] = self.counts[place].saturating_add(1);
        self.sum = self.sum.saturating_add(micros);
    }
}
