//! What was counted, as numbers.
ghost use Rattle.std.specs.Prelude.{◌≡◌, ◌+◌, ◌<◌, ◌^◌, false};
ghost use Rattle.pdc_hub.specs.Counted.{configured_by, is_used_up, refused_by, taken_by};

use pdc_life::Outcome;

/// The totals of three books, as numbers: by them a delivery knows whether there is room in the books, and copies none of the core's
/// counters.
#[derive(Drop)]
pub struct Totals {
    pub taken: u64,
    pub refused: u64,
    pub configured: u64,
}

impl Totals {
    /// Nothing is counted.
    pub fn new() -> Totals
        ensures { (result.taken ≡ 0) × (result.refused ≡ 0) × (result.configured ≡ 0) }
    {
        Totals {
            taken: 0,
            refused: 0,
            configured: 0,
        }
    }

    /// Data that was taken, and what was refused, are counted in 64 bits.
    pub fn fit(&self)
        ensures { (self.now.taken < 2 ^ 64) × (self.now.refused < 2 ^ 64) }
    {
        let _taken = self.taken;
        let _refused = self.refused;
    }

    /// One of the three is at its greatest value.
    pub fn are_used_up(&self) -> bool
        ensures { result ≡ is_used_up self.now.taken self.now.refused self.now.configured }
    {
        self.taken == u64::MAX || self.refused == u64::MAX || self.configured == u64::MAX
    }

    /// Counts an answer.
    pub fn count(&mut self, outcome: Outcome)
        requires { is_used_up self.old.taken self.old.refused self.old.configured ≡ false }
        ensures { (self.new.taken ≡ self.old.taken + taken_by outcome)
            × (self.new.refused ≡ self.old.refused + refused_by outcome)
            × (self.new.configured ≡ self.old.configured + configured_by outcome) }
    {
        match outcome {
            Outcome::Taken => self.taken += 1,
            Outcome::Refused(_) => self.refused += 1,
            Outcome::Candidate | Outcome::Known => self.configured += 1,
        }
    }
}
