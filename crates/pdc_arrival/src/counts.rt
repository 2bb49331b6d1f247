//! How arrivals were answered, in numbers.
ghost use Rattle.std.specs.Prelude.{◌≡◌, ◌∷◌, ℕ, [], List, slice_index_or};
ghost use Rattle.pdc_life.specs.Arrival.{Arrival};
ghost use Rattle.pdc_life.specs.Counts.{refused_as};
ghost use Rattle.pdc_life.specs.Life.{Answer, Arrive, Entry};
ghost use Rattle.pdc_life.specs.Causes.{number_of};
ghost use Rattle.pdc_arrival.specs.Counts.{after_answer, counts_after, is_cause, next};

use pdc_life::{CAUSES, Outcome, Refusal};

/// How many arrivals were answered so since the start. A counter stays at its greatest value.
#[derive(Clone, Copy, Debug, PartialEq, Eq)]
pub struct Counts {
    /// Data that was taken.
    pub taken: u64,
    /// Configurations that were new.
    pub candidate: u64,
    /// Configurations that were held already.
    pub known: u64,
    /// All that was refused.
    pub refused: u64,
    /// What was refused by each cause: [`Counts::refused_as`].
    pub causes: [u64; CAUSES],
}

/// One more, up to the greatest value.
fn next(count: u64) -> u64
    ensures { result ≡ next count }
{
    count.saturating_add(1)
}

impl Counts {
    /// Nothing is answered yet.
    pub fn new() -> Counts
        ensures { result ≡ counts_after [] }
    {
        Counts {
            taken: 0,
            candidate: 0,
            known: 0,
            refused: 0,
            causes: [0; CAUSES],
        }
    }

    /// How many arrivals were refused by this cause.
    pub fn refused_as(&self, refusal: Refusal) -> u64
        ensures value { result ≡ slice_index_or self.now.causes (number_of refusal) 0 }
        ensures life { (E : List Entry) → self.now ≡ counts_after E →
            result ≡ refused_as (is_cause (number_of refusal)) E }
    {
        self.causes[refusal.number()]
    }

    /// Counts one answer.
    pub fn count(&mut self, outcome: Outcome)
        ensures after { self.new ≡ after_answer outcome self.old }
        // The counters of a life become those of the life with an arrival more that was answered so.
        ensures life { (E : List Entry) (s : ℕ) (bytes : List ℕ) (arrival : Arrival)
            (answer : Answer) → self.old ≡ counts_after E →
            outcome ≡ answer.outcome → self.new ≡ counts_after (Arrive s bytes arrival answer ∷ E) }
    {
        self.add(outcome);
    }

    /// Adds one answer.
    fn add(&mut self, outcome: Outcome)
        ensures { self.new ≡ after_answer outcome self.old }
    {
        match outcome {
            Outcome::Taken => self.taken = next(self.taken),
            Outcome::Candidate => self.candidate = next(self.candidate),
            Outcome::Known => self.known = next(self.known),
            Outcome::Refused(refusal) => {
                let number = refusal.number();
                self.refused = next(self.refused);
                self.causes[number] = next(self.causes[number]);
            }
        }
    }
}
