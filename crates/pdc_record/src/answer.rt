//! The number of an answer in an entry.

ghost use Rattle.std.specs.Prelude.{◌≡◌, ◌+◌, ◌≤◌, MatchOption};
ghost use Rattle.pdc_life.specs.declared.outcome.TheConstants.{CAUSES};
ghost use Rattle.pdc_record.specs.Answers.{answer_number};

use pdc_life::{Outcome, Refusal};

/// The number that stands for the answer.
pub(crate) fn answer_number(outcome: Outcome) -> u8
    ensures { result ≡ answer_number outcome }
{
    match outcome {
        Outcome::Taken => 0,
        Outcome::Candidate => 1,
        Outcome::Known => 2,
        Outcome::Refused(refusal) => 3 + refusal.number() as u8,
    }
}

/// The answer that the number stands for.
pub(crate) fn answer_of(number: u8) -> Option<Outcome>
    ensures { MatchOption result (3 + CAUSES ≤ number) (λ outcome. answer_number outcome ≡ number) }
{
    match number {
        0 => Some(Outcome::Taken),
        1 => Some(Outcome::Candidate),
        2 => Some(Outcome::Known),
        _ => Some(Outcome::Refused(Refusal::of_number(usize::from(number - 3))?)),
    }
}
