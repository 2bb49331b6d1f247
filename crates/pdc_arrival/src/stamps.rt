//! The stamps of layouts.
ghost use Rattle.std.specs.Prelude.{◌≡◌, Option, option_map};
ghost use Rattle.pdc_life.specs.Merger.{HeldLayout, is_older, layout_answer};
ghost use Rattle.pdc_arrival.specs.Views.{stamp_view};
ghost use Rattle.pdc_arrival.specs.Stamps.{stamp_answer, stamp_of};

use crate::arrival::Stamp;
use pdc_life::{Outcome, Refusal};

/// Whether the first stamp is below the second: by the start, then by the change.
fn is_older(first: Stamp, second: Stamp) -> bool
    ensures { result ≡ is_older (stamp_view first) (stamp_view second) }
{
    first.start < second.start || (first.start == second.start && first.change < second.change)
}

/// A layout is new where its stamp is above the held one of its node; at the held stamp nothing more is looked at.
pub fn layout_answer(held: Option<Stamp>, stamp: Stamp, conflicts: bool) -> Outcome
    ensures { (layout : Option HeldLayout) →
        option_map stamp_view held ≡ option_map stamp_of layout →
        result ≡ layout_answer layout (stamp_view stamp) conflicts }
{
    answer_after(held, stamp, conflicts)
}

/// The answer by the stamp that is held.
fn answer_after(held: Option<Stamp>, stamp: Stamp, conflicts: bool) -> Outcome
    ensures { result ≡ stamp_answer (option_map stamp_view held) (stamp_view stamp) conflicts }
{
    if let Some(held) = held {
        if is_older(stamp, held) {
            return Outcome::Refused(Refusal::OldStamp);
        }
        if !is_older(held, stamp) {
            return Outcome::Known;
        }
    }
    if conflicts {
        Outcome::Refused(Refusal::CountConflict)
    } else {
        Outcome::Candidate
    }
}
