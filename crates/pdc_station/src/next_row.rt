//! The next row of a core, with what its frame says of the core.
ghost use Rattle.std.specs.Prelude.{◌≡◌, ◌*◌, ◌<◌, ◌∷◌, IfSome, List, option_map};
ghost use Rattle.pdc_align.specs.Popped.{popped_after};
ghost use Rattle.pdc_life.specs.Answer.{ToPop, answered, pop_answer};
ghost use Rattle.pdc_life.specs.Given.{Given};
ghost use Rattle.pdc_life.specs.Life.{Entry};
ghost use Rattle.pdc_row.specs.RowView.{row_view};
ghost use Rattle.pdc_station.specs.Station.{IsOfSomeLife};
ghost use Rattle.pdc_frame.specs.declared.tag_limits.TheConstants.{MAX_RATE, SECONDS};

use pdc_core::Opens;
use pdc_row::{DueRow, Output};

/// The next row that waits, and what its frame says of the core. Its instant can be tagged.
pub(crate) fn next_row<C: Opens>(core: &mut C) -> (Output, Option<DueRow>)
    requires { IsOfSomeLife (C.stands_for core.old) }
    ensures output { (g : Given) (E : List Entry) → C.stands_for core.old g E →
        result.0 ≡ g.output }
    ensures says { result.0 ≡ C.output_of (C.settings_of core.old) }
    ensures answer { (g : Given) (E : List Entry) → C.stands_for core.old g E →
        option_map row_view result.1 ≡ pop_answer E }
    ensures tagged { IfSome result.1 (λ row. row.instant < SECONDS * result.0.rate) }
    ensures rises { IfSome result.1 (λ row. C.popped_of core.old < row.instant) }
    ensures popped { C.popped_of core.new ≡
        popped_after (option_map row_view result.1) (C.popped_of core.old) }
    ensures stands { (g : Given) (E : List Entry) → C.stands_for core.old g E →
        C.stands_for core.new g (answered C.rules g E ToPop ∷ E) }
    ensures settings { C.settings_of core.new ≡ C.settings_of core.old }
{
    let output = core.output();
    (output, core.pop_due())
}

/// The instant of the next row that waits. It can be tagged.
pub(crate) fn next_instant<C: Opens>(core: &C) -> Option<u64>
    requires { IsOfSomeLife (C.stands_for core.now) }
    ensures answer { (g : Given) (E : List Entry) → C.stands_for core.now g E →
        result ≡ option_map (λ row. row.instant) (pop_answer E) }
    ensures below { IfSome result (λ instant. instant < SECONDS * MAX_RATE) }
{
    core.next_due()
}
