//! Words of printed lines.
ghost use Rattle.std.specs.Prelude.{◌≡◌};
ghost use Rattle.pdc_play.specs.Printed.{name_of, premise};

use pdc_history::{Premise, Who};

/// The name of a core.
pub fn name_text(who: Who) -> &'static str
    ensures { result.now ≡ name_of who }
{
    match who {
        Who::A => "A",
        Who::B => "B",
        Who::M => "M",
    }
}

/// The number of a premise.
pub fn premise_text(broken: Premise) -> &'static str
    ensures { result.now ≡ premise broken }
{
    match broken {
        Premise::OneBody => "P1",
        Premise::OneSection => "P2",
        Premise::Genuine => "P4",
        Premise::OneTable => "P5",
    }
}
