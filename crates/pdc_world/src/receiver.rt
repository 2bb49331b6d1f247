//! Which core an event is for.
ghost use Rattle.std.specs.Prelude.{◌≡◌};
ghost use Rattle.pdc_history.specs.Handed.{who_of};
ghost use Rattle.pdc_world.specs.Receiver.{core_in};

use pdc_history::{Event, Who};

/// The core that the event is for; that a PMU sends is for none, and told as A's.
pub(crate) fn receiver(event: &Event<'_>) -> Who
    ensures { who_of result ≡ core_in event.now }
{
    match event {
        Event::Send { .. } => Who::A,
        Event::To { who, .. } => *who,
        Event::Junk { who, .. } => *who,
        Event::Do { who, .. } => *who,
    }
}
