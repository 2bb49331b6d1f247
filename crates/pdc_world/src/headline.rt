//! All of it at once.
ghost use Rattle.std.specs.Prelude.{◌≡◌, IfErr, List, OnOk, map};
ghost use Rattle.std.specs.List.{AllByRecursion};
ghost use Rattle.pdc_core.specs.pdc_memory.Asking.{SomeWasRefused};
ghost use Rattle.pdc_history.specs.declared.event_fault.Fault.TheVariants.{NoMemory};
ghost use Rattle.pdc_history.specs.Handed.{asked_of};
ghost use Rattle.pdc_world.specs.Headline.{Headline};
ghost use Rattle.pdc_world.specs.Seen.{rows_of, seen_of};
ghost use Rattle.pdc_history.specs.Lives.{IsRowAt};
ghost use Rattle.pdc_history.specs.World.{Happened, World as Fixed, published};
ghost use Rattle.pdc_world.specs.Holds.{Holds, IsCutShort, IsPlayed};

use crate::laws::{
    blocks_are_present_exactly_where_given, frames_agree, instants_rise, merged_blocks_are_genuine,
    node_blocks_are_genuine, pmus_send_one, stamps_have_one_layout,
};
use crate::world::World;
use pdc_history::{Event, WorldFault};
use pdc_mark::Store;

/// The headline holds of every world.
pub fn headline_holds<S: Store>(world: &World<S>)
    ensures { Headline (seen_of world.now) (rows_of world.now) }
{
    instants_rise(world);
    pmus_send_one(world);
    stamps_have_one_layout(world);
    node_blocks_are_genuine(world);
    merged_blocks_are_genuine(world);
    frames_agree(world);
}

/// Plays events as [`World::play`] does: the headline holds of the world that they find, and of the one that they leave, whatever is
/// answered; and in whichever history that one holds, each published row shows a block exactly where one was given in time.
///
/// # Errors
///
/// What [`World::play`] answers.
pub fn play_under_headline<S: Store>(
    world: &mut World<S>,
    events: &[Event<'_>],
) -> Result<(), WorldFault>
    ensures before { Headline (seen_of world.old) (rows_of world.old) }
    ensures after { Headline (seen_of world.new) (rows_of world.new) }
    ensures exact { (W : Fixed) (H : List Happened) → Holds W H world.new →
        AllByRecursion (IsRowAt W H) (published H) }
    ensures made { (W : Fixed) (H : List Happened) → Holds W H world.old →
        OnOk result (IsPlayed W H (map asked_of events.now) world.new) }
    ensures cut { (W : Fixed) (H : List Happened) → Holds W H world.old →
        IfErr result (λ fault. IsCutShort W H (map asked_of events.now) fault world.new) }
    ensures refused { IfErr result (λ fault. fault.fault ≡ NoMemory → SomeWasRefused) }
{
    headline_holds(world);
    let played = world.play(events);
    headline_holds(world);
    blocks_are_present_exactly_where_given(world);
    played
}
