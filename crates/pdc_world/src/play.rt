//! Lists of events.
ghost use Rattle.std.specs.Prelude.{◌≡◌, IfErr, List, OnOk, map};
ghost use Rattle.pdc_core.specs.pdc_memory.Asking.{SomeWasRefused};
ghost use Rattle.pdc_history.specs.declared.event_fault.Fault.TheVariants.{NoMemory};
ghost use Rattle.pdc_history.specs.Handed.{asked_of};
ghost use Rattle.pdc_history.specs.World.{Happened, World as Fixed};
ghost use Rattle.pdc_world.specs.Holds.{Holds, HoldsSome, IsCutShort, IsPlayed};

use crate::world::World;
use pdc_history::{Event, WorldFault};
use pdc_mark::Store;

impl<S: Store> World<S> {
    /// Makes events happen, one after the other, up to the first that may not.
    ///
    /// # Errors
    ///
    /// What [`World::step`] answers that one, with its number among these events, from 1. The world is as those before it left it.
    pub fn play(&mut self, events: &[Event<'_>]) -> Result<(), WorldFault>
        ensures made { (W : Fixed) (H : List Happened) → Holds W H self.old →
            OnOk result (IsPlayed W H (map asked_of events.now) self.new) }
        ensures cut { (W : Fixed) (H : List Happened) → Holds W H self.old →
            IfErr result (λ fault. IsCutShort W H (map asked_of events.now) fault self.new) }
        ensures refused { IfErr result (λ fault. fault.fault ≡ NoMemory → SomeWasRefused) }
    {
        for (index, event) in events.iter().enumerate() {
            if let Err(fault) = self.step(event) {
                return Err(WorldFault {
                    fault,
                    at: index + 1,
                });
            }
        }
        Ok(())
    }

    /// Some history is the world's: that there were none is absurd.
    pub fn holds_some_history(&self)
        ensures { HoldsSome self.now }
    {
        let _ledger = &self.ledger;
    }
}
