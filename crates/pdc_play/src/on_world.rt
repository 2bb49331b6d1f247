//! A world as what plays events.
ghost use Rattle.std.specs.Prelude.{◌≡◌};
ghost use Rattle.pdc_history.specs.pdc_memory.Asking.{SomeWasRefused};
ghost use Rattle.pdc_play.specs.Seen.{frames_seen, RefusesSeen, RepliesSeen};

use crate::player::Plays;
use pdc_history::{Event, Fault, Reply};
use pdc_mark::Store;
use pdc_world::World;
use std::marker::Model;

/// A world as what plays events.
#[derive(Drop)]
pub struct OnWorld<S: Store> {
    world: World<S>,
}

impl<S: Store> Model for OnWorld<S> {
    ghost use Rattle.pdc_world.specs.Views.{WorldView};

    ghost Value = { WorldView };

    ghost view = { λ on. on.world };
}

impl<S: Store> OnWorld<S> {
    /// This world.
    pub fn new(world: World<S>) -> OnWorld<S>
        ensures { result ≡ world }
    {
        OnWorld { world }
    }

    /// The world.
    pub(crate) fn world(&self) -> &World<S>
        ensures { result.now ≡ self.now }
    {
        &self.world
    }
}

impl<S: Store> Plays for OnWorld<S> {
    ghost replies = { RepliesSeen };

    ghost refuses = { RefusesSeen };

    ghost wants = { SomeWasRefused };

    ghost frames = { frames_seen };

    fn play_event(&mut self, event: &Event) -> Result<Reply, Fault> {
        self.world.step(event)
    }

    fn frame(&self, number: usize) -> Option<&[u8]> {
        self.world.frame(number)
    }
}
