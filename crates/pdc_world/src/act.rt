//! What one core is asked.
ghost use Rattle.std.specs.Prelude.{◌≡◌, IsErrOf, OnErr};
ghost use Rattle.pdc_history.specs.declared.event_fault.Fault.TheVariants.{NoMemory};
ghost use Rattle.pdc_core.specs.pdc_memory.Asking.{SomeWasRefused};
ghost use Rattle.pdc_history.specs.Handed.{asked_of};
ghost use Rattle.pdc_station.specs.pdc_publisher.Publisher.{lead_in};
ghost use Rattle.pdc_world.specs.Acts.{IsMade, IsRefused, IsSomePart};
ghost use Rattle.pdc_world.specs.Ledger.{ledger_has_room, ledger_view};
ghost use Rattle.pdc_world.specs.Receiver.{core_in};
ghost use Rattle.pdc_world.specs.Room.{HasRoomFor};

use crate::arrivals::{bring, bring_junk};
use crate::ledger::Ledger;
use crate::plays::{Plays, Sits};
use crate::publishes::publish;
use crate::sends::send;
use crate::stops::stop;
use crate::ticks::tick;
use pdc_history::{Act, Event, Fault, Reply};
use pdc_mark::Store;
use pdc_station::Station;
use std::alloc::Global;

/// Makes what a core is asked, if it may happen.
pub(crate) fn act<C: Plays, S: Store>(
    station: &mut Station<C, S>,
    ledger: &mut Ledger,
    alloc: Global,
    event: &Event<'_>,
) -> Result<Reply, Fault>
    requires { IsSomePart (core_in event.now) (⟦<Station<C, S> as Sits>⟧.seat station.old)
        (ledger_view ledger.old) }
    ensures made { IsMade (core_in event.now) (asked_of event.now)
        (⟦<Station<C, S> as Sits>⟧.seat station.old)
        (⟦<Station<C, S> as Sits>⟧.seat station.new) (ledger_view ledger.old)
        (ledger_view ledger.new) result }
    ensures why { IsRefused (core_in event.now) (asked_of event.now)
        (⟦<Station<C, S> as Sits>⟧.seat station.old) (ledger_view ledger.old) result }
    ensures err { OnErr result ((station.new ≡ station.old)
        × (ledger_view ledger.new ≡ ledger_view ledger.old)
        × (ledger_has_room ledger.new ≡ ledger_has_room ledger.old)) }
    ensures room { HasRoomFor (ledger_has_room ledger.old) (asked_of event.now) →
        IsErrOf result NoMemory → ⊥ }
    ensures refused { IsErrOf result NoMemory → SomeWasRefused }
    ensures settings { C.settings_of station.new.core ≡ C.settings_of station.old.core }
    ensures lead { lead_in station.new.publisher ≡ lead_in station.old.publisher }
{
    match event {
        Event::Send { bytes } => send(ledger, bytes),
        Event::To { who, number } => bring(station, ledger, *who, *number),
        Event::Junk { who, bytes } => bring_junk(station, ledger, *who, bytes),
        Event::Do { who, act } => match act {
            Act::Tick { now } => tick(station, ledger, *who, *now),
            Act::Publish => publish(station, ledger, *who),
            Act::Stop(at) => stop(station, ledger, alloc, *who, *at),
        },
    }
}
