//! Stops.
ghost use Rattle.std.specs.Prelude.{◌≡◌, ◌^◌, ◌<◌, IsErrOf, OnErr};
ghost use Rattle.pdc_history.specs.declared.event_fault.Fault.TheVariants.{NoMemory};
ghost use Rattle.pdc_core.specs.pdc_memory.Asking.{SomeWasRefused};
ghost use Rattle.pdc_history.specs.declared.reply.Reply.TheVariants.{Stopped};
ghost use Rattle.pdc_history.specs.declared.act.Act.TheVariants.{Stop};
ghost use Rattle.pdc_history.specs.Handed.{act_of, who_of};
ghost use Rattle.pdc_history.specs.Asked as asked;
ghost use Rattle.pdc_station.specs.pdc_publisher.Publisher.{lead_in, mark_in};
ghost use Rattle.pdc_world.specs.Acts.{IsMade, IsRefused, fault_of_stop};
ghost use Rattle.pdc_world.specs.Ledger.{ledger_view};

use crate::ledger::Ledger;
use crate::plays::{Plays, Sits};
use pdc_history::{Fault, Reply, StopAt, Who, asked_is_event_or_fault};
use pdc_mark::Store;
use pdc_station::{Station, StopFault};
use std::alloc::Global;

/// The fault of a world that this stop is.
fn fault_of(fault: StopFault) -> Fault
    ensures { result ≡ fault_of_stop fault }
{
    match fault {
        StopFault::NoMemory => Fault::NoMemory,
        StopFault::StartsUsedUp => Fault::StartsUsedUp,
    }
}

/// What is told of a life that began.
fn begun<C: Plays, S: Store>(station: &Station<C, S>, who: Who) -> Reply
    ensures value { result ≡ Stopped who (S.stored (mark_in station.now.publisher)).start
        (S.stored (mark_in station.now.publisher)).floor }
    ensures fits { (S.stored (mark_in station.now.publisher)).start < 2 ^ 32 }
{
    let (start, floor) = station.publisher.mark().stored();
    Reply::Stopped { who, start, floor }
}

/// A core stops, and its next life begins.
pub(crate) fn stop<C: Plays, S: Store>(
    station: &mut Station<C, S>,
    ledger: &Ledger,
    alloc: Global,
    who: Who,
    at: StopAt,
) -> Result<Reply, Fault>
    ensures made { IsMade (who_of who) (asked.Do (who_of who) (act_of (Stop at)))
        (⟦<Station<C, S> as Sits>⟧.seat station.old)
        (⟦<Station<C, S> as Sits>⟧.seat station.new) (ledger_view ledger.now)
        (ledger_view ledger.now) result }
    ensures why { IsRefused (who_of who) (asked.Do (who_of who) (act_of (Stop at)))
        (⟦<Station<C, S> as Sits>⟧.seat station.old) (ledger_view ledger.now) result }
    ensures err { OnErr result (station.new ≡ station.old) }
    ensures refused { IsErrOf result NoMemory → SomeWasRefused }
    ensures settings { C.settings_of station.new.core ≡ C.settings_of station.old.core }
    ensures lead { lead_in station.new.publisher ≡ lead_in station.old.publisher }
{
    asked_is_event_or_fault();
    match station.stop(alloc, at) {
        Ok(()) => Ok(begun(station, who)),
        Err(fault) => Err(fault_of(fault)),
    }
}
