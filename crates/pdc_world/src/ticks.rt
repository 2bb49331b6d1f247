//! Ticks.
ghost use Rattle.std.specs.Prelude.{◌≡◌, [], ◌∷◌, ◌++◌, IfErr, IsOk, IsTrue, List, OnErr};
ghost use Rattle.pdc_core.specs.pdc_memory.Asking.{SomeWasRefused};
ghost use Rattle.pdc_life.specs.Given.{Given};
ghost use Rattle.pdc_life.specs.Life.{Entry};
ghost use Rattle.pdc_life.specs.Published.{layout_wire};
ghost use Rattle.pdc_history.specs.declared.event_fault.Fault.TheVariants.{NoMemory};
ghost use Rattle.pdc_history.specs.Handed.{who_of};
ghost use Rattle.pdc_history.specs.Asked as asked;
ghost use Rattle.pdc_history.specs.Event.{TickAt};
ghost use Rattle.pdc_station.specs.pdc_publisher.Publisher.{lead_in};
ghost use Rattle.pdc_world.specs.Acts.{IsMade, IsSomePart, IsSomeFrame};
ghost use Rattle.pdc_world.specs.Ledger.{IsReady, ledger_has_room, ledger_view};

use crate::known::frames_are_known;
use crate::ledger::Ledger;
use crate::plays::{Plays, Sits};
use pdc_core::Core;
use pdc_history::{Fault, Reply, Who};
use pdc_mark::Store;
use pdc_station::Station;

/// The layout in force is sent.
fn send_layout<C: Core>(core: &C, ledger: &mut Ledger)
    requires ready { IsReady ledger.old }
    requires frame { IsSomeFrame (C.stands_for core.now) ledger.old.sent.settings }
    ensures table { ledger.new.sent.settings ≡ ledger.old.sent.settings }
    ensures frames { (g : Given) (E : List Entry) → C.stands_for core.now g E →
        ledger.new.sent.frames ≡ ledger.old.sent.frames ++ layout_wire g E 0 ∷ [] }
    ensures published { ledger.new.published.items ≡ ledger.old.published.items }
{
    core.layout_frame(0, &mut ledger.frame).unwrap();
    ledger.send_written();
}

/// A core ticks. The layout of a tick that adopts is sent.
pub(crate) fn tick<C: Plays, S: Store>(
    station: &mut Station<C, S>,
    ledger: &mut Ledger,
    who: Who,
    now: u64,
) -> Result<Reply, Fault>
    requires some { IsSomePart (who_of who) (⟦<Station<C, S> as Sits>⟧.seat station.old)
        (ledger_view ledger.old) }
    ensures made { IsMade (who_of who) (asked.Do (who_of who) (TickAt now))
        (⟦<Station<C, S> as Sits>⟧.seat station.old)
        (⟦<Station<C, S> as Sits>⟧.seat station.new) (ledger_view ledger.old)
        (ledger_view ledger.new) result }
    ensures memory { IfErr result (λ fault. fault ≡ NoMemory) }
    ensures err { OnErr result ((station.new ≡ station.old)
        × (ledger_view ledger.new ≡ ledger_view ledger.old)
        × (ledger_has_room ledger.new ≡ ledger_has_room ledger.old)) }
    ensures room { IsTrue (ledger_has_room ledger.old) → IsOk result }
    ensures refused { OnErr result SomeWasRefused }
    ensures settings { C.settings_of station.new.core ≡ C.settings_of station.old.core }
    ensures lead { lead_in station.new.publisher ≡ lead_in station.old.publisher }
{
    frames_are_known();
    let Ok(()) = ledger.make_room() else {
        return Err(Fault::NoMemory);
    };
    let ticked = station.tick(now);
    if ticked.change.is_some() {
        send_layout(&station.core, ledger);
    }
    Ok(Reply::Ticked { who, ticked })
}
