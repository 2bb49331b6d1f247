//! Publishes.
ghost use Rattle.std.specs.Prelude.{◌≡◌, ◌≤◌, ◌<◌, ◌++◌, IfErr, IfSome, IsOk, IsTrue, OnErr};
ghost use Rattle.std.specs.Prelude.{length, option_map, vec_capacity, vec_len};
ghost use Rattle.pdc_core.specs.pdc_memory.Asking.{SomeWasRefused};
ghost use Rattle.pdc_history.specs.declared.event_fault.Fault.TheVariants.{NoMemory};
ghost use Rattle.pdc_history.specs.Handed.{who_of};
ghost use Rattle.pdc_history.specs.Asked as asked;
ghost use Rattle.pdc_history.specs.Event.{Publish};
ghost use Rattle.pdc_station.specs.pdc_publisher.Publisher.{lead_in};
ghost use Rattle.pdc_world.specs.Acts.{IsMade, IsSomePart, frames_if, listed_with};
ghost use Rattle.pdc_frame.specs.declared.limits.TheConstants.{MAX_SIZE};
ghost use Rattle.pdc_row.specs.RowView.{row_view};
ghost use Rattle.pdc_history.specs.Sent.{IsOfNone};
ghost use Rattle.pdc_world.specs.Replies.{published_as};
ghost use Rattle.pdc_world.specs.Ledger.{ledger_has_room, ledger_view};

use crate::known::frames_are_known;
use crate::ledger::Ledger;
use crate::plays::{Plays, Sits};
use pdc_history::{Fault, Published, Reply, Who};
use pdc_mark::Store;
use pdc_row::DueRow;
use pdc_station::Station;

/// The row whose frame was written joins what was sent and published, if there is one.
fn join(ledger: &mut Ledger, who: Who, row: &Option<DueRow>) -> Option<Published>
    requires room { IsTrue ledger.old.sent.has_room }
    requires place { vec_len ledger.old.published < vec_capacity ledger.old.published }
    requires most { IfSome row.now (λ _. length ledger.old.frame.items ≤ MAX_SIZE) }
    requires of_none { IfSome row.now (λ _. IsOfNone ledger.old.sent.settings
        ledger.old.frame.items) }
    ensures table { ledger.new.sent.settings ≡ ledger.old.sent.settings }
    ensures frames { ledger.new.sent.frames ≡ ledger.old.sent.frames ++
        frames_if ledger.old.frame.items (option_map row_view row.now) }
    ensures published { ledger.new.published.items
        ≡ ledger.old.published.items ++
        listed_with (who_of who) (length ledger.old.sent.frames) (option_map row_view row.now) }
    ensures result { result ≡ option_map (published_as (who_of who)
        (length ledger.old.sent.frames)) (option_map row_view row.now) }
{
    let Some(row) = row else {
        return None;
    };
    let published = Published {
        who,
        instant: row.instant,
        number: ledger.sent.len(),
    };
    ledger.send_written();
    ledger.list(published);
    Some(published)
}

/// A core publishes the next row, if one waits.
pub(crate) fn publish<C: Plays, S: Store>(
    station: &mut Station<C, S>,
    ledger: &mut Ledger,
    who: Who,
) -> Result<Reply, Fault>
    requires some { IsSomePart (who_of who) (⟦<Station<C, S> as Sits>⟧.seat station.old)
        (ledger_view ledger.old) }
    ensures made { IsMade (who_of who) (asked.Do (who_of who) Publish)
        (⟦<Station<C, S> as Sits>⟧.seat station.old)
        (⟦<Station<C, S> as Sits>⟧.seat station.new) (ledger_view ledger.old)
        (ledger_view ledger.new) result }
    ensures memory { IfErr result (λ fault. fault ≡ NoMemory) }
    ensures err { OnErr result ((station.new ≡ station.old)
        × (ledger_view ledger.new ≡ ledger_view ledger.old)
        × (ledger_has_room ledger.new ≡ ledger_has_room ledger.old)) }
    ensures room { IsTrue (ledger_has_room ledger.old) → IsOk result }
    ensures refused { OnErr result SomeWasRefused }
    ensures settings { C.settings_of station.new.core ≡ C.settings_of station.old.core }
    ensures lead { lead_in station.new.publisher ≡ lead_in station.old.publisher }
{
    frames_are_known();
    let Ok(()) = ledger.make_room() else {
        return Err(Fault::NoMemory);
    };
    let row = station.publish(&mut ledger.frame).unwrap();
    let published = join(ledger, who, &row);
    Ok(Reply::Published { who, published })
}
