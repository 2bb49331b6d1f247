//! Arrivals.
ghost use Rattle.std.specs.Prelude.{◌≡◌, IsErrOf, OnErr};
ghost use Rattle.pdc_history.specs.declared.event_fault.Fault.TheVariants.{NoMemory};
ghost use Rattle.pdc_history.specs.Handed.{who_of};
ghost use Rattle.pdc_history.specs.Asked as asked;
ghost use Rattle.pdc_station.specs.pdc_publisher.Publisher.{lead_in};
ghost use Rattle.pdc_world.specs.Acts.{IsMade, IsRefused};
ghost use Rattle.pdc_world.specs.Ledger.{ledger_view};

use crate::ledger::Ledger;
use crate::named::named;
use crate::plays::{Plays, Sits};
use pdc_history::{Fault, Premise, Reply, Who};
use pdc_mark::Store;
use pdc_station::Station;

/// A frame that was sent comes to the stream that it names; it passes by a core that has none.
pub(crate) fn bring<C: Plays, S: Store>(
    station: &mut Station<C, S>,
    ledger: &Ledger,
    who: Who,
    number: usize,
) -> Result<Reply, Fault>
    ensures made { IsMade (who_of who) (asked.To (who_of who) number)
        (⟦<Station<C, S> as Sits>⟧.seat station.old)
        (⟦<Station<C, S> as Sits>⟧.seat station.new) (ledger_view ledger.now)
        (ledger_view ledger.now) result }
    ensures why { IsRefused (who_of who) (asked.To (who_of who) number)
        (⟦<Station<C, S> as Sits>⟧.seat station.old) (ledger_view ledger.now) result }
    ensures err { OnErr result (station.new ≡ station.old) }
    ensures room { IsErrOf result NoMemory → ⊥ }
    ensures settings { C.settings_of station.new.core ≡ C.settings_of station.old.core }
    ensures lead { lead_in station.new.publisher ≡ lead_in station.old.publisher }
{
    let Some(bytes) = ledger.sent.get(number) else {
        return Err(Fault::NoSuchFrame);
    };
    let outcome = match named(&station.core, bytes) {
        Some(stream) => Some(station.put_datagram(stream, bytes)),
        None => None,
    };
    Ok(Reply::Came { who, outcome })
}

/// Bytes come to the stream that they name, else to stream 0. What names a stream was sent.
pub(crate) fn bring_junk<C: Plays, S: Store>(
    station: &mut Station<C, S>,
    ledger: &Ledger,
    who: Who,
    bytes: &[u8],
) -> Result<Reply, Fault>
    ensures made { IsMade (who_of who) (asked.Junk (who_of who) bytes.now)
        (⟦<Station<C, S> as Sits>⟧.seat station.old)
        (⟦<Station<C, S> as Sits>⟧.seat station.new) (ledger_view ledger.now)
        (ledger_view ledger.now) result }
    ensures why { IsRefused (who_of who) (asked.Junk (who_of who) bytes.now)
        (⟦<Station<C, S> as Sits>⟧.seat station.old) (ledger_view ledger.now) result }
    ensures err { OnErr result (station.new ≡ station.old) }
    ensures room { IsErrOf result NoMemory → ⊥ }
    ensures settings { C.settings_of station.new.core ≡ C.settings_of station.old.core }
    ensures lead { lead_in station.new.publisher ≡ lead_in station.old.publisher }
{
    let stream = match named(&station.core, bytes) {
        Some(stream) => {
            if !ledger.sent.has(bytes) {
                return Err(Fault::PremiseBroken(Premise::Genuine));
            }
            stream
        }
        None => 0,
    };
    let outcome = station.put_datagram(stream, bytes);
    Ok(Reply::Came {
        who,
        outcome: Some(outcome),
    })
}
