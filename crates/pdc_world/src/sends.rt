//! Sends.
ghost use Rattle.std.specs.Prelude.{◌≡◌, IfErr, IfOk, IsErrOf, IsTrue, List, OnErr};
ghost use Rattle.pdc_history.specs.declared.event_fault.Fault.TheVariants.{NoMemory};
ghost use Rattle.pdc_core.specs.pdc_memory.Asking.{SomeWasRefused};
ghost use Rattle.pdc_history.specs.Asked as asked;
ghost use Rattle.pdc_history.specs.World.{Happened, World};
ghost use Rattle.pdc_world.specs.Acts.{IsSend, IsWhy, Keeps, fault_of_send};
ghost use Rattle.pdc_world.specs.Ledger.{ledger_has_room, ledger_view};

use crate::ledger::Ledger;
use pdc_history::{Fault, Premise, Reply, SendFault, asked_is_event_or_fault};

/// The fault of a world that a refused send is.
fn fault_of(fault: SendFault) -> Fault
    ensures { result ≡ fault_of_send fault }
{
    match fault {
        SendFault::Foreign => Fault::PremiseBroken(Premise::Genuine),
        SendFault::OtherBody => Fault::PremiseBroken(Premise::OneBody),
        SendFault::OtherSection => Fault::PremiseBroken(Premise::OneSection),
        SendFault::NoMemory => Fault::NoMemory,
    }
}

/// A PMU sends.
pub(crate) fn send(ledger: &mut Ledger, bytes: &[u8]) -> Result<Reply, Fault>
    ensures made { (W : World) (H : List Happened) → Keeps W H (ledger_view ledger.old) →
        IfOk result (λ reply. IsSend W H bytes.now (ledger_view ledger.new) reply) }
    ensures why { (W : World) (H : List Happened) → Keeps W H (ledger_view ledger.old) →
        IfErr result (IsWhy W H (asked.Send bytes.now)) }
    ensures err { OnErr result ((ledger_view ledger.new ≡ ledger_view ledger.old)
        × (ledger_has_room ledger.new ≡ ledger_has_room ledger.old)) }
    ensures room { IsTrue (ledger_has_room ledger.old) → IsErrOf result NoMemory → ⊥ }
    ensures refused { IsErrOf result NoMemory → SomeWasRefused }
{
    asked_is_event_or_fault();
    let number = ledger.sent.len();
    match ledger.sent.send(bytes) {
        Ok(()) => Ok(Reply::Sent { number }),
        Err(fault) => Err(fault_of(fault)),
    }
}
