//! What a run counted, and which fault it tells of.
ghost use Rattle.std.specs.Prelude.{◌≡◌, IfErr, IfOk, IfSome, IsErrOf, Ok, OnOk, false, true};
ghost use Rattle.std.specs.Prelude.{vec_len};
ghost use Rattle.pdc_aligner.specs.Device.{IsOfAligner};
ghost use mathlib.Core.List.{IsPrefix};
ghost use Rattle.pdc_hub.specs.Counted.{AreAllParts, HasSameAmounts, HasSameParts, sum_of};
ghost use Rattle.pdc_hub.specs.Faults.{IsOfReceiver};
ghost use Rattle.pdc_hub.specs.Pops.{HasAllTurns, HasPoppedNone};
ghost use Rattle.pdc_hub.specs.Replay.{AreSaid, WasRead};
ghost use Rattle.pdc_log.specs.Log.{HasLooked, came_in};
ghost use Rattle.pdc_threads.specs.Ended.{fault_in, first_fault};
ghost use Rattle.pdc_threads.specs.Run.{AreSumsOf, IsSummed};
ghost use Rattle.pdc_threads.specs.Wanted.{LackedRoom};

use crate::receivers::{Counted, Joined};
use pdc_core::Core;
use pdc_hub::{Hub, HubFault, Naming, Pops, Shares};
use pdc_pipe::Ended;
use std::sync::Wait;

/// What a run counted.
#[derive(Debug, Drop)]
pub struct Totals {
    pub receivers: Vec<Counted>,
    pub taken: u64,
    pub refused: u64,
    /// How many rows were published and handed on.
    pub published: u64,
}

/// What all receivers counted together, where all came back; else nothing is counted. Who pops has seen all that came then.
pub fn count_all<C: Core + Drop, N: Naming<C::Settings>, M, R: Wait>(
    rt: &R,
    hub: &Hub<C, N>,
    complete: bool,
    shares: &mut Shares<N>,
    pops: &mut Pops<N, M>,
) -> Counted
    requires turns { HasAllTurns pops.old N.turns }
    requires parts { complete ≡ true → AreAllParts shares.old N.taken N.refused N.configured }
    ensures counted { complete ≡ true →
        (result.taken ≡ shares.old.taken.amount) × (result.refused ≡ shares.old.refused.amount) }
    ensures came { complete ≡ true → came_in pops.new.front ≡ sum_of shares.old }
    ensures kept { HasSameAmounts shares.old shares.new × HasSameParts shares.old shares.new }
    ensures same { HasPoppedNone pops.old pops.new }
    ensures looked { HasLooked pops.old.front pops.new.front }
    ensures later { IsPrefix shares.old.front pops.new.front }
    ensures said { ∥ AreSaid (WasRead C.Settings.says C.Settings.fits N.settings) pops.new.front ∥₁ }
{
    if !complete {
        hub.look(rt, shares, pops);
        return Counted {
            taken: 0,
            refused: 0,
        };
    }
    let counts = hub.totals(rt, shares, pops);
    Counted {
        taken: counts.taken,
        refused: counts.refused,
    }
}

/// The first fault in the order receivers, aligner, sender, or the totals.
pub fn outcome(
    joined: Joined,
    aligned: Result<u64, HubFault>,
    ended: Ended,
    counted: Counted,
) -> Result<Totals, HubFault>
    requires sums { joined.complete ≡ true →
        AreSumsOf counted.taken counted.refused joined.receivers.items }
    requires receiver { IfSome joined.fault IsOfReceiver }
    requires aligner { joined.complete ≡ true → IfErr aligned IsOfAligner }
    requires lacked { joined.complete ≡ false → LackedRoom }
    ensures lacked { IsErrOf result HubFault.NoMemory → LackedRoom }
    ensures totals { IsSummed result }
    ensures counted { IfOk result (λ totals.
        (counted.taken ≡ totals.taken) × (counted.refused ≡ totals.refused)) }
    ensures receivers { IfOk result (λ totals.
        (vec_len totals.receivers ≡ vec_len joined.receivers) × (joined.complete ≡ true)) }
    ensures ended { OnOk result (ended ≡ Ended.AtEndMark) }
    ensures published { IfOk result (λ totals. aligned ≡ Ok totals.published) }
    ensures sink { IsErrOf result HubFault.SinkFault → ended ≡ Ended.SinkFault }
    ensures mark { IsErrOf result HubFault.Device → IsErrOf aligned HubFault.Device }
    // The first fault in the order receivers, aligner, sender.
    ensures told { fault_in result ≡ first_fault joined.fault joined.complete aligned ended }
    ensures entries { IfOk result (λ totals. totals.receivers.items ≡ joined.receivers.items) }
{
    let Joined {
        receivers,
        fault,
        complete,
    } = joined;
    if let Some(cause) = fault {
        return Err(cause);
    }
    if !complete {
        return Err(HubFault::NoMemory);
    }
    let published = match aligned {
        Ok(published) => published,
        Err(cause) => return Err(cause),
    };
    match ended {
        Ended::AtEndMark => {}
        Ended::SinkFault => return Err(HubFault::SinkFault),
        Ended::AlignerGone => return Err(HubFault::Stuck),
    }
    Ok(Totals {
        receivers,
        taken: counted.taken,
        refused: counted.refused,
        published,
    })
}
