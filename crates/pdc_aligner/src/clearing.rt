//! What comes before a tick and the tick itself: the mark is raised to the counts that wait.
ghost use Rattle.std.specs.Prelude.{◌≡◌, Err, IfOk, OnErr, OnOk};
ghost use Rattle.pdc_align.specs.Align.{ticked_of};
ghost use Rattle.pdc_aligner.specs.Keeping.{HasDeviceOf, OnlyCountsChange, counts_in};
ghost use Rattle.pdc_aligner.specs.Turns.{HasCleared, NoneFalls};
ghost use Rattle.pdc_hub.specs.Adding.{AddsTick};
ghost use Rattle.pdc_hub.specs.Pops.{HasAllTurns, PopsNothing};
ghost use Rattle.pdc_log.specs.Log.{HasLooked};

use pdc_align::Ticked;
use pdc_core::Core;
use pdc_hub::{Hub, HubFault, Naming, Pops};
use pdc_mark::{COUNTS, Mark};
use pdc_ports::Numbered;
use pdc_publisher::Publisher;
use std::sync::Wait;

/// Raises the mark to the counts that wait, where one of them is greater.
fn clear_counts<M: Mark>(
    publisher: &mut Publisher<M>,
    waiting: &[u16; COUNTS],
) -> Result<(), HubFault>
    ensures cleared { OnOk result (NoneFalls waiting.now (counts_in publisher.new)) }
    ensures none_falls { NoneFalls (counts_in publisher.old) (counts_in publisher.new) }
    ensures kept { OnlyCountsChange publisher.old publisher.new }
    ensures causes { OnErr result (result ≡ Err HubFault.Device) }
    ensures device { HasDeviceOf publisher.old publisher.new result }
{
    if publisher.raise(waiting).is_err() {
        return Err(HubFault::Device);
    }
    Ok(())
}

/// Raises the mark to the counts that wait, outside the lock, and then ticks: the hub is lent the mark, so that the counts of the tick are
/// those which the mark stores.
///
/// # Errors
///
/// `Device` where the mark's device failed. Nothing is added then.
pub fn tick_cleared<C: Core + Drop, N: Naming<C::Settings>, M: Mark, R: Wait>(
    rt: &R,
    hub: &Hub<C, N>,
    publisher: &mut Publisher<M>,
    pops: &mut Pops<N, M>,
    now: u64,
) -> Result<Numbered<Ticked>, HubFault>
    requires { HasAllTurns pops.old N.turns }
    // The tick was handed the counts that the mark stores, and its answer bears its number.
    ensures stored { IfOk result (AddsTick ticked_of C.rules N.given now
        (counts_in publisher.new) pops.old pops.new) }
    // No count that waited is above them, and none that was stored.
    ensures cleared { OnOk result (HasCleared C.rules N.given pops.old.front pops.new.front
        (counts_in publisher.new)) }
    ensures none_falls { NoneFalls (counts_in publisher.old) (counts_in publisher.new) }
    ensures kept { OnlyCountsChange publisher.old publisher.new }
    ensures same { PopsNothing pops.old pops.new }
    ensures err { OnErr result (HasLooked pops.old.front pops.new.front) }
    ensures causes { OnErr result (result ≡ Err HubFault.Device) }
    // Only a device that failed ends it so.
    ensures device { HasDeviceOf publisher.old publisher.new result }
{
    let waiting = hub.waiting(rt, pops);
    match clear_counts(publisher, &waiting) {
        Ok(()) => Ok(hub.tick(rt, pops, now, publisher.mark())),
        Err(fault) => Err(fault),
    }
}
