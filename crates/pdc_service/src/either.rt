//! Runs of a node or the merger, whichever its settings describe.
ghost use Rattle.std.specs.Prelude.{◌≡◌, IfOk, vec_len};
ghost use Rattle.pdc_service.specs.Ended.{IsOver};
ghost use Rattle.pdc_service.specs.Running.{found_begun};
ghost use Rattle.pdc_service.specs.Summed.{AreSums, HaveEach};
ghost use Rattle.pdc_startup.specs.pdc_sockets.Concentrator.{streams_of};
ghost use Rattle.pdc_threads.specs.Run.{GivesFrom};

use crate::handed::Handed;
use crate::running_concentrator::{run_merger, run_node};
use pdc_mark::Mark;
use pdc_startup::{Begun, Concentrator, Plan};
use pdc_threads::{Beside, HubFault, Outlet, Source, Ticker, Totals};
use std::alloc::Global;
use std::sync::Wait;
use std::thread::Threads;

/// Runs it, with a mark that has begun, over a source for each of its streams. The sink and the mark are not handed back.
pub fn run_concentrator<
    S: Source + Send + Drop,
    M: Mark + Drop,
    I: Ticker + Drop,
    K: Outlet + Send + Drop,
    R: Threads + Wait + Sync,
>(
    rt: &R,
    alloc: Global,
    concentrator: &Concentrator,
    plan: &Plan,
    mark: Begun<M>,
    sources: Vec<S>,
    ticker: I,
    sink: K,
) -> Result<Totals, HubFault>
    requires { vec_len sources ≡ streams_of concentrator.now }
    ensures totals { IfOk result AreSums }
    ensures each { IfOk result (HaveEach (streams_of concentrator.now)) }
    // It is over as `run_node` and `run_merger` say, with what became of the sink and the mark.
    ensures over { IsOver concentrator.now plan.now.layout_every
        S.told (GivesFrom I.gave ticker) (K.took sink) K.failures_of
        (found_begun M.stored M.is_broken M.failures mark (K.failures_of sink)) sources.items
        result }
{
    let handed = Handed::<Beside<S, M, I, K>> {
        mark,
        sources,
        ticker,
        sink,
    };
    match concentrator {
        Concentrator::Node(settings) => {
            run_node(rt, alloc, &settings.life, plan, handed).outcome
        }
        Concentrator::Merger(settings) => {
            run_merger(rt, alloc, &settings.life, plan, handed).outcome
        }
    }
}
