//! A node and the merger, from their files to the end of their run.
ghost use Rattle.std.specs.Prelude.{◌≡◌, IfOk, None, Some, vec_len};
ghost use Rattle.pdc_service.specs.Serving.{OpensAndRuns, StartsAndRuns, steps_behind_links};
ghost use Rattle.pdc_service.specs.Serving.{steps_behind_mark};
ghost use Rattle.pdc_service.specs.Summed.{AreSums, HaveEach};
ghost use Rattle.pdc_startup.specs.Begun.{begun_mark};
ghost use Rattle.pdc_startup.specs.pdc_sockets.Concentrator.{IsMerger, IsNode, streams_of};
ghost use Rattle.pdc_startup.specs.Steps.{steps_with};
ghost use Rattle.pdc_startup.specs.pdc_sockets.Silent.{AreSilent};

use crate::host::Host;
use crate::run_texts::{begun_text, unknown_text};
use crate::serving::{Consumers, Opened, Serving, run_serving};
use pdc_mark::Mark;
use pdc_server::Seats;
use pdc_startup::{
    Begun, Described, Files, Link, Machine, Observed, OutputsSink, RunOptions, ServiceFault,
    TcpDialer,
};
use pdc_threads::{HubFault, Source, Totals};
use pdc_ticking::TickTime;

/// A life whose mark has begun, and what is watched of it.
#[derive(Drop)]
struct Watched<'a, M: Mark + Drop> {
    mark: Begun<M>,
    observed: &'a Observed,
}

/// What a run has once a link to the sender of each stream is open: its mark, the links, in order, and how many bytes of datagrams wait at a
/// port at most, where the system tells it.
#[derive(Drop)]
struct Linked<S: Source + Drop, M: Mark + Drop> {
    mark: Begun<M>,
    sources: Vec<S>,
    buffer: Option<u32>,
}

/// Tells of the keys of the settings file that nothing reads: they are passed over, and may be slips.
fn tell_unknown<R: Host>(rt: &R, observed: &Observed, file: &str, described: &Described) {
    let alloc = rt.alloc();
    let Ok(unknown) = described.document.unknown_keys(alloc) else {
        return;
    };
    for key in &unknown {
        observed.journal.tell(rt, unknown_text(alloc, file, key));
    }
}

/// Tries the steps behind the links, in their order, and runs the concentrator that the settings describe.
fn serve_linked<M: Machine, S: Source + Send + Drop, R: Host>(
    rt: &R,
    machine: &mut M,
    files: &Files<'_>,
    options: &RunOptions<'_>,
    described: &Described,
    observed: &Observed,
    linked: Linked<S, M::Mark>,
) -> Result<Totals, ServiceFault>
    requires links { vec_len linked.sources ≡ streams_of described.now.concentrator }
    requires silent { AreSilent S.told linked.sources.items }
    ensures totals { IfOk result AreSums }
    ensures each { IfOk result (HaveEach (streams_of described.now.concentrator)) }
    ensures opened { OpensAndRuns M.tried S.told M.fresh M.Outputs.took machine.old machine.new
        described.now (Some (M.Mark.stored (begun_mark linked.mark)))
        (steps_behind_links files.now) result }
{
    let alloc = rt.alloc();
    let concentrator = &described.concentrator;
    let network = &described.network;
    let outputs = machine.open_outputs(rt, described)?;
    let listener = machine.open_listener(rt, described)?;
    let metrics = machine.open_metrics(rt, described)?;
    // A startup that fails leaves no file of a record.
    let record = machine.open_record(rt, files, described, &linked.mark)?;
    let (start, floor) = (linked.mark.start(), linked.mark.floor());
    observed.journal.note(
        rt,
        begun_text(alloc, concentrator, network, start, floor, linked.buffer),
    );
    tell_unknown(rt, observed, files.settings, described);
    let (rate, tick_ms) = (
        concentrator.output().rate,
        concentrator.service_settings().tick_ms,
    );
    let time = TickTime::new(rt, rate, tick_ms, observed.wake.as_ref());
    let opened = Opened {
        mark: linked.mark,
        sources: linked.sources,
        time,
        sink: OutputsSink::new(outputs, observed.outputs.as_slice()),
    };
    let consumers = Consumers {
        listener,
        most: network.sessions,
        seats: Seats::new(network.sessions),
        metrics,
    };
    let serving = Serving {
        concentrator,
        options,
        consumers: &consumers,
        observed,
    };
    run_serving(rt, alloc, &serving, opened, record)
}

/// Tries the steps behind the mark, in their order, and runs the concentrator that the settings describe.
fn serve_watched<'a, M: Machine, R: Host>(
    rt: &'a R,
    machine: &mut M,
    files: &Files<'_>,
    options: &RunOptions<'_>,
    described: &Described,
    watched: Watched<'_, M::Mark>,
) -> Result<Totals, ServiceFault>
    ensures totals { IfOk result AreSums }
    ensures each { IfOk result (HaveEach (streams_of described.now.concentrator)) }
    ensures opened { OpensAndRuns M.tried ⟦<Link<'a, R, M::Socket, TcpDialer<'a, R>> as Source>⟧.told
        M.fresh M.Outputs.took machine.old machine.new
        described.now (Some (M.Mark.stored (begun_mark watched.entry.mark)))
        (steps_behind_mark files.now) result }
{
    let Watched { mark, observed } = watched;
    let sources = machine.open_links(rt, described, observed)?;
    let buffer = sources.first().and_then(|source| source.buffer());
    let linked = Linked {
        mark,
        sources,
        buffer,
    };
    serve_linked(rt, machine, files, options, described, observed, linked)
}

/// Tries the steps behind the settings, in their order, and runs the concentrator that these describe. What is watched of the run is lent to
/// what follows: it has so many parts that to own it over each step's exit is dear to prove.
fn serve_described<'a, M: Machine, R: Host>(
    rt: &'a R,
    machine: &mut M,
    files: &Files<'_>,
    options: &RunOptions<'_>,
    described: &Described,
) -> Result<Totals, ServiceFault>
    ensures totals { IfOk result AreSums }
    ensures each { IfOk result (HaveEach (streams_of described.now.concentrator)) }
    ensures opened { OpensAndRuns M.tried ⟦<Link<'a, R, M::Socket, TcpDialer<'a, R>> as Source>⟧.told
        M.fresh M.Outputs.took machine.old machine.new
        described.now None (steps_with files.now) result }
{
    let (concentrator, network) = (&described.concentrator, &described.network);
    let (alloc, is_recorded) = (rt.alloc(), files.record.is_some());
    let mark = machine.begin_mark(rt, files, described)?;
    let Ok(observed) = Observed::new(alloc, concentrator, network, options.is_quiet, is_recorded)
    else {
        return Err(ServiceFault::Run(HubFault::NoMemory));
    };
    let watched = Watched {
        mark,
        observed: &observed,
    };
    serve_watched(rt, machine, files, options, described, watched)
}

/// Runs a node, and serves its consumers as long. On standard error it tells what happens to it, and counters where they are asked for; a
/// thread of its own prints them, so that nobody who does not read them holds up the run.
///
/// # Errors
///
/// The first fault: of the settings file, the mark file, the start that is stored, the ports and places of the PMUs in their order, the
/// port of the frames, the further destinations in their order, the port of the sessions, that of the counters, the first file of the record, or the run.
pub fn serve_node<'a, M: Machine, R: Host>(
    rt: &'a R,
    machine: &mut M,
    files: &Files<'_>,
    options: &RunOptions<'_>,
) -> Result<Totals, ServiceFault>
    // The totals are the sums over the receivers.
    ensures totals { IfOk result AreSums }
    // The steps that the machine tried are the first of a startup, in its order, each once and under the settings of a node that were read
    // first; the last of them failed, and it ended by that fault, or all were opened, and it ended by the run's answer. Then, whatever the
    // machine's outputs are, what they took are some of the frames of one life, in their order, which is given what these settings and the
    // mark say that was begun; instants strictly rise above the floor that it stored.
    ensures started { StartsAndRuns M.tried ⟦<Link<'a, R, M::Socket, TcpDialer<'a, R>> as Source>⟧.told
        M.fresh M.Outputs.took machine.old machine.new
        IsNode files.now result }
{
    let described = machine.read_node(rt, files)?;
    serve_described(rt, machine, files, options, &described)
}

/// Runs the merger, serves its consumers as long, and tells what [`serve_node`] does.
///
/// # Errors
///
/// The first fault: of the settings file, the mark file, the start that is stored, the ports or places of node A and node B, the
/// port of the frames, the further destinations in their order, the port of the sessions, that of the counters, the first file of the record, or the run.
pub fn serve_merger<'a, M: Machine, R: Host>(
    rt: &'a R,
    machine: &mut M,
    files: &Files<'_>,
    options: &RunOptions<'_>,
) -> Result<Totals, ServiceFault>
    ensures totals { IfOk result AreSums }
    // Node A and node B have an entry each.
    ensures each { IfOk result (HaveEach 2) }
    ensures started { StartsAndRuns M.tried ⟦<Link<'a, R, M::Socket, TcpDialer<'a, R>> as Source>⟧.told
        M.fresh M.Outputs.took machine.old machine.new
        IsMerger files.now result }
{
    let described = machine.read_merger(rt, files)?;
    serve_described(rt, machine, files, options, &described)
}
