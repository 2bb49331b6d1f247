//! The command `pmu`.

use crate::complaint::{NamedPort, complain, complain_at, complain_of, local_port, print_fault};
use crate::{DONE, FAILED};
use pdc_command_line::{PortOrHost, Simulated as Asked};
use pdc_simulation::{Simulated, SimulationFault, Target, simulate};
use std::alloc::Global;
use std::io;

/// Prints what is wrong with a place.
fn report_place(
    rt: &impl Eprint,
    kind: &str,
    place: Option<&PortOrHost<'_>>,
    error: &io::Error,
) -> io::Result<()> {
    match place {
        Some(PortOrHost::Port(port)) => { complain_at(rt, "pmu", &local_port(kind, *port), error) }
        Some(PortOrHost::At(text)) => eprintln!(rt; "pdc pmu: {kind}{text}: {error}"),
        None => complain_of(rt, "pmu", kind.trim_end(), error),
    }
}

/// Prints the fault to standard error, and on a second line the place or the reason.
fn report_simulation(
    rt: &impl Eprint,
    fault: &SimulationFault,
    asked: &Asked<'_>,
) -> io::Result<()> {
    print_fault(rt, fault)?;
    match fault {
        SimulationFault::Place(number, error) => {
            report_place(rt, "UDP ", asked.places.as_slice().get(*number), error)
        }
        SimulationFault::Listener(error) => report_place(rt, "TCP ", asked.tcp.as_ref(), error),
        SimulationFault::NotSent(Some(to)) => {
            let port = NamedPort {
                kind: "UDP ",
                at: *to,
            };
            complain_at(rt, "pmu", &port, &"a frame could not be sent")
        }
        SimulationFault::Clock(error) => complain_of(rt, "pmu", "the clock", error),
        SimulationFault::NotSent(None)
        | SimulationFault::Layout
        | SimulationFault::Pmu(_)
        | SimulationFault::NoMemory => complain(rt, "pmu", "it ended early"),
    }
}

/// A place, as the words of the command line say it.
fn place_of<'a>(asked: &PortOrHost<'a>) -> Target<'a> {
    match asked {
        PortOrHost::Port(port) => Target::Port(*port),
        PortOrHost::At(text) => Target::At(text),
    }
}

/// The places, in their order.
fn places_of<'a>(
    alloc: Global,
    asked: &[PortOrHost<'a>],
) -> Result<Vec<Target<'a>>, SimulationFault> {
    let mut places = Vec::new(alloc);
    for place in asked {
        places
            .push(place_of(place))
            .map_err(|_| SimulationFault::NoMemory)?;
    }
    Ok(places)
}

/// Simulates it.
fn run_pmu(rt: &HostRuntime, asked: &Asked<'_>) -> Result<(), SimulationFault> {
    let places = places_of(rt.alloc(), asked.places.as_slice())?;
    let simulated = Simulated {
        id: asked.id,
        rate: asked.rate,
        count: asked.count,
        places: places.as_slice(),
        tcp: asked.tcp.as_ref().map(place_of),
        config_every: asked.config_every,
        is_grid: asked.is_grid,
    };
    simulate(rt, rt.alloc(), &simulated)
}

/// Simulates a PMU, and answers the exit status.
pub fn run_pmu_command(rt: &HostRuntime, asked: &Asked<'_>) -> io::Result<u8> {
    match run_pmu(rt, asked) {
        Ok(()) => Ok(DONE),
        Err(fault) => {
            report_simulation(rt, &fault, asked)?;
            Ok(FAILED)
        }
    }
}
