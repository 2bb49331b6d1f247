//! The outputs of a concentrator.
ghost use Rattle.std.specs.Prelude.{◌≡◌, IfErr, IfOk, length, map, string_bytes};
ghost use Rattle.pdc_sockets.specs.Concentrator.{service_of};
ghost use Rattle.pdc_sockets.specs.Faults.{IsOfOutputs};
ghost use Rattle.pdc_sockets.specs.Outputs.{AreDestinationsOf, AreOutputsOf};

use crate::concentrator::Concentrator;
use crate::fault::OpenFault;
use crate::places::{loopback, unopened};
use crate::sockets::Sockets;
use pdc_network::{Destination, UdpOutputs, UdpSink};
use pdc_settings::Network;
use std::alloc::Global;
use std::net::Net;

/// The sink to this port of the loopback.
fn open_sink<S: Sockets, R: Net>(
    sockets: &S,
    rt: &R,
    port: u16,
) -> Result<UdpSink<S::Sender>, OpenFault>
    ensures opened { IfOk result (λ sink. S.feeds sink port) }
    ensures faults { IfErr result IsOfOutputs }
{
    match sockets.sink(rt, port) {
        Ok(sink) => Ok(sink),
        Err(error) => Err(unopened(loopback(), port, error)),
    }
}

/// The further destinations, in their order.
fn open_destinations<S: Sockets, R: Net>(
    sockets: &S,
    rt: &R,
    alloc: Global,
    network: &Network,
) -> Result<Vec<Destination<S::Sender>>, OpenFault>
    ensures count { IfOk result (λ destinations. length destinations.items ≡
        length network.now.outputs.items) }
    ensures opened { IfOk result (λ destinations. AreDestinationsOf S.sends network.now.ttl
        (map string_bytes network.now.outputs.items) destinations.items) }
    ensures faults { IfErr result IsOfOutputs }
{
    let mut destinations = Vec::new(alloc);
    for output in &network.outputs {
        let number = destinations.len().saturating_add(1);
        let destination = match sockets.destination(rt, output.as_str(), network.ttl) {
            Ok(destination) => destination,
            Err(error) => return Err(OpenFault::Output(number, error)),
        };
        match destinations.push(destination) {
            Ok(()) => {}
            Err(_) => return Err(OpenFault::NoMemory),
        }
    }
    Ok(destinations)
}

/// The sockets from which frames go to the port that the settings name, and to each of the further destinations.
///
/// # Errors
///
/// A port cannot be opened, a destination is not known, or memory ran out.
pub fn open_outputs<S: Sockets, R: Net>(
    sockets: &S,
    rt: &R,
    alloc: Global,
    network: &Network,
    concentrator: &Concentrator,
) -> Result<UdpOutputs<S::Sender>, OpenFault>
    ensures opened { IfOk result (AreOutputsOf S.feeds S.sends network.now
        (service_of concentrator.now).out_port) }
    ensures faults { IfErr result IsOfOutputs }
{
    let service = concentrator.service_settings();
    let sink = open_sink(sockets, rt, service.out_port)?;
    let destinations = open_destinations(sockets, rt, alloc, network)?;
    Ok(UdpOutputs::new(sink, destinations))
}
