//! The listeners of a concentrator.
ghost use Rattle.std.specs.Prelude.{IfErr, IfOk};
ghost use Rattle.pdc_sockets.specs.Concentrator.{service_of};
ghost use Rattle.pdc_sockets.specs.Faults.{IsOfPort};
ghost use Rattle.pdc_sockets.specs.Listeners.{IsMetricsOf, ListensHere};

use crate::concentrator::Concentrator;
use crate::fault::OpenFault;
use crate::places::{loopback, unopened};
use crate::sockets::Sockets;
use pdc_settings::Network;
use std::net::{IpAddr, Net, TcpListener, TcpStream};

/// A listener at this TCP port of this address.
fn open_at<S: Sockets, R: Net<Listener = TcpListener, Stream = TcpStream>>(
    sockets: &S,
    rt: &R,
    address: IpAddr,
    port: u16,
) -> Result<TcpListener, OpenFault>
    ensures opened { IfOk result (λ listener. S.listens listener address port) }
    ensures faults { IfErr result IsOfPort }
{
    match sockets.listener(rt, address, port) {
        Ok(listener) => Ok(listener),
        Err(error) => Err(unopened(address, port, error)),
    }
}

/// The listener of the sessions. Its `accept` does not wait.
///
/// # Errors
///
/// The port cannot be opened.
pub fn open_listener<S: Sockets, R: Net<Listener = TcpListener, Stream = TcpStream>>(
    sockets: &S,
    rt: &R,
    network: &Network,
    concentrator: &Concentrator,
) -> Result<TcpListener, OpenFault>
    ensures opened { IfOk result (λ listener. S.listens listener network.now.address
        (service_of concentrator.now).session_port) }
    ensures faults { IfErr result IsOfPort }
{
    let service = concentrator.service_settings();
    open_at(sockets, rt, network.address, service.session_port)
}

/// A listener at this TCP port of the loopback.
fn open_here<S: Sockets, R: Net<Listener = TcpListener, Stream = TcpStream>>(
    sockets: &S,
    rt: &R,
    port: u16,
) -> Result<TcpListener, OpenFault>
    ensures opened { IfOk result (ListensHere S.listens port) }
    ensures faults { IfErr result IsOfPort }
{
    open_at(sockets, rt, loopback(), port)
}

/// The listener of the counters, at the loopback, where they are served. Its `accept` does not wait.
///
/// # Errors
///
/// The port cannot be opened.
pub fn open_metrics<S: Sockets, R: Net<Listener = TcpListener, Stream = TcpStream>>(
    sockets: &S,
    rt: &R,
    network: &Network,
) -> Result<Option<TcpListener>, OpenFault>
    ensures opened { IfOk result (IsMetricsOf S.listens network.now.metrics_port) }
    ensures faults { IfErr result IsOfPort }
{
    match network.metrics_port {
        Some(port) => Ok(Some(open_here(sockets, rt, port)?)),
        None => Ok(None),
    }
}
