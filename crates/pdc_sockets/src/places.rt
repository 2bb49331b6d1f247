//! The places that the settings name: addresses of this machine, and hosts.
ghost use Rattle.std.specs.Prelude.{◌≡◌, IfErr, IfOk, is_some};
ghost use Rattle.pdc_sockets.specs.Faults.{IsOfLinks, IsOfOutputs, IsOfPort};
ghost use Rattle.pdc_sockets.specs.Listeners.{IsLoopback};

use crate::fault::OpenFault;
use pdc_frame::StreamId;
use pdc_network::Addresses;
use std::io;
use std::io::ErrorKind;
use std::net::{IpAddr, Net, SocketAddr, ToSocketAddrs};

/// The octets of the loopback's address.
const LOOPBACK: [u8; 4] = [127, 0, 0, 1];

/// How many addresses of a host are looked at.
const MOST_ADDRESSES: usize = 16;

/// The address of the loopback.
pub(crate) fn loopback() -> IpAddr
    ensures { IsLoopback result }
{
    IpAddr::from(LOOPBACK)
}

/// The fault of a port that cannot be opened.
pub(crate) fn unopened(address: IpAddr, port: u16, error: io::Error) -> OpenFault
    ensures links { IsOfLinks result }
    ensures outputs { IsOfOutputs result }
    ensures port { IsOfPort result }
{
    OpenFault::Port(SocketAddr::from((address, port)), error)
}

/// The addresses that a text `HOST:PORT` names, looked up once.
fn addresses_of<R: Net>(rt: &R, text: &str) -> io::Result<Addresses> {
    let mut found = text.to_socket_addrs(rt)?;
    let Some(first) = found.next() else {
        return Err(io::Error::from(ErrorKind::NotFound));
    };
    let mut addresses = Addresses::new(first);
    for _ in 1..MOST_ADDRESSES {
        match found.next() {
            Some(address) => addresses.push(address),
            None => break,
        }
    }
    Ok(addresses)
}

/// The addresses of the host that a key of the stream's table names, where it is there.
pub(crate) fn asked_at<R: Net>(
    rt: &R,
    id: StreamId,
    text: &Option<String>,
) -> Result<Option<Addresses>, OpenFault>
    ensures there { IfOk result (λ addresses. is_some addresses ≡ is_some text.now) }
    ensures faults { IfErr result IsOfLinks }
{
    match text {
        Some(text) => match addresses_of(rt, text.as_str()) {
            Ok(addresses) => Ok(Some(addresses)),
            Err(error) => Err(OpenFault::Input(id.value, error)),
        },
        None => Ok(None),
    }
}
