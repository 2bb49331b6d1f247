//! Where the frames of a simulated PMU go.

use crate::fault::SimulationFault;
use pdc_ports::{Sink, SinkFault};
use std::alloc::Global;
use std::io;
use std::io::ErrorKind;
use std::net::{IpAddr, Net, SocketAddr, TcpListener, TcpStream, ToSocketAddrs, UdpSocket};

/// The address of the loopback.
const LOOPBACK: [u8; 4] = [127, 0, 0, 1];

/// A port of 127.0.0.1, or of another address.
#[derive(Clone, Copy, Debug)]
pub enum Target<'a> {
    /// The port with this number of 127.0.0.1.
    Port(u16),
    /// The place that this text names as `HOST:PORT`.
    At(&'a str),
}

/// The address that a place is, looked up once.
fn address_of<R: Net>(net: &R, place: &Target<'_>) -> io::Result<SocketAddr> {
    match place {
        Target::Port(port) => Ok(SocketAddr::from((IpAddr::from(LOOPBACK), *port))),
        Target::At(text) => match text.to_socket_addrs(net)?.next() {
            Some(address) => Ok(address),
            None => Err(io::Error::from(ErrorKind::NotFound)),
        },
    }
}

/// The address from which datagrams go there: any of the machine's, of the same kind.
fn any_address(to: &SocketAddr) -> IpAddr {
    if to.is_ipv4() {
        IpAddr::from([0u8; 4])
    } else {
        IpAddr::from([0u8; 16])
    }
}

/// A place, with the socket that sends to it.
#[derive(Drop)]
pub struct Outlet {
    to: SocketAddr,
    socket: UdpSocket,
}

impl Outlet {
    /// Opens a socket for the place.
    fn open<R: Net>(net: &R, place: &Target<'_>) -> io::Result<Outlet> {
        let to = address_of(net, place)?;
        let socket = UdpSocket::bind(net, (any_address(&to), 0u16))?;
        Ok(Outlet { to, socket })
    }

    /// Sends the bytes as one datagram, and answers whether they went out.
    fn send(&self, bytes: &[u8]) -> bool {
        matches!(self.socket.send_to(bytes, self.to), Ok(len) if len == bytes.len())
    }
}

/// An outlet for each place. It tells nothing of what it took.
#[derive(Drop)]
pub struct Outlets {
    outlets: Vec<Outlet>,
    failures: u64,
    /// Where the last frame that was not sent was to go.
    pub unsent: Option<SocketAddr>,
}

impl Outlets {
    /// Opens a socket for each place.
    ///
    /// # Errors
    ///
    /// The first place that cannot be opened, or want of memory.
    pub fn open<R: Net>(
        rt: &R,
        alloc: Global,
        places: &[Target<'_>],
    ) -> Result<Outlets, SimulationFault> {
        let mut outlets = Vec::new(alloc);
        for place in places {
            let number = outlets.len();
            let outlet = Outlet::open(rt, place).map_err(|error| SimulationFault::Place(
                number, error,
            ))?;
            outlets.push(outlet).map_err(|_| SimulationFault::NoMemory)?;
        }
        Ok(Outlets {
            outlets,
            failures: 0,
            unsent: None,
        })
    }
}

impl Sink for Outlets {
    ghost took = { λ _ _ _. Unit {0} };

    ghost nothing = { λ _. tt };

    ghost failures_of = { λ s. s.failures };

    /// Sends the bytes to each place, up to the first where that fails.
    fn send(&mut self, bytes: &[u8]) -> Result<(), SinkFault> {
        match self.outlets.iter().find(|outlet| !outlet.send(bytes)) {
            Some(outlet) => {
                self.unsent = Some(outlet.to);
                self.failures = self.failures.saturating_add(1);
                Err(SinkFault)
            }
            None => Ok(()),
        }
    }

    fn failures(&self) -> u64 {
        self.failures
    }
}

/// A listener at the place, whose `accept` does not wait.
pub fn open_listener<R: Net<Listener = TcpListener, Stream = TcpStream>>(
    rt: &R,
    place: &Target<'_>,
) -> io::Result<TcpListener> {
    let listener = TcpListener::bind(rt, address_of(rt, place)?)?;
    listener.set_nonblocking(true)?;
    Ok(listener)
}
