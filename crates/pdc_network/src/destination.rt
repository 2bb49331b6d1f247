//! A destination of frames.
ghost use Rattle.std.specs.Prelude.{◌≡◌, ◌++◌, ◌∷◌, List, []};

use crate::send_to::SendTo;
use std::io;
use std::io::ErrorKind;
use std::net::{IpAddr, Net, SocketAddr, ToSocketAddrs, UdpSocket};

/// A destination of frames: a port of this machine, of another one, or of a group of them.
#[derive(Drop)]
pub struct Destination<S: SendTo + Drop = UdpSocket> {
    socket: S,
    to: SocketAddr,
}

/// The address from which frames go to a destination: each of the machine's, of the destination's kind.
fn any_address(to: &SocketAddr) -> IpAddr {
    if to.is_ipv4() {
        IpAddr::from([0u8; 4])
    } else {
        IpAddr::from([0u8; 16])
    }
}

impl Destination<UdpSocket> {
    /// Looks up the destination that a text `HOST:PORT` names, and opens a socket from which frames go there. A frame to a group takes
    /// at most `ttl` hops.
    ///
    /// # Errors
    ///
    /// Where the text names no destination that is known, or no socket can be opened.
    pub fn open<R: Net>(net: &R, text: &str, ttl: u8) -> io::Result<Destination<UdpSocket>> {
        let Some(to) = text.to_socket_addrs(net)?.next() else {
            return Err(io::Error::from(ErrorKind::NotFound));
        };
        let socket = UdpSocket::bind(net, (any_address(&to), 0u16))?;
        if to.ip().is_multicast() {
            socket.set_multicast_ttl_v4(u32::from(ttl))?;
        }
        Ok(Destination::new(socket, to))
    }
}

impl<S: SendTo + Drop> Destination<S> {
    ghost use Rattle.pdc_network.specs.Handed.{WasHanded};
    ghost use Rattle.pdc_network.specs.Sent.{Hand};
    ghost use Rattle.pdc_network.specs.declared.destination.Destination.{Destination};

    /// Frames go to this place by this socket.
    pub fn new(socket: S, to: SocketAddr) -> Destination<S>
        ensures { (result.socket ≡ socket) × (result.to ≡ to) }
    {
        Destination { socket, to }
    }

    /// Sends the bytes as one datagram, by one call.
    ///
    /// # Errors
    ///
    /// The number of the system's reason for which they did not go out whole, and 0 where it gave none.
    pub fn send(&mut self, bytes: &[u8]) -> Result<(), i32>
        ensures tells { (before : Destination S) (hands : List Hand) →
            WasHanded S.sent before self.old hands →
            WasHanded S.sent before self.new (hands ++
            record { frame = bytes.now; outcome = result } ∷ []) }
    {
        match self.socket.send_datagram(bytes, self.to) {
            Ok(len) if len == bytes.len() => Ok(()),
            Ok(_) => Err(0),
            Err(error) => Err(error.raw_os_error().unwrap_or(0)),
        }
    }
}
