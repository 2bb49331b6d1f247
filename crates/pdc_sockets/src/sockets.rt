//! The calls by which sockets are opened.
ghost use Rattle.std.specs.Prelude.{◌≡◌, IfOk, List, [], ℕ};
ghost use Rattle.std.specs.declared.net.ip_addr.IpAddr.{IpAddr};
ghost use Rattle.std.specs.declared.net.tcp.TcpListener.{TcpListener};
ghost use Rattle.pdc_network.specs.Linked.{socket_of};
ghost use Rattle.pdc_network.specs.declared.destination.Destination.{Destination};
ghost use Rattle.pdc_network.specs.declared.udp_sink.UdpSink.{UdpSink};

use pdc_network::{Destination, Receive, SendTo, UdpSink, UdpSource};
use std::io;
use std::net::{IpAddr, Net, TcpListener, TcpStream};

/// From where sockets are had. It may tell of each for what it was opened: an address, a port, how many bytes of a buffer were asked for, a
/// destination, how many hops. One that tells nothing, as the system's, says of a socket that it was opened for any.
pub trait Sockets {
    /// What datagrams come to.
    type Receiver: Receive + Send + Drop;

    /// From where frames go.
    type Sender: SendTo + Send + Drop;

    // It was opened at this port of this address, and for a buffer of so many bytes.
    ghost receives: { Self.Receiver → IpAddr → ℕ → ℕ → Type 0 };

    // Its frames go to this port of the loopback.
    ghost feeds: { UdpSink Self.Sender → ℕ → Type 0 };

    // Its frames go to the place that this text names, over at most so many hops where that is a group.
    ghost sends: { Destination Self.Sender → List ℕ → ℕ → Type 0 };

    // It was opened at this port of this address.
    ghost listens: { TcpListener → IpAddr → ℕ → Type 0 };

    /// Opens a UDP port at this address of the machine, and asks for a buffer of so many bytes.
    ///
    /// # Errors
    ///
    /// Where the port cannot be opened, as one that is taken, or where the machine has no such address.
    fn source<R: Net>(
        &self,
        net: &R,
        address: IpAddr,
        port: u16,
        buffer: u32,
    ) -> io::Result<UdpSource<Self::Receiver>>
        ensures opened { IfOk result (λ source. receives (socket_of source) address port buffer) }
        // Nothing was asked of its socket yet.
        ensures fresh { IfOk result (λ source. Self.Receiver.received (socket_of source) []) };

    /// Opens a socket from which frames go to this port of the loopback.
    ///
    /// # Errors
    ///
    /// Where no socket can be opened.
    fn sink<R: Net>(&self, net: &R, port: u16) -> io::Result<UdpSink<Self::Sender>>
        ensures opened { IfOk result (λ sink. feeds sink port) };

    /// Looks up the destination that a text `HOST:PORT` names, and opens a socket from which frames go there. A frame to a group takes at most
    /// so many hops.
    ///
    /// # Errors
    ///
    /// Where the text names no destination that is known, or no socket can be opened.
    fn destination<R: Net>(
        &self,
        net: &R,
        text: &str,
        hops: u8,
    ) -> io::Result<Destination<Self::Sender>>
        ensures opened { IfOk result (λ destination. sends destination text.now hops) };

    /// Opens a TCP port at this address of the machine. Its `accept` does not wait.
    ///
    /// # Errors
    ///
    /// Where the port cannot be opened.
    fn listener<R: Net<Listener = TcpListener, Stream = TcpStream>>(
        &self,
        net: &R,
        address: IpAddr,
        port: u16,
    ) -> io::Result<TcpListener>
        ensures opened { IfOk result (λ listener. listens listener address port) };
}
