//! Frames to a UDP port.
ghost use Rattle.std.specs.Prelude.{◌≡◌, List, ℕ};

use crate::destination::Destination;
use crate::send_to::SendTo;
use pdc_ports::{Sink, SinkFault};
use std::io;
use std::net::{IpAddr, Net, SocketAddr, UdpSocket};

/// The address of the loopback.
const LOOPBACK: [u8; 4] = [127, 0, 0, 1];

/// Sends each frame as one datagram to a UDP port, whether or not anybody listens there.
#[derive(Drop)]
pub struct UdpSink<S: SendTo + Drop = UdpSocket> {
    destination: Destination<S>,
    failures: u64,
}

impl UdpSink<UdpSocket> {
    /// Opens a socket from which frames go to the port on 127.0.0.1.
    ///
    /// # Errors
    ///
    /// Where no socket can be opened.
    pub fn open<R: Net>(net: &R, port: u16) -> io::Result<UdpSink<UdpSocket>> {
        let loopback = IpAddr::from(LOOPBACK);
        let socket = UdpSocket::bind(net, (loopback, 0u16))?;
        let to = SocketAddr::new(loopback, port);
        Ok(UdpSink::new(Destination::new(socket, to)))
    }
}

impl<S: SendTo + Drop> UdpSink<S> {
    /// Sends to this destination.
    pub fn new(destination: Destination<S>) -> UdpSink<S>
        ensures { (result.destination ≡ destination) × (result.failures ≡ 0) }
    {
        UdpSink {
            destination,
            failures: 0,
        }
    }
}

/// Each frame is handed to the socket once, for the destination, in order, and nothing else is. It took exactly those that went out whole;
/// each of its failures is one that did not.
impl<S: SendTo + Drop> Sink for UdpSink<S> {
    ghost use Rattle.pdc_network.specs.Handed.{HasTaken, took_nothing};

    ghost took = { λ before now frames. HasTaken S.sent before.destination now.destination
        before.failures now.failures frames };

    ghost nothing = { λ s. took_nothing S.sent S.sent_nothing s.destination s.failures };

    ghost failures_of = { λ s. s.failures };

    fn send(&mut self, bytes: &[u8]) -> Result<(), SinkFault> {
        match self.destination.send(bytes) {
            Ok(()) => Ok(()),
            Err(_) => {
                self.failures = self.failures.saturating_add(1);
                Err(SinkFault)
            }
        }
    }

    fn failures(&self) -> u64 {
        self.failures
    }
}
