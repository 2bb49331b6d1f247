//! The sockets of this machine. That each of these calls asks the system for what it is handed is trusted: what the system was asked no
//! clause sees.

use crate::sockets::Sockets;
use pdc_network::{Destination, UdpSink, UdpSource};
use std::io;
use std::net::{IpAddr, Net, TcpListener, TcpStream, UdpSocket};

/// The sockets of the machine that the program runs on. It tells of none for what it was opened.
#[derive(Drop)]
pub struct SystemSockets;

impl Sockets for SystemSockets {
    type Receiver = UdpSocket;

    type Sender = UdpSocket;

    ghost receives = { λ _ _ _ _. Unit {0} };

    ghost feeds = { λ _ _. Unit {0} };

    ghost sends = { λ _ _ _. Unit {0} };

    ghost listens = { λ _ _ _. Unit {0} };

    fn source<R: Net>(
        &self,
        net: &R,
        address: IpAddr,
        port: u16,
        buffer: u32,
    ) -> io::Result<UdpSource> {
        let source = UdpSource::open_at(net, address, port)?;
        source.ask_for_buffer(buffer);
        Ok(source)
    }

    fn sink<R: Net>(&self, net: &R, port: u16) -> io::Result<UdpSink> {
        UdpSink::open(net, port)
    }

    fn destination<R: Net>(&self, net: &R, text: &str, hops: u8) -> io::Result<Destination> {
        Destination::open(net, text, hops)
    }

    fn listener<R: Net<Listener = TcpListener, Stream = TcpStream>>(
        &self,
        net: &R,
        address: IpAddr,
        port: u16,
    ) -> io::Result<TcpListener> {
        let listener = TcpListener::bind(net, (address, port))?;
        listener.set_nonblocking(true)?;
        Ok(listener)
    }
}
