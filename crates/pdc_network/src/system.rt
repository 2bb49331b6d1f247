//! The system's own sockets and connections. That these calls do what the traits say of them is trusted: their lists are the system's,
//! which no clause sees.
ghost use Rattle.std.specs.Prelude.{List, ℕ};

use crate::dial::Dial;
use crate::receive::Receive;
use crate::receive_buffer::receive_buffer;
use crate::send_to::SendTo;
use pdc_session::end_if_gone;
use std::io;
use std::net::{Net, SocketAddr, TcpListener, TcpStream, UdpSocket};
use std::time::Duration;

/// How long a read waits, in milliseconds.
const READ_LIMIT: u64 = 20;

/// How long a command may take to be written, in milliseconds.
const WRITE_LIMIT: u64 = 500;

/// How long a connection may take to be made, in milliseconds.
const CONNECT_LIMIT: u64 = 3000;

impl SendTo for UdpSocket {
    ghost sent = { λ _ _ _. Unit {0} };

    ghost sent_nothing = { λ _. tt };

    fn send_datagram(&mut self, bytes: &[u8], to: SocketAddr) -> io::Result<usize> {
        self.send_to(bytes, to)
    }
}

impl Receive for UdpSocket {
    ghost received = { λ _ _. Unit {0} };

    fn receive_datagram(&mut self, buffer: &mut [u8]) -> io::Result<(usize, SocketAddr)> {
        self.recv_from(buffer)
    }

    fn reply(&self, bytes: &[u8], to: SocketAddr) -> bool {
        matches!(self.send_to(bytes, to), Ok(len) if len == bytes.len())
    }

    fn buffer(&self) -> Option<u32> {
        receive_buffer(self)
    }
}

/// Connects by TCP.
#[derive(Drop)]
pub struct TcpDialer<'a, R: Net<Listener = TcpListener, Stream = TcpStream>> {
    net: &'a R,
}

impl<'a, R: Net<Listener = TcpListener, Stream = TcpStream>> TcpDialer<'a, R> {
    /// Connects over this network.
    pub fn new(net: &'a R) -> TcpDialer<'a, R> {
        TcpDialer { net }
    }
}

/// Sets the limits of a connection; what is written to it goes out at once.
fn set_up(stream: &TcpStream) -> io::Result<()> {
    end_if_gone(stream);
    stream.set_read_timeout(Some(Duration::from_millis(READ_LIMIT)))?;
    stream.set_write_timeout(Some(Duration::from_millis(WRITE_LIMIT)))?;
    stream.set_nodelay(true)
}

impl<'a, R: Net<Listener = TcpListener, Stream = TcpStream>> Dial for TcpDialer<'a, R> {
    type Stream = TcpStream;

    ghost dialed = { λ _ _. Unit {0} };

    fn dial(&mut self, to: &SocketAddr) -> io::Result<TcpStream> {
        let stream = TcpStream::connect_timeout(
            self.net,
            to,
            Duration::from_millis(CONNECT_LIMIT),
        )?;
        set_up(&stream)?;
        Ok(stream)
    }
}
