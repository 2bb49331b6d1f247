//! Datagrams and connections on the loopback.

use std::alloc::Global;
use std::io;
use std::io::Read;
use std::net::{Net, TcpStream, UdpSocket};
use std::time::Duration;

/// How long a trial waits for what it reads, in milliseconds.
const PATIENCE: u64 = 10_000;

/// The most bytes of a datagram.
const MOST: usize = 65_535;

/// A socket at this port of the loopback, that waits for as long as a trial does.
pub fn listen<R: Net>(rt: &R, port: u16) -> io::Result<UdpSocket> {
    let socket = UdpSocket::bind(rt, ("127.0.0.1", port))?;
    socket.set_read_timeout(Some(Duration::from_millis(PATIENCE)))?;
    Ok(socket)
}

/// The next datagram.
pub fn next_datagram(alloc: Global, socket: &UdpSocket) -> io::Result<Vec<u8>> {
    let mut bytes = vec![in alloc; 0u8; MOST]?;
    let count = socket.recv(bytes.as_mut_slice())?;
    bytes.truncate(count);
    Ok(bytes)
}

/// Sends the bytes that the text says in hexadecimal.
pub fn send(alloc: Global, socket: &UdpSocket, text: &str, port: u16) -> io::Result<()> {
    let bytes = hex::decode(alloc, text).unwrap_or(Vec::new(alloc));
    socket.send_to(&bytes, ("127.0.0.1", port))?;
    Ok(())
}

/// A connection to this port of the loopback, that waits for as long as a trial does.
pub fn connect<R: Net<Stream = TcpStream>>(rt: &R, port: u16) -> io::Result<TcpStream> {
    let stream = TcpStream::connect(rt, ("127.0.0.1", port))?;
    stream.set_read_timeout(Some(Duration::from_millis(PATIENCE)))?;
    Ok(stream)
}

/// Whether the other end closed the connection, with nothing behind.
pub fn is_ended(stream: &mut TcpStream) -> bool {
    let mut byte = [0];
    match stream.read(&mut byte) {
        Ok(count) => count == 0,
        Err(error) => error.kind() == io::ErrorKind::ConnectionReset,
    }
}
