//! By which way the frames of a stream come.
ghost use Rattle.std.specs.Prelude.{◌≡◌, ◌≤◌, ◌++◌, ◌∷◌, ℕ, List, [], length};
ghost use Rattle.pdc_ports.specs.Heard.{Heard, heard_by};

use crate::connection::Connection;
use crate::dial::Dial;
use crate::port::Port;
use crate::receive::Receive;
use pdc_ports::{Next, Outcome};
use std::net::{Net, TcpListener, TcpStream};
use std::rt::Clock;
use std::sync::Wait;

/// How the frames come: as datagrams to a port, or as a stream over a connection.
#[derive(Drop)]
pub(crate) enum Way<
    'a,
    R: Net<Listener = TcpListener, Stream = TcpStream> + Clock + Wait,
    S: Receive + Drop,
    D: Dial + Drop,
> {
    Datagrams(Port<'a, R, S>),
    Stream(Connection<'a, R, D>),
}

impl<
    'a,
    R: Net<Listener = TcpListener, Stream = TcpStream> + Clock + Wait,
    S: Receive + Drop,
    D: Dial + Drop,
> Way<'a, R, S, D> {
    ghost use Rattle.pdc_network.specs.Linked.{IsHeardBy};

    /// What comes next.
    pub(crate) fn next(&mut self, buffer: &mut [u8]) -> Next
        ensures kept { length buffer.new ≡ length buffer.old }
        ensures datagram { (n : ℕ) → result ≡ Next.Datagram n → n ≤ length buffer.new }
        ensures tells { (heard : List Heard) →
            IsHeardBy S.received D.dialed D.Stream.remaining D.Stream.contents self.old heard
            → IsHeardBy S.received D.dialed D.Stream.remaining D.Stream.contents self.new (heard ++
            heard_by result buffer.new ∷ []) }
    {
        match self {
            Way::Datagrams(port) => port.next(buffer),
            Way::Stream(connection) => connection.next(buffer),
        }
    }

    /// Takes how its last frame was answered.
    pub(crate) fn answered(&mut self, outcome: Option<Outcome>)
        ensures tells { (heard : List Heard) →
            IsHeardBy S.received D.dialed D.Stream.remaining D.Stream.contents self.old heard
            → IsHeardBy S.received D.dialed D.Stream.remaining D.Stream.contents self.new heard }
    {
        match self {
            Way::Datagrams(port) => port.answered(outcome),
            Way::Stream(connection) => connection.answered(outcome),
        }
    }

    /// How many bytes of datagrams wait at its port at most, where there is one and the system tells it.
    pub(crate) fn buffer(&self) -> Option<u32> {
        match self {
            Way::Datagrams(port) => port.buffer(),
            Way::Stream(_) => None,
        }
    }

    /// Tells the sender, where it was asked, to send no more.
    pub(crate) fn end(self) {
        match self {
            Way::Datagrams(port) => port.end(),
            Way::Stream(connection) => {
                let mut connection = connection;
                connection.end();
            }
        }
    }
}
