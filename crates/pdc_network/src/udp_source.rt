//! Datagrams from a UDP port.
ghost use Rattle.std.specs.Prelude.{◌≡◌, ◌≤◌, ◌++◌, ◌∷◌, IfOk, List, None, [], length};
ghost use Rattle.pdc_network.specs.Linked.{read_from, socket_of};
ghost use Rattle.pdc_network.specs.Received.{host_bits, is_read};

use crate::receive::{Receive, is_idle};
use crate::receive_buffer::set_receive_buffer;
use pdc_ports::{Next, Numbered, Outcome, Source};
use std::io;
use std::net::{IpAddr, Net, SocketAddr, UdpSocket};
use std::time::Duration;

/// How long it waits for a datagram, in milliseconds.
const IDLE_AFTER: u64 = 20;

/// How many datagrams it gives in a row.
const MOST_IN_A_ROW: u32 = 64;

/// The address of the loopback.
const LOOPBACK: [u8; 4] = [127, 0, 0, 1];

/// The first bits of an IPv6 address that stands for an IPv4 address: ::ffff:0:0.
const MAPPED: u128 = 0xFFFF_0000_0000;

/// The datagrams that come to a UDP port. It is idle where none came for 20 ms, and once after each 64 that came one
/// behind the other, and at each of a stranger: so whoever reads it sees that it is to end, however fast they come.
#[derive(Drop)]
pub struct UdpSource<S: Receive + Drop = UdpSocket> {
    socket: S,
    /// How many datagrams it gave since it was idle last.
    in_a_row: u32,
    failures: u64,
    /// The address whose datagrams are read alone; where there is none, those of each.
    from: Option<IpAddr>,
    strangers: u64,
}

impl UdpSource<UdpSocket> {
    /// Opens the port on 127.0.0.1.
    ///
    /// # Errors
    ///
    /// Where the port cannot be opened, as one that is taken.
    pub fn open<R: Net>(net: &R, port: u16) -> io::Result<UdpSource<UdpSocket>>
        ensures from { IfOk result (λ source. read_from source ≡ None) }
    {
        UdpSource::open_at(net, IpAddr::from(LOOPBACK), port)
    }

    /// Opens the port at this address of the machine; at 0.0.0.0 it is open at each.
    ///
    /// # Errors
    ///
    /// Where the port cannot be opened, as one that is taken, or where the machine has no such address.
    pub fn open_at<R: Net>(net: &R, address: IpAddr, port: u16) -> io::Result<UdpSource<UdpSocket>>
        ensures from { IfOk result (λ source. read_from source ≡ None) }
    {
        let socket = UdpSocket::bind(net, (address, port))?;
        socket.set_read_timeout(Some(Duration::from_millis(IDLE_AFTER)))?;
        Ok(UdpSource::new(socket))
    }

    /// Asks the system for a buffer of so many bytes, in which datagrams wait that were not read yet. It may grant less, or more.
    pub fn ask_for_buffer(&self, bytes: u32) {
        set_receive_buffer(&self.socket, bytes);
    }
}

impl<S: Receive + Drop> UdpSource<S> {
    /// The datagrams of each sender that come to this port.
    pub fn new(socket: S) -> UdpSource<S>
        ensures socket { socket_of result ≡ socket }
        ensures from { read_from result ≡ None }
        // Over a socket of which nothing was asked yet it said nothing.
        ensures silent { S.received socket [] → ⟦<UdpSource<S> as Source>⟧.told result [] }
    {
        UdpSource {
            socket,
            in_a_row: 0,
            failures: 0,
            from: None,
            strangers: 0,
        }
    }

    /// From now on only the datagrams of this address are given, where there is one. The others are counted as strangers, and nothing else.
    pub fn read_only(&mut self, from: Option<IpAddr>)
        ensures socket { socket_of self.new ≡ socket_of self.old }
        ensures from { read_from self.new ≡ from }
        // Where nothing was asked of its socket yet it said nothing, whichever address that is.
        ensures silent { S.received (socket_of self.old) [] →
            ⟦<UdpSource<S> as Source>⟧.told self.new [] }
    {
        self.from = from;
    }

    /// How many datagrams came from another address than the one whose are read. It stays at its greatest value.
    pub fn strangers(&self) -> u64 {
        self.strangers
    }

    /// Sends the bytes from the port as one datagram, and answers whether they went out.
    pub fn send(&self, bytes: &[u8], to: SocketAddr) -> bool {
        self.socket.reply(bytes, to)
    }

    /// How many bytes the buffer has, where the system tells it.
    pub fn buffer(&self) -> Option<u32> {
        self.socket.buffer()
    }
}

/// The bits of an address; those of an IPv4 address are the ones of the IPv6 address that stands for it.
fn host_bits(ip: IpAddr) -> u128
    ensures { result ≡ host_bits ip }
{
    match ip {
        IpAddr::V4(ip) => MAPPED + u128::from(ip.to_bits()),
        IpAddr::V6(ip) => ip.to_bits(),
    }
}

/// Whether the datagrams of this sender are read, where those of one address are read alone.
fn is_read(from: Option<IpAddr>, sender: SocketAddr) -> bool
    ensures { result ≡ is_read from sender }
{
    match from {
        Some(from) => host_bits(sender.ip()) == host_bits(from),
        None => true,
    }
}

/// Each datagram that its socket received and that is no stranger's it gave, once, in order; and nothing else but the socket's failures.
impl<S: Receive + Drop> Source for UdpSource<S> {
    ghost use Rattle.std.specs.Prelude.{◌-◌};
    ghost use Rattle.pdc_network.specs.Received.{HasGiven};
    ghost use Rattle.pdc_network.specs.declared.udp_source.TheConstants.{MOST_IN_A_ROW};

    ghost told = { λ s heard. HasGiven S.received s.from s.socket heard };

    ghost failures_of = { λ s. s.failures };

    ghost row_left = { λ s. MOST_IN_A_ROW - s.in_a_row };

    fn next(&mut self, buffer: &mut [u8]) -> Next {
        if self.in_a_row >= MOST_IN_A_ROW {
            self.in_a_row = 0;
            return Next::Idle;
        }
        match self.socket.receive_datagram(buffer) {
            Ok((len, sender)) => {
                if is_read(self.from, sender) {
                    self.in_a_row += 1;
                    return Next::Datagram(len);
                }
                self.strangers = self.strangers.saturating_add(1);
                self.in_a_row = 0;
                Next::Idle
            }
            Err(error) if is_idle(error.kind()) => {
                self.in_a_row = 0;
                Next::Idle
            }
            Err(_) => {
                self.failures = self.failures.saturating_add(1);
                Next::Fault
            }
        }
    }

    fn answered(&mut self, _answer: Option<Numbered<Outcome>>) {}

    fn failures(&self) -> u64 {
        self.failures
    }
}
