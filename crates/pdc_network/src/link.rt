//! The frames of a stream, however they come.
ghost use Rattle.std.specs.Prelude.{◌≡◌, ◌≢◌, ◌≤◌, ◌<◌, ℕ, List, None, Some, [], false, length};
ghost use Rattle.std.specs.Prelude.{true};
ghost use Rattle.pdc_ports.specs.Heard.{Heard, heard_by};
ghost use Rattle.pdc_network.specs.Limit.{most_of};
ghost use Rattle.pdc_network.specs.Passing.{IsLeftOut};

use crate::connection::Connection;
use crate::count_limit::CountLimit;
use crate::dial::Dial;
use crate::port::Port;
use crate::receive::Receive;
use crate::system::TcpDialer;
use crate::way::Way;
use pdc_ports::{Next, Numbered, Outcome, Source};
use std::net::{Net, TcpListener, TcpStream, UdpSocket};
use std::rt::Clock;
use std::sync::Wait;

/// How many datagrams it gives in a row.
const MOST_IN_A_ROW: u32 = 64;

/// The frames of a stream, at a port or over a connection. When it ends, its sender is told to send no more, where it was asked.
pub struct Link<
    'a,
    R: Net<Listener = TcpListener, Stream = TcpStream> + Clock + Wait,
    S: Receive + Drop = UdpSocket,
    D: Dial + Drop = TcpDialer<'a, R>,
> {
    way: Way<'a, R, S, D>,
    /// Which configurations it leaves out, if it leaves out any.
    limit: Option<CountLimit<'a, R>>,
    /// How many datagrams it gave since it was idle last.
    in_a_row: u32,
    failures: u64,
}

impl<
    'a,
    R: Net<Listener = TcpListener, Stream = TcpStream> + Clock + Wait,
    S: Receive + Drop,
    D: Dial + Drop,
> Link<'a, R, S, D> {
    ghost use Rattle.pdc_network.specs.Linked.{IsFreshConnection, IsFreshLink, IsFreshPort};
    ghost use Rattle.pdc_network.specs.Linked.{IsHeardAt, IsHeardOver, limit_of, source_at};
    ghost use Rattle.pdc_network.specs.Linked.{source_of};

    /// They come to this port.
    pub fn at(port: Port<'a, R, S>) -> Link<'a, R, S, D>
        ensures source { source_of result ≡ Some (source_at port.entry) }
        ensures fresh { IsFreshPort S.received port.entry → IsFreshLink S.received D.dialed result }
        ensures tells { (heard : List Heard) → IsHeardAt S.received port.entry heard
            → ⟦<Link<'a, R, S, D> as Source>⟧.told result heard }
    {
        Link {
            way: Way::Datagrams(port),
            limit: None,
            in_a_row: 0,
            failures: 0,
        }
    }

    /// They come over this connection.
    pub fn over(connection: Connection<'a, R, D>) -> Link<'a, R, S, D>
        ensures source { source_of result ≡ None }
        ensures fresh { IsFreshConnection D.dialed connection.entry →
            IsFreshLink S.received D.dialed result }
        ensures tells { (heard : List Heard) →
            IsHeardOver D.dialed D.Stream.remaining D.Stream.contents connection.entry heard
            → ⟦<Link<'a, R, S, D> as Source>⟧.told result heard }
    {
        Link {
            way: Way::Stream(connection),
            limit: None,
            in_a_row: 0,
            failures: 0,
        }
    }

    /// Leaves out what this limit leaves out, if there is one.
    pub fn set_limit(&mut self, limit: Option<CountLimit<'a, R>>)
        ensures limit { limit_of self.new ≡ most_of limit.entry }
        ensures source { source_of self.new ≡ source_of self.old }
        ensures fresh { IsFreshLink S.received D.dialed self.old →
            IsFreshLink S.received D.dialed self.new }
        // Where nothing came by its way yet it said nothing, whatever the limit is.
        ensures silent { IsFreshLink S.received D.dialed self.old →
            ⟦<Link<'a, R, S, D> as Source>⟧.told self.new [] }
    {
        self.limit = limit;
    }

    /// How many bytes of datagrams wait at its port at most, where there is one and the system tells it.
    pub fn buffer(&self) -> Option<u32> {
        self.way.buffer()
    }
}

impl<
    'a,
    R: Net<Listener = TcpListener, Stream = TcpStream> + Clock + Wait,
    S: Receive + Drop,
    D: Dial + Drop,
> Drop for Link<'a, R, S, D> {
    fn drop(self) {
        let Link {
            way,
            limit: _,
            in_a_row: _,
            failures: _,
        } = self;
        way.end();
    }
}

/// Whether the limit leaves out what came next, which the buffer begins with.
fn is_left_out<R: Wait + Clock>(
    limit: &mut Option<CountLimit<'_, R>>,
    next: Next,
    buffer: &[u8],
) -> bool
    requires { (n : ℕ) → next ≡ Next.Datagram n → n ≤ length buffer.now }
    ensures same { most_of limit.new ≡ most_of limit.old }
    ensures left { result ≡ true → IsLeftOut (most_of limit.old) (heard_by next buffer.now) }
    ensures stays { result ≡ false → IsLeftOut (most_of limit.old) (heard_by next buffer.now) → ⊥ }
{
    let Some(limit) = limit else {
        return false;
    };
    match next {
        Next::Datagram(len) => limit.leaves_out(&buffer[..len]),
        _ => false,
    }
}

/// It gave what came by its way, once each and in order, without the configurations that its limit leaves out.
impl<
    'a,
    R: Net<Listener = TcpListener, Stream = TcpStream> + Clock + Wait,
    S: Receive + Drop,
    D: Dial + Drop,
> Source for Link<'a, R, S, D> {
    ghost use Rattle.std.specs.Prelude.{◌-◌};
    ghost use Rattle.pdc_network.specs.Linked.{IsHeardBy};
    ghost use Rattle.pdc_network.specs.Passing.{HasPassed};
    ghost use Rattle.pdc_network.specs.declared.link.TheConstants.{MOST_IN_A_ROW};

    ghost told = { λ s heard. HasPassed (IsHeardBy S.received D.dialed D.Stream.remaining
        D.Stream.contents s.way) (most_of s.limit) heard };

    ghost failures_of = { λ s. s.failures };

    ghost row_left = { λ s. MOST_IN_A_ROW - s.in_a_row };

    fn next(&mut self, buffer: &mut [u8]) -> Next {
        if self.in_a_row >= MOST_IN_A_ROW {
            self.in_a_row = 0;
            return Next::Idle;
        }
        let next = self.way.next(buffer);
        if is_left_out(&mut self.limit, next, buffer) {
            self.in_a_row = 0;
            return Next::Idle;
        }
        match next {
            Next::Datagram(_) => self.in_a_row += 1,
            Next::Fault => self.failures = self.failures.saturating_add(1),
            _ => self.in_a_row = 0,
        }
        next
    }

    fn answered(&mut self, answer: Option<Numbered<Outcome>>) {
        let outcome = answer.map(|numbered| numbered.answer);
        self.way.answered(outcome);
    }

    fn failures(&self) -> u64 {
        self.failures
    }
}
