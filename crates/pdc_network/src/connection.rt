//! Frames over a TCP connection.
ghost use Rattle.std.specs.Prelude.{◌≡◌, ◌≤◌, ◌<◌, ◌++◌, ◌∷◌, ℕ, IfOk, IfSome, List, None, OnErr};
ghost use Rattle.std.specs.Prelude.{[], length, map};
ghost use Rattle.pdc_frame.specs.declared.limits.TheConstants.{MAX_SIZE};
ghost use Rattle.pdc_ports.specs.Heard.{Gave, Heard, heard_by};
ghost use Rattle.pdc_session.specs.pdc_memory.Asking.{SomeWasRefused};

use crate::addresses::Addresses;
use crate::dial::Dial;
use crate::inquiry::{Inquiry, PATIENCE};
use crate::loss::Loss;
use crate::streaming::{Came, ask, let_go, order, take};
use crate::system::TcpDialer;
use pdc_frame::{Command, Framer, MAX_SIZE, StreamId};
use pdc_journal::{Journal, Moment, Tally};
use pdc_ports::{Next, Outcome};
use pdc_session::{Counting, Unread};
use std::alloc::{AllocError, Global};
use std::net::{Net, SocketAddr, TcpListener, TcpStream};
use std::rt::Clock;
use std::sync::Wait;
use std::thread;
use std::time::Duration;

/// How long it waits where no connection is due, in milliseconds.
const TURN: u64 = 20;

/// After how many seconds a connection is made anew: the first time, and at most.
const FIRST_WAIT: u64 = 1;

const LONGEST_WAIT: u64 = 30;

/// The frames of a stream over a connection to its sender, which is told to send its configuration and its data. One that is lost, refused
/// or silent for five seconds, or whose frame takes five seconds to come, is made anew: after a second, and each further time after twice
/// as long, up to 30 seconds. Where its host has several addresses, the next one is tried after one that was not connected to.
#[derive(Drop)]
pub struct Connection<
    'a,
    R: Net<Listener = TcpListener, Stream = TcpStream> + Clock + Wait,
    D: Dial + Drop = TcpDialer<'a, R>,
> {
    rt: &'a R,
    alloc: Global,
    journal: &'a Journal,
    tally: &'a Tally,
    id: StreamId,
    to: Addresses,
    dialer: D,
    stream: Option<Counting<D::Stream>>,
    framer: Framer,
    unread: Unread,
    /// Since when nothing came, or else the connection is lost.
    since: Moment,
    /// Since when a frame is coming that is not whole, if one is.
    begun: Option<Moment>,
    /// After how many seconds it is made anew.
    wait: u64,
    inquiry: Inquiry,
}

/// The line about a connection.
fn text_of(alloc: Global, tally: &Tally, to: SocketAddr, what: &str) -> Result<String, AllocError> {
    let of = tally.of;
    format!(in alloc; "{of} at {to}: {what}")
}

/// The line about its loss.
fn loss_text(
    alloc: Global,
    tally: &Tally,
    to: SocketAddr,
    loss: &Loss,
    wait: u64,
) -> Result<String, AllocError> {
    let of = tally.of;
    format!(in alloc; "{of} at {to}: {loss}; next try in {wait} s")
}

/// Whether a frame of which some bytes came, and that is not whole, has been coming for too long.
fn is_slow<R: Clock>(rt: &R, begun: &mut Option<Moment>) -> bool {
    match begun {
        Some(begun) => begun.is_past(PATIENCE, Moment::now(rt)),
        None => {
            *begun = Some(Moment::now(rt));
            false
        }
    }
}

impl<'a, R: Net<Listener = TcpListener, Stream = TcpStream> + Clock + Wait> Connection<'a, R> {
    ghost use Rattle.pdc_network.specs.Linked.{IsFreshConnection};

    /// The frames of the stream `id`, over a connection to one of these addresses that is not made yet, with what counts for it.
    ///
    /// # Errors
    ///
    /// [`AllocError`] where there is no memory for the longest frame and for a read.
    pub fn new(
        rt: &'a R,
        alloc: Global,
        journal: &'a Journal,
        tally: &'a Tally,
        id: StreamId,
        to: Addresses,
    ) -> Result<Connection<'a, R>, AllocError>
        ensures fresh { IfOk result (λ connection. IsFreshConnection ⟦<TcpDialer<'a, R> as Dial>⟧.dialed connection) }
        ensures refused { OnErr result SomeWasRefused }
    {
        Connection::by(rt, alloc, journal, tally, id, to, TcpDialer::new(rt))
    }
}

impl<
    'a,
    R: Net<Listener = TcpListener, Stream = TcpStream> + Clock + Wait,
    D: Dial + Drop,
> Connection<'a, R, D> {
    ghost use Rattle.pdc_network.specs.Came.{fits_in, frame_in, frames_in};
    ghost use Rattle.pdc_network.specs.Linked.{CanEnd, IsFreshConnection, IsHeardOver};

    /// The same, over connections that this dialer makes.
    ///
    /// # Errors
    ///
    /// [`AllocError`] where there is no memory for the longest frame and for a read.
    pub fn by(
        rt: &'a R,
        alloc: Global,
        journal: &'a Journal,
        tally: &'a Tally,
        id: StreamId,
        to: Addresses,
        dialer: D,
    ) -> Result<Connection<'a, R, D>, AllocError>
        // By a dialer of which nothing was asked yet it said nothing.
        ensures fresh { D.dialed dialer [] →
            IfOk result (λ connection. IsFreshConnection D.dialed connection) }
        ensures silent { D.dialed dialer []
            → IfOk result (λ connection. IsHeardOver D.dialed D.Stream.remaining D.Stream.contents
            connection []) }
        ensures refused { OnErr result SomeWasRefused }
    {
        Ok(Connection {
            rt,
            alloc,
            journal,
            tally,
            id,
            to,
            dialer,
            stream: None,
            framer: Framer::new(alloc)?,
            unread: Unread::new(alloc)?,
            since: Moment::now(rt),
            begun: None,
            wait: 0,
            inquiry: Inquiry::new(),
        })
    }

    /// Lets its stream go, where it has one.
    fn part(&mut self)
        requires { CanEnd self.old }
        ensures tells { (heard : List Heard) →
            IsHeardOver D.dialed D.Stream.remaining D.Stream.contents self.old heard
            → IsHeardOver D.dialed D.Stream.remaining D.Stream.contents self.new heard }
    {
        if let Some(stream) = self.stream.take() {
            let_go(stream);
        }
    }

    /// It is no more, for this reason, and made anew later.
    fn lose(&mut self, loss: Loss)
        requires { CanEnd self.old }
        ensures tells { (heard : List Heard) →
            IsHeardOver D.dialed D.Stream.remaining D.Stream.contents self.old heard
            → IsHeardOver D.dialed D.Stream.remaining D.Stream.contents self.new heard }
    {
        self.part();
        self.tally.lose();
        self.wait = self.wait.saturating_mul(2).clamp(FIRST_WAIT, LONGEST_WAIT);
        self.since = Moment::now(self.rt);
        let text = loss_text(self.alloc, self.tally, self.to.current(), &loss, self.wait);
        self.journal.tell(self.rt, text);
        if let Loss::Refused(_) = loss {
            self.to.turn();
        }
    }

    /// Makes it, and asks for the stream.
    fn open(&mut self) -> Result<(), Loss>
        requires { self.old.stream ≡ None }
        ensures tells { (heard : List Heard) →
            IsHeardOver D.dialed D.Stream.remaining D.Stream.contents self.old heard
            → IsHeardOver D.dialed D.Stream.remaining D.Stream.contents self.new heard }
        ensures err { OnErr result (self.new.stream ≡ None) }
    {
        let mut stream = match self.dialer.dial(&self.to.current()) {
            Ok(stream) => Counting::new(stream),
            Err(error) => return Err(Loss::Refused(error)),
        };
        if let Err(loss) = ask(self.id, &mut stream) {
            let_go(stream);
            return Err(loss);
        }
        let Ok(framer) = Framer::new(self.alloc) else {
            let_go(stream);
            return Err(Loss::Untold);
        };
        let Ok(unread) = Unread::new(self.alloc) else {
            let_go(stream);
            return Err(Loss::Untold);
        };
        self.framer = framer;
        self.unread = unread;
        self.stream = Some(stream);
        self.since = Moment::now(self.rt);
        self.begun = None;
        self.inquiry.note(Moment::now(self.rt));
        self.journal.note(
            self.rt,
            text_of(self.alloc, self.tally, self.to.current(), "connected"),
        );
        Ok(())
    }

    /// Makes it where its time has come, and else waits a little.
    fn open_when_due(&mut self)
        requires { self.old.stream ≡ None }
        ensures tells { (heard : List Heard) →
            IsHeardOver D.dialed D.Stream.remaining D.Stream.contents self.old heard
            → IsHeardOver D.dialed D.Stream.remaining D.Stream.contents self.new heard }
    {
        if self.wait > 0 && !self.since.is_past(self.wait, Moment::now(self.rt)) {
            thread::sleep(self.rt, Duration::from_millis(TURN));
            return;
        }
        if let Err(loss) = self.open() {
            self.lose(loss);
        }
    }

    /// What its stream gives next: a frame is copied to the front of the buffer.
    fn take_next(&mut self, buffer: &mut [u8]) -> Result<Came, Loss>
        requires { MAX_SIZE ≤ length buffer.old }
        ensures kept { length buffer.new ≡ length buffer.old }
        ensures fits { IfOk result (λ came. fits_in came (length buffer.new)) }
        ensures tells { (heard : List Heard) →
            IsHeardOver D.dialed D.Stream.remaining D.Stream.contents self.old heard
            → IsHeardOver D.dialed D.Stream.remaining D.Stream.contents self.new (heard ++
            map Gave (frames_in result buffer.new)) }
        ensures done { frames_in result buffer.new ≡ [] → CanEnd self.new }
    {
        match &mut self.stream {
            Some(stream) => take(stream, &mut self.framer, &mut self.unread, buffer),
            None => Ok(Came::Nothing),
        }
    }

    /// The next frame, copied to the front of the buffer; none where it is not whole yet.
    fn turn(&mut self, buffer: &mut [u8]) -> Result<Option<usize>, Loss>
        requires { MAX_SIZE ≤ length buffer.old }
        ensures kept { length buffer.new ≡ length buffer.old }
        ensures datagram { IfOk result (λ len. IfSome len (λ n. n ≤ length buffer.new)) }
        ensures tells { (heard : List Heard) →
            IsHeardOver D.dialed D.Stream.remaining D.Stream.contents self.old heard
            → IsHeardOver D.dialed D.Stream.remaining D.Stream.contents self.new (heard ++
            map Gave (frame_in result buffer.new)) }
        ensures done { OnErr result (CanEnd self.new) }
    {
        match self.take_next(buffer)? {
            Came::Frame(len) => {
                self.since = Moment::now(self.rt);
                Ok(Some(len))
            }
            Came::Piece => {
                self.since = Moment::now(self.rt);
                if is_slow(self.rt, &mut self.begun) {
                    return Err(Loss::Slow);
                }
                Ok(None)
            }
            Came::Nothing => {
                if self.since.is_past(PATIENCE, Moment::now(self.rt)) {
                    return Err(Loss::Silent);
                }
                Ok(None)
            }
        }
    }

    /// What comes next. Where the buffer has no room for the longest frame, no byte is taken, and nothing comes.
    pub fn next(&mut self, buffer: &mut [u8]) -> Next
        ensures kept { length buffer.new ≡ length buffer.old }
        ensures datagram { (n : ℕ) → result ≡ Next.Datagram n → n ≤ length buffer.new }
        ensures tells { (heard : List Heard) →
            IsHeardOver D.dialed D.Stream.remaining D.Stream.contents self.old heard
            → IsHeardOver D.dialed D.Stream.remaining D.Stream.contents self.new (heard ++
            heard_by result buffer.new ∷ []) }
    {
        if self.stream.is_none() {
            self.open_when_due();
            return Next::Idle;
        }
        if buffer.len() < MAX_SIZE {
            return Next::Idle;
        }
        match self.turn(buffer) {
            Ok(Some(len)) => {
                self.wait = 0;
                self.begun = None;
                if self.inquiry.is_called_for_by(&buffer[..len]) {
                    self.ask_again();
                }
                Next::Datagram(len)
            }
            Ok(None) => Next::Idle,
            Err(loss) => {
                self.lose(loss);
                Next::Idle
            }
        }
    }

    /// Tells the sender a command, where there is a connection.
    fn tell(&mut self, command: Command)
        ensures tells { (heard : List Heard) →
            IsHeardOver D.dialed D.Stream.remaining D.Stream.contents self.old heard
            → IsHeardOver D.dialed D.Stream.remaining D.Stream.contents self.new heard }
    {
        if let Some(stream) = &mut self.stream {
            let _told = order(self.id, command, stream);
        }
    }

    /// Asks for the configuration.
    fn ask_again(&mut self)
        ensures tells { (heard : List Heard) →
            IsHeardOver D.dialed D.Stream.remaining D.Stream.contents self.old heard
            → IsHeardOver D.dialed D.Stream.remaining D.Stream.contents self.new heard }
    {
        self.inquiry.note(Moment::now(self.rt));
        self.tell(Command::SendCfg2);
    }

    /// Takes how its last frame was answered. Where it was refused for want of the configuration of its data, that is asked for again.
    pub fn answered(&mut self, outcome: Option<Outcome>)
        ensures tells { (heard : List Heard) →
            IsHeardOver D.dialed D.Stream.remaining D.Stream.contents self.old heard
            → IsHeardOver D.dialed D.Stream.remaining D.Stream.contents self.new heard }
    {
        if let Some(outcome) = outcome {
            if self.inquiry.is_called_for(Moment::now(self.rt), outcome) {
                self.ask_again();
            }
        }
    }

    /// Tells the sender, where there is a connection, to send no more.
    pub fn end(&mut self)
        ensures tells { (heard : List Heard) →
            IsHeardOver D.dialed D.Stream.remaining D.Stream.contents self.old heard
            → IsHeardOver D.dialed D.Stream.remaining D.Stream.contents self.new heard }
    {
        self.tell(Command::DataOff);
    }
}
