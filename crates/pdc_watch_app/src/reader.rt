//! The frames of a session.
ghost use Rattle.std.specs.Prelude.{◌≡◌, ◌<◌, ◌≤◌};
ghost use Rattle.pdc_frame.specs.declared.step.Step.TheVariants.{Whole};

use crate::loading::Session;
use pdc_frame::{Command, Framer, Step};
use pdc_session::{Counting, Unread, tell};
use pdc_watch::{Now, Watch, Who};
use std::alloc::Global;
use std::io::ErrorKind;
use std::net::{Net, SocketAddr, TcpListener, TcpStream};
use std::rt::Clock;
use std::sync::atomic::{AtomicBool, Ordering};
use std::sync::{Mutex, Wait};
use std::time::{Duration, Instant, SystemTime};
use std::{io, thread};

/// How long a read waits, in milliseconds.
const TURN: u64 = 50;

/// How long a connection may take to be made, and a command to be written, in milliseconds.
const LIMIT: u64 = 500;

/// After how many milliseconds a connection is made anew.
const PAUSE: u64 = 1000;

/// After how many milliseconds without a byte a connection is lost.
const SILENCE: u64 = 5000;

/// After how many milliseconds a configuration is asked for again that does not fit the data.
const PATIENCE: u64 = 1000;

/// Milliseconds since 1970; 0 where the clock cannot be read.
fn utc_ms(clock: &impl Clock) -> u64 {
    let Ok(now) = SystemTime::now(clock) else {
        return 0;
    };
    let Ok(since) = now.duration_since(SystemTime::UNIX_EPOCH) else {
        return 0;
    };
    u64::try_from(since.as_millis()).unwrap_or(0)
}

/// Milliseconds since the program began, by a clock that is never set; 0 where it cannot be read.
fn steady_ms(clock: &impl Clock, begun: Option<Instant>) -> u64 {
    let Some(begun) = begun else {
        return 0;
    };
    match begun.elapsed(clock) {
        Ok(since) => u64::try_from(since.as_millis()).unwrap_or(u64::MAX),
        Err(_) => 0,
    }
}

/// The time that it is in a program that began then, by both clocks.
pub fn now_of(clock: &impl Clock, begun: Option<Instant>) -> Now {
    Now {
        utc_ms: utc_ms(clock),
        steady_ms: steady_ms(clock, begun),
    }
}

/// Connects to this address.
pub fn connect<R: Net<Listener = TcpListener, Stream = TcpStream>>(
    rt: &R,
    to: &SocketAddr,
) -> io::Result<TcpStream> {
    let stream = TcpStream::connect_timeout(rt, to, Duration::from_millis(LIMIT))?;
    stream.set_read_timeout(Some(Duration::from_millis(TURN)))?;
    stream.set_write_timeout(Some(Duration::from_millis(LIMIT)))?;
    stream.set_nodelay(true)?;
    Ok(stream)
}

/// Whether a read only waited.
fn is_idle(kind: ErrorKind) -> bool {
    matches!(
        kind,
        ErrorKind::WouldBlock | ErrorKind::TimedOut | ErrorKind::Interrupted
    )
}

/// What one turn brought.
#[derive(Clone, Copy)]
enum Turn {
    Nothing,
    Bytes,
    /// A data frame that does not fit its configuration.
    Stale,
    /// No more comes.
    Over,
}

/// A connection to a session.
#[derive(Drop)]
struct Reading {
    stream: Counting<TcpStream>,
    framer: Framer,
    unread: Unread,
}

/// What reads a session.
#[derive(Drop)]
pub struct Reader<'a, R: Net<Listener = TcpListener, Stream = TcpStream> + Clock + Wait> {
    pub rt: &'a R,
    pub alloc: Global,
    pub who: Who,
    pub session: Session,
    pub watch: &'a Mutex<Watch>,
    pub ending: &'a AtomicBool,
    /// When the program began.
    pub begun: Option<Instant>,
}

/// Reads once, where no byte is left.
fn fill(reading: &mut Reading) -> Turn {
    if !reading.unread.bytes().is_empty() {
        return Turn::Bytes;
    }
    match reading.unread.fill(&mut reading.stream) {
        Ok(0) => Turn::Over,
        Ok(_) => Turn::Bytes,
        Err(error) if is_idle(error.kind()) => Turn::Nothing,
        Err(_) => Turn::Over,
    }
}

impl<'a, R: Net<Listener = TcpListener, Stream = TcpStream> + Clock + Wait> Reader<'a, R> {
    /// Asks for the configuration.
    fn ask(&self, stream: &mut Counting<TcpStream>) -> bool {
        tell(self.session.id, Command::SendCfg2, stream).is_ok()
    }

    /// Connects, and asks for the configuration and the data.
    fn open(&self) -> Option<Reading> {
        let mut stream = Counting::new(connect(self.rt, &self.session.to).ok()?);
        let framer = Framer::new(self.alloc).ok()?;
        let unread = Unread::new(self.alloc).ok()?;
        if !self.ask(&mut stream) || tell(self.session.id, Command::DataOn, &mut stream).is_err() {
            return None;
        }
        Some(Reading {
            stream,
            framer,
            unread,
        })
    }

    /// The milliseconds since the program began.
    fn now(&self) -> u64 {
        steady_ms(self.rt, self.begun)
    }

    /// Gives the frame that is whole to what is known of the pair.
    fn give(&self, framer: &Framer) -> Turn
        requires { framer.now.step ≡ Whole }
    {
        let frame = framer.fields();
        if frame.id.value != self.session.id.value {
            return Turn::Bytes;
        }
        let now = now_of(self.rt, self.begun);
        let mut watch = self.watch.lock(self.rt);
        match watch.take(self.alloc, self.who, &frame, now) {
            Ok(true) => Turn::Bytes,
            Ok(false) => Turn::Stale,
            Err(_) => Turn::Over,
        }
    }

    /// Reads once, or goes on with what was read.
    fn turn(&self, reading: &mut Reading) -> Turn {
        match fill(reading) {
            Turn::Bytes => {}
            other => return other,
        }
        let (taken, step) = reading.framer.feed(reading.unread.bytes());
        reading.unread.skip(taken);
        match step {
            Step::Whole => self.give(&reading.framer),
            Step::More => Turn::Bytes,
            Step::Bad(_) => Turn::Over,
        }
    }

    /// Reads until no more comes, or all is to end.
    fn follow(&self, reading: &mut Reading) {
        let mut heard = self.now();
        let mut asked = heard;
        for _ in self.rt.forever() {
            if self.ending.load(Ordering::SeqCst) {
                return;
            }
            let turn = self.turn(reading);
            let now = self.now();
            match turn {
                Turn::Over => return,
                Turn::Nothing => {
                    if now.saturating_sub(heard) > SILENCE {
                        return;
                    }
                }
                Turn::Bytes => heard = now,
                Turn::Stale => {
                    heard = now;
                    if now.saturating_sub(asked) > PATIENCE {
                        asked = now;
                        if !self.ask(&mut reading.stream) {
                            return;
                        }
                    }
                }
            }
        }
        unreachable!()
    }

    /// Tells whether there is a connection.
    fn note(&self, connected: bool) {
        self.watch.lock(self.rt).connect(self.who, connected);
    }

    /// Reads the session, connecting anew after a loss, until all is to end.
    pub fn read(&self) {
        for _ in self.rt.forever() {
            if self.ending.load(Ordering::SeqCst) {
                return;
            }
            if let Some(reading) = self.open() {
                let mut reading = reading;
                self.note(true);
                self.follow(&mut reading);
                self.note(false);
            }
            thread::sleep(self.rt, Duration::from_millis(PAUSE));
        }
        unreachable!()
    }
}
