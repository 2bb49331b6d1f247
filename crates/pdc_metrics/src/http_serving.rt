//! Many connections on one thread, none of which waits for another.

use http_server::{Config, Connection, Service};
use http1::Limits;
use std::alloc::Global;
use std::hash::RandomState;
use std::io::{ErrorKind, Read, Write};
use std::net::{Shutdown, TcpListener, TcpStream};
use std::rt::Clock;
use std::sync::Wait;
use std::sync::atomic::{AtomicBool, Ordering};
use std::time::{Duration, Instant};
use std::{io, thread};

/// How many peers are served at once; more wait in the system's queue.
const MAX_PEERS: usize = 256;

/// How long a connection may last, in milliseconds.
const WHOLE: u64 = 3000;

/// How long nothing is looked for after nothing moved, in milliseconds.
const PAUSE: u64 = 5;

/// What a request may have: 8 KiB of head and 1 KiB of body.
const CONFIG: Config = Config {
    limits: Limits {
        max_head_len: 8192,
        max_extensions_len: 256,
        max_trailers_len: 256,
    },
    max_body_len: 1024,
    max_pending: 65536,
    read_size: 2048,
};

/// A peer that is being served.
#[derive(Drop)]
struct Peer {
    stream: TcpStream,
    connection: Connection,
    since: Instant,
    closing: bool,
}

/// What a turn did.
#[derive(Clone, Copy, Debug, PartialEq, Eq)]
enum Turn {
    Moved,
    Idle,
    Over,
}

/// What a read or a write of no byte or of some means.
fn judge(moved: &io::Result<usize>) -> Turn {
    match moved {
        Ok(0) => Turn::Over,
        Ok(_) => Turn::Moved,
        Err(error) => {
            if error.kind() == ErrorKind::WouldBlock || error.kind() == ErrorKind::Interrupted {
                Turn::Idle
            } else {
                Turn::Over
            }
        }
    }
}

impl Peer {
    /// Reads what the peer still sends, and throws it away.
    fn drain(&mut self) -> Turn {
        let mut thrown = [0u8; 2048];
        judge(&self.stream.read(&mut thrown))
    }

    /// Moves bytes once.
    fn turn<S: Service>(&mut self, service: &mut S) -> Turn {
        if self.closing {
            return self.drain();
        }
        self.connection.advance(service);
        if self.connection.is_done() {
            self.closing = true;
            return match self.stream.shutdown(Shutdown::Write) {
                Ok(()) => Turn::Moved,
                Err(_) => Turn::Over,
            };
        }
        if self.connection.wants_write() {
            return judge(&self.connection.write_to(&mut self.stream));
        }
        match self.connection.read_from(&mut self.stream) {
            Ok(_) => Turn::Moved,
            Err(error) => judge(&Err(error)),
        }
    }
}

/// Takes in the next peer that waits, if one does.
fn take_in(
    alloc: Global,
    keys: RandomState,
    listener: &TcpListener,
    peers: &mut Vec<Peer>,
    since: Instant,
) -> io::Result<()> {
    let (stream, _) = listener.accept()?;
    stream.set_nonblocking(true)?;
    stream.set_nodelay(true)?;
    peers.push(Peer {
        stream,
        connection: Connection::new(alloc, keys, CONFIG),
        since,
        closing: false,
    })?;
    Ok(())
}

/// Gives each peer a turn, and answers whether one moved.
fn turn_all<S: Service>(peers: &mut Vec<Peer>, service: &mut S, now: Instant) -> bool {
    let whole = Duration::from_millis(WHOLE);
    let mut moved = false;
    peers.retain_mut(|peer| {
        let turn = peer.turn(service);
        if turn == Turn::Moved {
            moved = true;
        }
        turn != Turn::Over && now.saturating_duration_since(peer.since) < whole
    });
    moved
}

/// Serves all peers that connect until all is to end. The listener's `accept` is one that does not wait.
pub fn serve_many<S: Service, R: Wait + Clock>(
    rt: &R,
    alloc: Global,
    keys: RandomState,
    service: &mut S,
    listener: &TcpListener,
    ending: &AtomicBool,
) -> io::Result<()> {
    let mut peers = Vec::new(alloc);
    for _ in rt.forever() {
        if ending.load(Ordering::SeqCst) {
            return Ok(());
        }
        let now = Instant::now(rt)?;
        let came = peers.len() < MAX_PEERS
            && take_in(alloc, keys, listener, &mut peers, now).is_ok();
        let moved = turn_all(&mut peers, service, now);
        if !came && !moved {
            thread::sleep(rt, Duration::from_millis(PAUSE));
        }
    }
    unreachable!()
}
