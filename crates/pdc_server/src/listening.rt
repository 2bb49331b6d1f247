//! Connections, one after the other.
use crate::consumer::Consumer;
use crate::line::Line;
use crate::naming::Naming;
use crate::recent::Recent;
use pdc_seats::{Leaving, Porter, Seats};
use pdc_session::end_if_gone;
use std::alloc::Global;
use std::io::{Read, Write};
use std::net::{OpenListener, OpenStream, SocketAddr};
use std::os::fd::AsRawFd;
use std::rt::Clock;
use std::sync::Wait;
use std::sync::atomic::{AtomicU64, Ordering};
use std::time::{Duration, Instant, SystemTime};
use std::{io, thread};

/// How long one who gets data waits for a frame before he is heard again, in milliseconds; and how long one who was just heard, so that commands
/// without end keep no processor busy.
const TURN: u64 = 20;

/// How long a read waits for one who gets none, in milliseconds: what he sends ends it, and an end of the run is seen behind it.
const QUIET: u64 = 500;

/// How long nobody is looked for after nobody came, in milliseconds: each of the threads that serve looks by itself, and each look wakes it.
const LOOK: u64 = 100;

/// How long a write waits for a consumer that does not read, in milliseconds.
const WRITE_LIMIT: u64 = 1000;

/// How long a consumer may be silent while data is off, in seconds.
const SILENCE: u64 = 60;

/// Sets the limits of a connection; what is written to it goes out at once.
fn set_up<S: OpenStream + AsRawFd>(stream: &S) -> io::Result<()> {
    end_if_gone(stream);
    stream.set_read_timeout(Some(Duration::from_millis(QUIET)))?;
    stream.set_write_timeout(Some(Duration::from_millis(WRITE_LIMIT)))?;
    stream.set_nodelay(true)
}

/// The second that the clock shows; 0 where it cannot be read or shows a time before 1970.
fn second_now<C: Clock>(clock: &C) -> u32 {
    let Ok(now) = SystemTime::now(clock) else {
        return 0;
    };
    let since = now
        .duration_since(SystemTime::UNIX_EPOCH)
        .unwrap_or(Duration::ZERO);
    u32::try_from(since.as_secs()).unwrap_or(u32::MAX)
}

/// Whether a silence that began then has lasted as long as it may; where the clock cannot be read it has not.
fn is_over<R: Clock>(rt: &R, since: Option<Instant>) -> bool {
    match since {
        Some(since) => match since.elapsed(rt) {
            Ok(gone) => gone >= Duration::from_secs(SILENCE),
            Err(_) => false,
        },
        None => false,
    }
}

/// Waits for the next frame of one who gets data, who is then heard as far as he has spoken. One who gets none is waited for by the read, and
/// for a while before it where he was just heard.
fn wait_for_more<N: Naming, S, R: Wait + Clock>(
    rt: &R,
    recent: &Recent<N>,
    consumer: &Consumer<N>,
    line: &mut Line<S>,
) {
    let is_on = consumer.wants_data();
    line.set_hasty(is_on);
    let turn = Duration::from_millis(TURN);
    if is_on {
        recent.wait_for_more(rt, consumer.place(), turn);
    } else if consumer.was_heard() {
        thread::sleep(rt, turn);
    }
}

/// Who is served, and who hears of it.
#[derive(Drop)]
pub struct Reception<'a, P: Porter> {
    /// How many are served.
    pub present: &'a AtomicU64,
    /// Their places.
    pub seats: &'a Seats,
    /// Who hears of those that are disconnected.
    pub porter: &'a P,
}

/// How a session ended.
#[derive(Drop)]
enum Left<S> {
    /// By the consumer, by a fault, or with the run.
    Itself,
    /// The consumer was disconnected.
    By(Leaving),
    /// It gave way to the one who came from this address.
    For(S, SocketAddr),
}

/// How a session ended whose turn failed.
fn left_of<S: Drop>(line: &Line<S>) -> Left<S> {
    if line.has_stalled() {
        Left::By(Leaving::Stalled)
    } else {
        Left::Itself
    }
}

/// Whether the consumer sent or got something in its turn, before which it had got data up to this instant.
fn is_active<N: Naming>(consumer: &Consumer<N>, got: u64) -> bool {
    consumer.was_heard() || consumer.got() != got
}

/// Serves one consumer at a place to the end of its session, or until it has been silent for a minute while data is off, or gives way to
/// another: so that who says nothing keeps others out for no longer.
fn serve_one<N: Naming, L: OpenListener, P: Porter, R: Wait + Clock>(
    rt: &R,
    alloc: Global,
    recent: &Recent<N>,
    listener: &L,
    reception: &Reception<'_, P>,
    stream: L::Stream,
    number: usize,
) -> Left<L::Stream>
where
    L::Stream: Read + Write + OpenStream + AsRawFd + Drop,
{
    if set_up(&stream).is_err() {
        return Left::Itself;
    }
    let mut line = Line::new(stream);
    let Ok(mut consumer) = Consumer::new(alloc, recent) else {
        return Left::Itself;
    };
    let mut since = Instant::now(rt).ok();
    for _ in rt.forever() {
        wait_for_more(rt, recent, &consumer, &mut line);
        if recent.closed(rt) {
            return Left::Itself;
        }
        let got = consumer.got();
        if consumer
            .turn(rt, recent, second_now(rt), &mut line)
            .is_err()
        {
            return left_of(&line);
        }
        if !consumer.is_silent() {
            since = Instant::now(rt).ok();
        } else if is_over(rt, since) {
            return Left::By(Leaving::Silent);
        }
        if is_active(&consumer, got) {
            reception.seats.hear(rt, number);
        } else if reception.seats.gives_way(rt, number) {
            if let Ok((stream, from)) = listener.accept() {
                return Left::For(stream, from);
            }
        }
    }
    unreachable!()
}

/// Serves one consumer at a free place. Answers the one that it gave way to, if it did.
fn receive<N: Naming, L: OpenListener, P: Porter, R: Wait + Clock>(
    rt: &R,
    alloc: Global,
    recent: &Recent<N>,
    listener: &L,
    reception: &Reception<'_, P>,
    stream: L::Stream,
    from: SocketAddr,
) -> Option<(L::Stream, SocketAddr)>
where
    L::Stream: Read + Write + OpenStream + AsRawFd + Drop,
{
    let number = reception.seats.take(rt)?;
    reception.present.fetch_add(1, Ordering::Relaxed);
    if reception.seats.is_full(rt) {
        reception.porter.is_full();
    }
    let left = serve_one(rt, alloc, recent, listener, reception, stream, number);
    reception.present.fetch_sub(1, Ordering::Relaxed);
    reception.seats.leave(rt, number);
    match left {
        Left::Itself => None,
        Left::By(why) => {
            reception.porter.left(from, why);
            None
        }
        Left::For(stream, comes) => {
            reception.porter.left(from, Leaving::GaveWay);
            Some((stream, comes))
        }
    }
}

/// Serves the consumers of the stream that is kept, as they connect, one after the other, until no more is to come. The listener's `accept`
/// is one that does not wait.
pub fn serve<N: Naming, L: OpenListener, P: Porter, R: Wait + Clock>(
    rt: &R,
    alloc: Global,
    recent: &Recent<N>,
    listener: &L,
    reception: &Reception<'_, P>,
)
where
    L::Stream: Read + Write + OpenStream + AsRawFd + Drop,
{
    let mut comes: Option<(L::Stream, SocketAddr)> = None;
    for _ in rt.forever() {
        if recent.closed(rt) {
            return;
        }
        let next = match comes.take() {
            Some(visitor) => Some(visitor),
            None => listener.accept().ok(),
        };
        match next {
            Some((stream, from)) => {
                comes = receive(rt, alloc, recent, listener, reception, stream, from);
            }
            None => thread::sleep(rt, Duration::from_millis(LOOK)),
        }
    }
    unreachable!()
}
