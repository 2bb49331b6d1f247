//! The whole program: a thread for each session, one that reads the counters of the pair, and one that serves the page.

use crate::loading::Session;
use crate::meter::Meter;
use crate::reader::{Reader, now_of};
use crate::site::Site;
use pdc_metrics::serve_many;
use pdc_watch::{Origin, Three, Watch, Who};
use std::alloc::{AllocError, Global};
use std::hash::RandomState;
use std::net::{Net, TcpListener, TcpStream};
use std::rt::Clock;
use std::sync::atomic::{AtomicBool, Ordering};
use std::sync::{Mutex, Wait};
use std::thread::{Scope, Threads};
use std::time::Instant;
use std::{io, thread};

/// Starts the thread that reads a session, and answers whether it was started.
fn start_reader<
    's,
    E: 's,
    R: Net<Listener = TcpListener, Stream = TcpStream> + Wait + Clock + Sync + 's,
>(scope: &'s Scope<'s, E>, reader: Reader<'s, R>) -> bool {
    scope.spawn(move || -> () { reader.read() }).is_ok()
}

/// Starts the thread that reads the counters, and answers whether it was started.
fn start_meter<
    's,
    E: 's,
    R: Net<Listener = TcpListener, Stream = TcpStream> + Wait + Clock + Sync + 's,
>(scope: &'s Scope<'s, E>, meter: Meter<'s, R>) -> bool {
    scope.spawn(move || -> () { meter.read() }).is_ok()
}

/// Starts the threads of all sessions, and answers whether all were started.
fn start_readers<
    's,
    E: 's,
    R: Net<Listener = TcpListener, Stream = TcpStream> + Wait + Clock + Sync + 's,
>(
    scope: &'s Scope<'s, E>,
    rt: &'s R,
    alloc: Global,
    pair: &Three<Session>,
    watch: &'s Mutex<Watch>,
    ending: &'s AtomicBool,
    begun: Option<Instant>,
) -> bool {
    for who in [Who::A, Who::B, Who::M] {
        let reader = Reader {
            rt,
            alloc,
            who,
            session: *pair.of(who),
            watch,
            ending,
            begun,
        };
        if !start_reader(scope, reader) {
            return false;
        }
    }
    true
}

/// Where a session is, and how long its concentrator waits, for the page.
fn origin_of(alloc: Global, session: &Session) -> Result<Origin, AllocError> {
    let (to, kind) = (session.to, session.timing.wait_kind);
    Ok(Origin {
        address: format!(in alloc; "{to}")?,
        wait: session.timing.wait,
        wait_kind: format!(in alloc; "{kind:?}")?,
    })
}

/// Where the sessions are.
fn origins_of(alloc: Global, pair: &Three<Session>) -> Result<Three<Origin>, AllocError> {
    Ok(Three {
        a: origin_of(alloc, &pair.a)?,
        b: origin_of(alloc, &pair.b)?,
        m: origin_of(alloc, &pair.m)?,
    })
}

/// Reads the sessions and serves the page, and ends only where it cannot.
pub fn run<
    R: Net<Listener = TcpListener, Stream = TcpStream>
        + Threads
        + Wait
        + Clock
        + AllocGlobal
        + Print
        + Sync,
>(rt: &R, keys: RandomState, pair: &Three<Session>, port: u16) -> io::Result<()> {
    let alloc = rt.alloc();
    let listener = TcpListener::bind(rt, ("127.0.0.1", port))?;
    listener.set_nonblocking(true)?;
    let origins = origins_of(alloc, pair)?;
    let begun = Instant::now(rt).ok();
    let watch = Mutex::new(Watch::new(alloc, u32::from(pair.a.rate), now_of(rt, begun))?);
    let ending = AtomicBool::new(false);
    println!(rt; "pdc watch: http://127.0.0.1:{port}/")?;
    thread::scope(thread::scope_env(), rt, |scope| -> io::Result<()> {
        let meter = Meter {
            rt,
            alloc,
            pair,
            watch: &watch,
            ending: &ending,
        };
        if !start_readers(scope, rt, alloc, pair, &watch, &ending, begun)
            || !start_meter(scope, meter)
        {
            ending.store(true, Ordering::SeqCst);
            return Err(io::ErrorKind::OutOfMemory.into());
        }
        let mut site = Site {
            rt,
            alloc,
            watch: &watch,
            origins: &origins,
            begun,
            port,
        };
        let served = serve_many(rt, alloc, keys, &mut site, &listener, &ending);
        ending.store(true, Ordering::SeqCst);
        served
    })
}
