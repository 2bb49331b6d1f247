//! A node with two PMUs and its consumers, over the loopback.
ghost use Rattle.std.specs.Prelude.{◌≡◌};
ghost use Rattle.pdc_server.specs.Stream.{stream_of};

use crate::driving::drive;
use crate::network::listen;
use crate::scripted::{Gauges, Paced, Watched};
use pdc_life::Settings;
use pdc_mark::ModelMark;
use pdc_network::{UdpSink, UdpSource};
use pdc_server::{Leaving, Naming, Porter, Recent, Reception, RememberingSink, Seats, serve};
use pdc_service::{Begun, Plan, Totals, hand_over, run_node};
use pdc_settings::NodeSettings;
use std::alloc::Global;
use std::marker::Brand;
use std::net::{Net, SocketAddr, TcpListener, TcpStream, UdpSocket};
use std::rt::Clock;
use std::sync::Wait;
use std::sync::atomic::{AtomicU64, Ordering};
use std::thread::{Scope, Threads};
use std::{io, thread};
use try_script::SettingsText;

/// What the node runs on.
#[derive(Drop)]
struct Wires {
    first: UdpSource,
    second: UdpSource,
    sink: UdpSink,
}

/// A node that is tried: its settings, the frames of it that are kept, and how far the trial is.
#[derive(Drop)]
struct Trial<'s, N: Naming> {
    settings: &'s Settings,
    recent: &'s Recent<N>,
    gauges: &'s Gauges,
}

/// Nobody hears of consumers.
#[derive(Clone, Copy)]
struct Nobody;

impl Porter for Nobody {
    fn is_full(&self) {}

    fn left(&self, _from: SocketAddr, _why: Leaving) {}
}

/// Serves consumers, one after the other, until the node ends. There are more places than the trial has consumers.
fn serve_consumers<N: Naming, R: Wait + Clock>(
    rt: &R,
    alloc: Global,
    recent: &Recent<N>,
    listener: &TcpListener,
    present: &AtomicU64,
) {
    let seats = Seats::new(8);
    let reception = Reception {
        present,
        seats: &seats,
        porter: &Nobody,
    };
    serve(rt, alloc, recent, listener, &reception);
}

/// A source that counts what it delivered here.
fn watched(inner: UdpSource, delivered: &AtomicU64) -> Watched<'_, UdpSource> {
    Watched {
        inner,
        delivered,
        gave: false,
    }
}

/// Runs the node, in a life with start 1, until the trial is done.
fn run_it<N: Naming + Send, R: Threads + Wait + Clock + Sync>(
    rt: &R,
    alloc: Global,
    settings: &Settings,
    recent: &Recent<N>,
    gauges: &Gauges,
    wires: Wires,
) -> Option<Totals>
    requires { N.stream ≡ stream_of settings.now.output }
{
    let Wires {
        first,
        second,
        sink,
    } = wires;
    let Ok(mark) = Begun::new(ModelMark::new(0, 0)) else {
        return None;
    };
    let sources = [
        watched(first, &gauges.first),
        watched(second, &gauges.second),
    ];
    let sources = Vec::from_array(alloc, sources).ok()?;
    if settings.pmus.len() != sources.len() {
        return None;
    }
    let plan = Plan {
        lead: 0,
        layout_every: 100,
        limit: 1024,
    };
    let ticker = Paced {
        rt,
        gauges,
        given: 0,
    };
    let unkept = AtomicU64::new(0);
    let sink = RememberingSink::new(rt, alloc, recent, settings.output, &unkept, sink);
    let handed = hand_over(mark, sources, ticker, sink);
    run_node(rt, alloc, settings, &plan, handed).outcome.ok()
}

/// What the node runs on, where its consumers come, and where its frames arrive.
#[derive(Drop)]
struct Sockets {
    wires: Wires,
    listener: TcpListener,
    frames: UdpSocket,
}

/// What the node runs on.
fn open_wires<R: Net<Listener = TcpListener, Stream = TcpStream>>(
    rt: &R,
    port: u16,
) -> io::Result<Wires> {
    Ok(Wires {
        first: UdpSource::open(rt, port)?,
        second: UdpSource::open(rt, port.saturating_add(1))?,
        sink: UdpSink::open(rt, port.saturating_add(2))?,
    })
}

/// Where consumers come, without waiting for one.
fn listen_for_sessions<R: Net<Listener = TcpListener, Stream = TcpStream>>(
    rt: &R,
    port: u16,
) -> io::Result<TcpListener> {
    let listener = TcpListener::bind(rt, ("127.0.0.1", port.saturating_add(3)))?;
    listener.set_nonblocking(true)?;
    Ok(listener)
}

/// The sockets of the node, and the one that its frames come to.
fn open_sockets<R: Net<Listener = TcpListener, Stream = TcpStream>>(
    rt: &R,
    port: u16,
) -> io::Result<Sockets> {
    let listener = listen_for_sessions(rt, port)?;
    Ok(Sockets {
        wires: open_wires(rt, port)?,
        listener,
        frames: listen(rt, port.saturating_add(2))?,
    })
}

/// Prints how the run of the node ended.
fn print_end<R: Print>(rt: &R, ended: &Option<Totals>) -> io::Result<()> {
    match ended {
        Some(totals) => {
            let (taken, refused, published) = (totals.taken, totals.refused, totals.published);
            println!(rt; "  taken={taken} refused={refused} published={published}")
        }
        None => println!(rt; "  the run ended by a fault"),
    }
}

/// Starts the node and its sessions, drives them, and ends them.
fn conduct<
    's,
    E: 's,
    N: Naming + Send + 's,
    R: Threads + Wait + Clock + Net<Listener = TcpListener, Stream = TcpStream> + Print + Sync + 's,
>(
    scope: &'s Scope<'s, E>,
    rt: &'s R,
    alloc: Global,
    trial: Trial<'s, N>,
    port: u16,
    sockets: Sockets,
) -> io::Result<()>
    requires { N.stream ≡ stream_of trial.settings.now.output }
{
    let Trial {
        settings,
        recent,
        gauges,
    } = trial;
    let Sockets {
        wires,
        listener,
        frames,
    } = sockets;
    let node = scope.spawn(
        move || -> Option<Totals>
            requires { N.stream ≡ stream_of settings.now.output }
        { run_it(rt, alloc, settings, recent, gauges, wires) },
    );
    let sessions = scope.spawn(move || -> () {
        serve_consumers(rt, alloc, recent, &listener, &gauges.present)
    });
    let driven = drive(rt, alloc, port, &frames);
    gauges.done.store(1, Ordering::SeqCst);
    recent.close(rt);
    if sessions.is_err() {
        println!(rt; "  no thread for the sessions")?;
    }
    match node {
        Ok(node) => print_end(rt, &node.join(rt))?,
        Err(_refused) => println!(rt; "  no thread for the node")?,
    }
    driven
}

/// Runs the node with its PMUs and its consumers, in a scope of threads.
fn play_over<
    'x,
    N: Naming + Send + 'x,
    R: Threads + Wait + Clock + Net<Listener = TcpListener, Stream = TcpStream> + Print + Sync + 'x,
>(rt: &'x R, alloc: Global, trial: Trial<'x, N>, port: u16, sockets: Sockets) -> io::Result<()>
    requires { N.stream ≡ stream_of trial.settings.now.output }
{
    thread::scope(
        thread::scope_env(),
        rt,
        move |scope| -> io::Result<()>
            requires { N.stream ≡ stream_of trial.settings.now.output }
        { conduct(scope, rt, alloc, trial, port, sockets) },
    )
}

/// Runs the node of the stream that is named, in its first life.
fn play_named<
    N: Naming + Send,
    R: Threads + Wait + Clock + Net<Listener = TcpListener, Stream = TcpStream> + Print + Sync,
>(rt: &R, alloc: Global, settings: &Settings, port: u16) -> io::Result<()>
    requires { N.stream ≡ stream_of settings.now.output }
{
    let recent = Recent::<N>::new(alloc, &settings.output, 1)?;
    let gauges = Gauges::new();
    let sockets = open_sockets(rt, port)?;
    let trial = Trial {
        settings,
        recent: &recent,
        gauges: &gauges,
    };
    play_over(rt, alloc, trial, port, sockets)
}

/// Runs node A of the worked scenarios, PMUs 11 and 12 at 50 frames a second, with its PMUs and its consumers.
pub fn play<
    R: Threads + Wait + Clock + Net<Listener = TcpListener, Stream = TcpStream> + Print + Sync,
>(rt: &R, alloc: Global, port: u16) -> io::Result<()> {
    println!(rt; "a node over the loopback")?;
    // (its ports are not those of the settings)
    let text = SettingsText::of(201).node(alloc, &[11, 12], 4811)?;
    let Ok(settings) = NodeSettings::from_toml(alloc, &text) else {
        return println!(rt; "  the settings are refused");
    };
    play_named::<Brand, R>(rt, alloc, &settings.life, port)
}
