//! What was sent last, under its lock: it is made, a frame is kept, and then the frame and the layout are asked for.
ghost use Rattle.std.specs.Prelude.{◌≡◌};
ghost use Rattle.pdc_server.specs.Stream.{stream_of};

use crate::cores::publishes::{OUTPUT, published};
use crate::cores::silent::Silent;
use crate::trial::{DONE, State, begin, end, of_memory, state_of};
use crate::vectors::BEFORE;
use arrayvec::ArrayVec;
use pdc_life::Output;
use pdc_publisher::PublishedRow;
use pdc_server::{Naming, Outlet, Place, Recent, RememberingSink, Seen};
use std::alloc::Global;
use std::io;
use std::marker::Brand;
use std::sync::Wait;
use std::sync::atomic::{AtomicU64, Ordering};

/// What is called.
#[derive(Clone, Copy)]
enum Called {
    New,
    Send,
    After,
    Layout,
}

/// All of them.
const ALL: [Called; 4] = [Called::New, Called::Send, Called::After, Called::Layout];

/// The name of a call.
fn name_of(called: Called) -> &'static str {
    match called {
        Called::New => "Recent::new",
        Called::Send => "RememberingSink::send_data",
        Called::After => "Recent::after",
        Called::Layout => "Recent::layout",
    }
}

/// Where a consumer stands at first.
const FIRST_PLACE: Place = Place {
    got: 0,
    seen: Seen::Nothing,
};

/// What was appended, and the greatest instant that is kept.
fn state<N: Naming, R: Wait>(rt: &R, recent: &Recent<N>, out: &[u8]) -> State {
    let mut all: ArrayVec<u8, 64> = ArrayVec::new();
    let greatest = match recent.after(rt, FIRST_PLACE, true, &mut all) {
        Ok(place) => place.got,
        Err(_) => u64::MAX,
    };
    state_of(out, greatest)
}

/// Sends the frame of a row by a sink that keeps it, and tells whether it was kept.
fn send<N: Naming, R: Wait>(
    rt: &R,
    alloc: Global,
    output: &Output,
    recent: &Recent<N>,
    row: &mut PublishedRow,
) -> &'static str
    requires named { N.stream ≡ stream_of output.now }
{
    let unkept = AtomicU64::new(0);
    let mut sink = RememberingSink::new(rt, alloc, recent, *output, &unkept, Silent);
    match sink.send_data(row) {
        Ok(()) if unkept.load(Ordering::Relaxed) == 0 => DONE,
        Ok(()) => "sent and not kept",
        Err(_) => "H2 SinkFault",
    }
}

/// Makes the call.
fn call<N: Naming, R: Wait>(
    rt: &R,
    alloc: Global,
    output: &Output,
    recent: &Recent<N>,
    row: &mut PublishedRow,
    out: &mut Vec<u8>,
    called: Called,
) -> &'static str
    requires named { N.stream ≡ stream_of output.now }
{
    match called {
        Called::New => of_memory(Recent::<N>::new(alloc, output, 1)),
        Called::Send => send(rt, alloc, output, recent, row),
        Called::After => of_memory(recent.after(rt, FIRST_PLACE, true, out)),
        Called::Layout => of_memory(recent.layout(rt, out)),
    }
}

/// Makes the call on three bytes, and prints it. Whether it was answered `Ok`.
fn attempt<N: Naming, R: Wait + Print>(
    rt: &R,
    alloc: Global,
    output: &Output,
    recent: &Recent<N>,
    row: &mut PublishedRow,
    called: Called,
) -> io::Result<bool>
    requires named { N.stream ≡ stream_of output.now }
{
    let mut out = Vec::from_slice(alloc, &BEFORE)?;
    begin(rt, name_of(called), state(rt, recent, &out))?;
    let answer = call(rt, alloc, output, recent, row, &mut out, called);
    end(rt, answer, state(rt, recent, &out))?;
    Ok(answer == DONE)
}

/// Makes each call, and again where it is refused.
fn play_on<N: Naming, R: Wait + Print>(
    rt: &R,
    alloc: Global,
    output: &Output,
    recent: &Recent<N>,
    row: &mut PublishedRow,
) -> io::Result<()>
    requires named { N.stream ≡ stream_of output.now }
{
    for called in ALL {
        if !attempt(rt, alloc, output, recent, row, called)? {
            attempt(rt, alloc, output, recent, row, called)?;
        }
    }
    Ok(())
}

/// Makes each call on what is kept of the stream that is named.
fn play_named<N: Naming, R: Wait + Print>(rt: &R, alloc: Global, output: &Output) -> io::Result<()>
    requires { N.stream ≡ stream_of output.now }
{
    let mut row = published(alloc)?;
    let recent = Recent::<N>::new(alloc, output, 1)?;
    play_on(rt, alloc, output, &recent, &mut row)
}

/// Each call, of what node 201 sent.
pub fn play<R: Wait + Print>(rt: &R, alloc: Global) -> io::Result<()> {
    play_named::<Brand, R>(rt, alloc, &OUTPUT)
}
