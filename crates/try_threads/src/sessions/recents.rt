//! The frames that were sent last.
ghost use Rattle.std.specs.Prelude.{◌≡◌};
ghost use Rattle.pdc_server.specs.Stream.{stream_of};

use crate::sessions::data::{DATA_LEN, ID, node_a, send_data};
use pdc_frame::{StreamId, instant, read_frame};
use pdc_row::Output;
use pdc_server::{Naming, Place, Recent, Seen};
use std::alloc::Global;
use std::io;
use std::marker::Brand;
use std::sync::Wait;

/// The instant of the first frame, if there is one.
fn first_of(output: &Output, frames: &[u8]) -> Option<u64> {
    let frame = read_frame(frames.get(..DATA_LEN)?).ok()?;
    instant(
        frame.soc,
        frame.frac,
        output.time_base,
        u32::from(output.rate),
    )
}

/// Prints what is given above an instant.
fn print_after<N: Naming, R: Wait + Print>(
    rt: &R,
    alloc: Global,
    recent: &Recent<N>,
    output: &Output,
    got: u64,
) -> io::Result<()> {
    let mut out = Vec::new(alloc);
    let seen = Seen::Nothing;
    let answer = recent.after(rt, Place { got, seen }, true, &mut out)?.got;
    let frames = out.len() / DATA_LEN;
    println!(rt; "  after {got}: {frames} frames, and the answer {answer}")?;
    if let Some(first) = first_of(output, &out) {
        println!(rt; "  the first one is {first}")?;
    }
    Ok(())
}

/// Sends a frame of each instant from 1 to 300, and one of another stream, and asks for them.
fn play_named<N: Naming, R: Wait + Print>(rt: &R, alloc: Global, output: &Output) -> io::Result<()>
    requires { N.stream ≡ stream_of output.now }
{
    let recent = Recent::<N>::new(alloc, output, 1)?;
    for instant in 1..=300u16 {
        send_data(rt, alloc, &recent, output, ID, instant)?;
    }
    send_data(rt, alloc, &recent, output, StreamId { value: 202 }, 301)?;
    print_after(rt, alloc, &recent, output, 0)?;
    print_after(rt, alloc, &recent, output, 300)
}

/// Instants 1 to 300.
pub fn play<R: Wait + Print>(rt: &R, alloc: Global) -> io::Result<()> {
    println!(rt; "recent frames of the instants 1 to 300")?;
    play_named::<Brand, R>(rt, alloc, &node_a())
}
