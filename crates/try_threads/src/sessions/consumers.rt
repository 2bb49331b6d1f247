//! A session in memory, turn by turn.
ghost use Rattle.std.specs.Prelude.{◌≡◌};
ghost use Rattle.pdc_server.specs.Stream.{stream_of};

use crate::sessions::data::{ID, node_a, send_data};
use crate::sessions::line::Line;
use pdc_frame::{Command, Kind, read_frame, read_header, write_command};
use pdc_row::Output;
use pdc_server::{Consumer, Naming, Recent};
use std::alloc::{AllocError, Global};
use std::io;
use std::marker::Brand;
use std::sync::Wait;

/// The second in which all turns are.
const SOC: u32 = 1_149_577_200;

/// A consumer, and its end of the connection.
#[derive(Drop)]
struct Pair<N: Naming> {
    consumer: Consumer<N>,
    line: Line,
    recent: Recent<N>,
}

/// What the bytes are: one frame by its kind and length, or so many bytes.
fn describe(alloc: Global, bytes: &[u8]) -> Result<String, AllocError> {
    let count = bytes.len();
    match read_frame(bytes) {
        Ok(frame) => match frame.kind {
            Kind::HeaderFrame => {
                let text = read_header(&frame).unwrap_or(&[]);
                let text = std::str::from_utf8(text).unwrap_or("no text");
                let soc = frame.soc;
                format!(in alloc; "a header of {count} bytes, of second {soc}: {text}")
            }
            Kind::Cfg2 => {
                let soc = frame.soc;
                format!(in alloc; "a configuration of {count} bytes, of second {soc}")
            }
            _ => format!(in alloc; "a frame of {count} bytes"),
        },
        Err(_) => format!(in alloc; "{count} bytes"),
    }
}

/// One turn, and what was written in it.
fn turn<N: Naming, R: Wait + Print>(
    rt: &R,
    alloc: Global,
    pair: &mut Pair<N>,
    name: &str,
) -> io::Result<()> {
    pair.line.written.clear();
    let answer = pair.consumer.turn(rt, &pair.recent, SOC, &mut pair.line);
    let written = describe(alloc, &pair.line.written)?;
    match answer {
        Ok(()) => println!(rt; "  {name}: {written}"),
        Err(ended) => { println!(rt; "  {name}: {written}, and the session ends: {ended}") }
    }
}

/// A turn in which this command comes.
fn command<N: Naming, R: Wait + Print>(
    rt: &R,
    alloc: Global,
    pair: &mut Pair<N>,
    name: &str,
    command: Command,
) -> io::Result<()> {
    write_command(ID, 0, command, &mut pair.line.input)?;
    turn(rt, alloc, pair, name)
}

/// A new consumer of a concentrator with this output, in its first life.
fn new_pair<N: Naming>(alloc: Global, output: &Output) -> Result<Pair<N>, AllocError>
    requires { N.stream ≡ stream_of output.now }
{
    let recent = Recent::new(alloc, output, 1)?;
    Ok(Pair {
        consumer: Consumer::new(alloc, &recent)?,
        line: Line::new(alloc),
        recent,
    })
}

/// What a consumer asks, and data that is sent meanwhile.
fn play_commands<N: Naming, R: Wait + Print>(
    rt: &R,
    alloc: Global,
    output: &Output,
    pair: &mut Pair<N>,
) -> io::Result<()>
    requires { N.stream ≡ stream_of output.now }
{
    turn(rt, alloc, pair, "nothing came")?;
    command(rt, alloc, pair, "header", Command::SendHeader)?;
    command(rt, alloc, pair, "configuration", Command::SendCfg2)?;
    send_data(rt, alloc, &pair.recent, output, ID, 5)?;
    turn(rt, alloc, pair, "data off")?;
    command(rt, alloc, pair, "data on", Command::DataOn)?;
    send_data(rt, alloc, &pair.recent, output, ID, 6)?;
    send_data(rt, alloc, &pair.recent, output, ID, 7)?;
    turn(rt, alloc, pair, "two more")?;
    turn(rt, alloc, pair, "none more")?;
    command(rt, alloc, pair, "data off", Command::DataOff)?;
    send_data(rt, alloc, &pair.recent, output, ID, 8)?;
    turn(rt, alloc, pair, "data off")?;
    command(rt, alloc, pair, "data on", Command::DataOn)?;
    let got = pair.consumer.got();
    println!(rt; "  got up to {got}")?;
    pair.line.is_ended = true;
    turn(rt, alloc, pair, "closed")
}

/// How a session ends.
#[derive(Clone, Copy)]
enum End {
    /// It is sent what is no command.
    Stranger,
    /// Nothing can be written to it.
    Closed,
    /// Its concentrator has ended.
    Ended,
    /// It is sent a command, and then what is none.
    Both,
}

/// A session that ends so.
fn play_end<N: Naming, R: Wait + Print>(
    rt: &R,
    alloc: Global,
    pair: &mut Pair<N>,
    end: End,
) -> io::Result<()> {
    match end {
        End::Stranger => {
            pair.line.input.extend_from_slice(&[0xAA, 0xAA])?;
            turn(rt, alloc, pair, "AA AA")
        }
        End::Closed => {
            pair.line.is_closed = true;
            command(rt, alloc, pair, "a write fails", Command::SendHeader)
        }
        End::Ended => {
            write_command(ID, 0, Command::SendHeader, &mut pair.line.input)?;
            pair.recent.close(rt);
            turn(rt, alloc, pair, "the concentrator has ended")
        }
        End::Both => {
            write_command(ID, 0, Command::SendHeader, &mut pair.line.input)?;
            pair.line.input.extend_from_slice(&[0xAA, 0xAA])?;
            turn(rt, alloc, pair, "a header is asked for before AA AA")
        }
    }
}

/// A session of this concentrator: what a consumer asks, or an end.
fn play_one<N: Naming, R: Wait + Print>(
    rt: &R,
    alloc: Global,
    output: &Output,
    end: Option<End>,
) -> io::Result<()>
    requires { N.stream ≡ stream_of output.now }
{
    let mut pair = new_pair::<N>(alloc, output)?;
    match end {
        None => play_commands(rt, alloc, output, &mut pair),
        Some(end) => play_end(rt, alloc, &mut pair, end),
    }
}

/// Sessions of a concentrator with this output.
fn play_named<N: Naming, R: Wait + Print>(rt: &R, alloc: Global, output: &Output) -> io::Result<()>
    requires { N.stream ≡ stream_of output.now }
{
    println!(rt; "a session in memory")?;
    play_one::<N, R>(rt, alloc, output, None)?;
    println!(rt; "ends of sessions")?;
    for end in [End::Stranger, End::Closed, End::Ended, End::Both] {
        play_one::<N, R>(rt, alloc, output, Some(end))?;
    }
    Ok(())
}

/// Sessions in memory.
pub fn play<R: Wait + Print>(rt: &R, alloc: Global) -> io::Result<()> {
    play_named::<Brand, R>(rt, alloc, &node_a())
}
