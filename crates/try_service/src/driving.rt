//! What PMUs and consumers of a node do over the loopback, and what comes of it.

use crate::network::{connect, is_ended, next_datagram, send};
use pdc_cfg::read_config;
use pdc_frame::{StreamId, read_frame};
use pdc_session::{ClientFault, Pdc};
use std::alloc::Global;
use std::io::Write;
use std::net::{Net, TcpStream, UdpSocket};
use std::rt::Clock;
use std::time::Duration;
use std::{io, thread};

/// The stream of node A.
const ID: StreamId = StreamId { value: 201 };

/// The configurations of PMU 11 and of PMU 12: one phasor, count 1.
const CONFIG_11: &str =
    "aa32004a000b448527f000000000000f42400001504d5520313120202020202020202020000b000000010000000056412020202020202020202020202020000df847000100010032c2ce";

const CONFIG_12: &str =
    "aa32004a000c448527f000000000000f42400001504d5520313220202020202020202020000c000000010000000056412020202020202020202020202020000df847000100010032c29b";

/// Their data for the instant 57478860001.
const DATA_11: &str = "aa02001a000b448527f000004e200000392b000009c400002623";

const DATA_12: &str = "aa02001a000c448527f000004e2000001388ec78fffe0000ce65";

/// How often the configuration is asked for until it shows both PMUs.
const TRIES: u32 = 1000;

/// How many sections a configuration frame has; 0 where it is none.
fn section_count(bytes: &[u8]) -> usize {
    match read_frame(bytes) {
        Ok(frame) => match read_config(&frame) {
            Ok(config) => config.sections.len(),
            Err(_) => 0,
        },
        Err(_) => 0,
    }
}

/// Asks for the configuration until it shows both PMUs.
fn await_config<R: Clock>(
    rt: &R,
    alloc: Global,
    pdc: &mut Pdc<TcpStream>,
) -> Result<Vec<u8>, ClientFault> {
    for _ in 0..TRIES {
        let config = pdc.get_config(alloc)?;
        if section_count(&config) == 3 {
            return Ok(config);
        }
        thread::sleep(rt, Duration::from_millis(1));
    }
    Err(ClientFault::NoAnswer)
}

/// Prints how a call of the client was answered.
fn print_answer<R: Print>(
    rt: &R,
    alloc: Global,
    name: &str,
    answer: Result<Vec<u8>, ClientFault>,
) -> io::Result<()> {
    match answer {
        Ok(bytes) => print_bytes(rt, alloc, name, &bytes),
        Err(fault) => println!(rt; "  {name}: {fault}"),
    }
}

/// Prints few bytes in hexadecimal, and many by their number.
fn print_bytes<R: Print>(rt: &R, alloc: Global, name: &str, bytes: &[u8]) -> io::Result<()> {
    let count = bytes.len();
    if count > 100 {
        return println!(rt; "  {name}: {count} bytes");
    }
    let text = hex::encode_upper(alloc, bytes)?;
    println!(rt; "  {name}: {text}")
}

/// Prints whether a call of the client was done.
fn print_done<R: Print>(rt: &R, name: &str, answer: Result<(), ClientFault>) -> io::Result<()> {
    match answer {
        Ok(()) => println!(rt; "  {name}: done"),
        Err(fault) => println!(rt; "  {name}: {fault}"),
    }
}

/// What a consumer asks before the data comes.
fn ask<R: Clock + Print>(rt: &R, alloc: Global, pdc: &mut Pdc<TcpStream>) -> io::Result<()> {
    match pdc.get_header(alloc) {
        Ok(text) => {
            let text = std::str::from_utf8(&text).unwrap_or("no text");
            println!(rt; "  header: {text}")?;
        }
        Err(fault) => println!(rt; "  header: {fault}")?,
    }
    print_answer(rt, alloc, "configuration", await_config(rt, alloc, pdc))
}

/// The PMUs send their configurations, and a layout comes to the port of the frames.
fn configure<R: Print>(
    rt: &R,
    alloc: Global,
    pmus: &UdpSocket,
    port: u16,
    frames: &UdpSocket,
) -> io::Result<()> {
    send(alloc, pmus, CONFIG_11, port)?;
    send(alloc, pmus, CONFIG_12, port.saturating_add(1))?;
    let layout = next_datagram(alloc, frames)?;
    print_bytes(rt, alloc, "layout", &layout)
}

/// The PMUs send their data, and a frame comes.
fn send_data<R: Print>(
    rt: &R,
    alloc: Global,
    pmus: &UdpSocket,
    port: u16,
    frames: &UdpSocket,
) -> io::Result<()> {
    send(alloc, pmus, DATA_11, port)?;
    send(alloc, pmus, DATA_12, port.saturating_add(1))?;
    let frame = next_datagram(alloc, frames)?;
    print_bytes(rt, alloc, "frame", &frame)
}

/// What a consumer gets once the data is on.
fn fetch<R: Print>(rt: &R, alloc: Global, pdc: &mut Pdc<TcpStream>) -> io::Result<()> {
    print_done(rt, "start", pdc.start())?;
    print_answer(rt, alloc, "data", pdc.get(alloc))?;
    print_done(rt, "stop", pdc.stop())
}

/// A consumer asks, and gets the data that the PMUs send.
fn consume<R: Net<Stream = TcpStream> + Clock + Print>(
    rt: &R,
    alloc: Global,
    pmus: &UdpSocket,
    port: u16,
    frames: &UdpSocket,
) -> io::Result<()> {
    let stream = connect(rt, port.saturating_add(3))?;
    let mut pdc = Pdc::new(alloc, ID, stream)?;
    ask(rt, alloc, &mut pdc)?;
    send_data(rt, alloc, pmus, port, frames)?;
    fetch(rt, alloc, &mut pdc)?;
    let (stream, answer) = pdc.quit();
    drop(stream);
    print_done(rt, "quit", answer)
}

/// A consumer sends what is no command.
fn misbehave<R: Net<Stream = TcpStream> + Print>(rt: &R, port: u16) -> io::Result<()> {
    let mut stranger = connect(rt, port.saturating_add(3))?;
    stranger.write_all(&[0xAA, 0xAA])?;
    let ended = is_ended(&mut stranger);
    println!(rt; "  AA AA ends the session: {ended}")
}

/// What the PMUs send, and what comes of it at the port of the frames and at a consumer.
pub fn drive<R: Net<Stream = TcpStream> + Clock + Print>(
    rt: &R,
    alloc: Global,
    port: u16,
    frames: &UdpSocket,
) -> io::Result<()> {
    let pmus = UdpSocket::bind(rt, ("127.0.0.1", 0u16))?;
    configure(rt, alloc, &pmus, port, frames)?;
    consume(rt, alloc, &pmus, port, frames)?;
    misbehave(rt, port)
}
