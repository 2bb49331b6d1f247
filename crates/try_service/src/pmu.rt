//! A simulated PMU.

use crate::network::next_datagram;
use pdc_frame::{Kind, StreamId, instant, read_frame};
use pdc_simulation::{Simulated, Target, simulate};
use std::alloc::Global;
use std::io;
use std::net::UdpSocket;

/// The rate of the simulated PMU, and the counts of FRACSEC in a second.
const RATE: u16 = 50;

const TIME_BASE: u32 = 1_000_000;

/// Prints what a datagram of the PMU is, and answers its instant, if it is data.
fn print_frame<R: Print>(rt: &R, bytes: &[u8], before: Option<u64>) -> io::Result<Option<u64>> {
    let Ok(frame) = read_frame(bytes) else {
        println!(rt; "  no frame")?;
        return Ok(None);
    };
    match frame.kind {
        Kind::Cfg2 => {
            println!(rt; "  a configuration")?;
            Ok(None)
        }
        _ => {
            let now = instant(frame.soc, frame.frac, TIME_BASE, u32::from(RATE));
            let is_next = match (before, now) {
                (Some(before), Some(now)) => before.checked_add(1) == Some(now),
                _ => before.is_none() && now.is_some(),
            };
            let (high, low) = (
                frame.payload.get(2).copied().unwrap_or(0),
                frame.payload.get(3).copied().unwrap_or(0),
            );
            let phasor = u16::from_be_bytes([high, low]);
            println!(rt; "  data with phasor {phasor}, one instant after the other: {is_next}")?;
            Ok(now)
        }
    }
}

/// One configuration and three data frames, sent to the port of this socket.
pub fn play(rt: &HostRuntime, alloc: Global, port: u16, socket: &UdpSocket) -> io::Result<()> {
    println!(rt; "a simulated PMU")?;
    let simulated = Simulated {
        id: StreamId { value: 11 },
        rate: RATE,
        count: 3,
        places: &[Target::Port(port)],
        tcp: None,
        config_every: None,
        is_grid: false,
    };
    if let Err(fault) = simulate(rt, alloc, &simulated) {
        println!(rt; "  {fault}")?;
    }
    let mut before = None;
    for _ in 0..4u32 {
        let bytes = next_datagram(alloc, socket)?;
        before = print_frame(rt, &bytes, before)?;
    }
    Ok(())
}
