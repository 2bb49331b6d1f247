//! The command `listen`.

use crate::complaint::{complain, complain_at, complain_of, local_port, print_fault};
use crate::{DONE, FAILED};
use pdc_command_line::Listen;
use pdc_network::{ListenFault, UdpSource, listen};
use std::io;
use std::io::{BufWriter, ErrorKind};
use std::net::Net;
use std::sync::Wait;

/// Prints what comes to the source.
fn print_datagrams<R: AllocGlobal + Print + Wait>(
    rt: &R,
    source: &mut UdpSource,
    count: Option<u32>,
) -> Result<(), ListenFault> {
    let alloc = rt.alloc();
    let mut writer = BufWriter::new(alloc, io::writer(rt)).map_err(|_| ListenFault::NoMemory)?;
    listen(rt, alloc, source, count, &mut writer)
}

/// Prints the fault to standard error, and on a second line the port or the reason.
fn report_listen(rt: &impl Eprint, fault: &ListenFault, port: u16) -> io::Result<()> {
    print_fault(rt, fault)?;
    match fault {
        ListenFault::Source => {
            let port = local_port("UDP ", port);
            complain_at(rt, "listen", &port, &"nothing can be read")
        }
        ListenFault::Write(error) => complain_of(rt, "listen", "the output", error),
        ListenFault::NoMemory => complain(rt, "listen", "it ended early"),
    }
}

/// Prints what comes to the source, and answers the exit status.
fn listen_to<R: AllocGlobal + Print + Eprint + Wait>(
    rt: &R,
    source: &mut UdpSource,
    asked: &Listen,
) -> io::Result<u8> {
    match print_datagrams(rt, source, asked.count) {
        Ok(()) => Ok(DONE),
        // whoever read the lines has read enough
        Err(ListenFault::Write(error)) if error.kind() == ErrorKind::BrokenPipe => Ok(DONE),
        Err(fault) => {
            report_listen(rt, &fault, asked.port)?;
            Ok(FAILED)
        }
    }
}

/// Prints the datagrams that come to a port, and answers the exit status.
pub fn run_listen_command<R: AllocGlobal + Net + Print + Eprint + Wait>(
    rt: &R,
    asked: &Listen,
) -> io::Result<u8> {
    match UdpSource::open(rt, asked.port) {
        Ok(mut source) => listen_to(rt, &mut source, asked),
        Err(error) => {
            print_fault(rt, &"device fault")?;
            complain_at(rt, "listen", &local_port("UDP ", asked.port), &error)?;
            Ok(FAILED)
        }
    }
}
