//! Datagrams that the system dropped, since the buffer of their port was full.

use crate::families::{Family, append_at_port, append_head};
use crate::own_files::{OwnFiles, text_of};
use pdc_journal::Of;
use std::alloc::{AllocError, Global};
use std::fmt::Write;
use std::net::{IpAddr, SocketAddr};

const DROPPED: Family = Family {
    name: "pdc_datagrams_dropped_total",
    is_counter: true,
    help: "Datagrams that the system dropped at the port, since its buffer was full.",
};

/// The tables of the system's sockets (proc(5)).
const TABLE: &str = "/proc/net/udp";

const TABLE_6: &str = "/proc/net/udp6";

/// A stream that comes to a port, and where that is.
#[derive(Clone, Copy, Debug)]
pub struct StreamPort {
    /// Whose stream it is.
    pub of: Of,
    /// The address and the port.
    pub at: SocketAddr,
}

/// Appends four bytes as the system's tables have them: as a number of this machine, in eight hexadecimal digits.
fn append_word(bytes: [u8; 4], text: &mut String) -> Result<(), AllocError> {
    let word = u32::from_ne_bytes(bytes);
    write!(text, "{word:08X}")
}

/// An address and a port as the system's tables have them, `0100007F:1A85`.
fn local_text(alloc: Global, at: SocketAddr) -> Result<String, AllocError> {
    let mut text = String::new(alloc);
    match at.ip() {
        IpAddr::V4(ip) => append_word(ip.octets(), &mut text)?,
        IpAddr::V6(ip) => {
            let octets = ip.octets();
            for bytes in octets.as_chunks::<4>().0 {
                append_word(*bytes, &mut text)?;
            }
        }
    }
    let port = at.port();
    write!(text, ":{port:04X}")?;
    Ok(text)
}

/// How many datagrams the system dropped at the socket with this address, by a line of its table: the last column, where the second one is
/// the address.
fn drops_in(line: &str, local: &str) -> Option<u64> {
    let mut words = line.split_whitespace();
    let _number = words.next()?;
    if words.next()? != local {
        return None;
    }
    match words.last() {
        Some(word) => word.parse::<u64>().ok(),
        None => None,
    }
}

/// How many datagrams the system dropped at the socket with this address, by its table; none where the table does not have it.
fn drops_at(table: &str, local: &str) -> Option<u64> {
    for line in table.lines() {
        if let Some(drops) = drops_in(line, local) {
            return Some(drops);
        }
    }
    None
}

/// Appends how many datagrams the system dropped at each port, where it tells it.
pub fn append_dropped<R: OwnFiles>(
    rt: &R,
    alloc: Global,
    ports: &[StreamPort],
    text: &mut String,
) -> Result<(), AllocError> {
    let Some(first) = ports.first() else {
        return Ok(());
    };
    let table = match first.at.ip() {
        IpAddr::V4(_) => text_of(rt, TABLE),
        IpAddr::V6(_) => text_of(rt, TABLE_6),
    };
    let Some(table) = table else {
        return Ok(());
    };
    append_head(DROPPED, text)?;
    for port in ports {
        let local = local_text(alloc, port.at)?;
        if let Some(drops) = drops_at(table.as_str(), local.as_str()) {
            append_at_port(DROPPED, port.of, port.at.port(), drops, text)?;
        }
    }
    Ok(())
}
