//! Connections whose other end is gone, or takes nothing.
ghost use Rattle.libc.specs.Net.{SockOption};

use libc::net as c;
use std::os::fd::AsRawFd;

/// After how many seconds without a byte the other end is asked whether it is there; how often then, in seconds, and how many times.
const ASKED_AFTER: u32 = 10;

const ASKED_EVERY: u32 = 5;

const MOST_ASKED: u32 = 3;

/// How long bytes may wait until the other end takes some of them, in milliseconds.
const TAKEN_WITHIN: u32 = 10_000;

/// Sets an option of a connection to a number. Where the system refuses it, it stays as it is.
fn set<S: AsRawFd>(stream: &S, level: i32, name: i32, number: u32)
    requires option { SockOption level name }
{
    let mut value = [0u8; 16];
    value[..4].copy_from_slice(&number.to_ne_bytes());
    // The value is a number of 4 bytes, as these options want it.
    let _refused = unsafe { c::setsockopt(stream.as_raw_fd(), level, name, &value, 4) };
}

/// Lets the system end a connection whose other end does not answer for 25 seconds, or takes nothing for ten seconds of what was written: its
/// next read or write fails.
pub fn end_if_gone<S: AsRawFd>(stream: &S) {
    set(stream, c::SOL_SOCKET, c::SO_KEEPALIVE, 1);
    set(stream, c::IPPROTO_TCP, c::TCP_KEEPIDLE, ASKED_AFTER);
    set(stream, c::IPPROTO_TCP, c::TCP_KEEPINTVL, ASKED_EVERY);
    set(stream, c::IPPROTO_TCP, c::TCP_KEEPCNT, MOST_ASKED);
    set(stream, c::IPPROTO_TCP, c::TCP_USER_TIMEOUT, TAKEN_WITHIN);
}
