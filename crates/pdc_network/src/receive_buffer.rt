//! The buffer in which the system keeps the datagrams of a port that were not read yet.

use libc::net as c;
use std::net::UdpSocket;
use std::os::fd::AsRawFd;

/// Asks the system for a buffer of so many bytes. What it grants it tells by [`receive_buffer`].
pub(crate) fn set_receive_buffer(socket: &UdpSocket, bytes: u32) {
    let mut value = [0u8; 16];
    value[..4].copy_from_slice(&bytes.to_ne_bytes());
    // The value is a number of 4 bytes, as this option wants it.
    let _refused = unsafe {
        c::setsockopt(socket.as_raw_fd(), c::SOL_SOCKET, c::SO_RCVBUF, &value, 4)
    };
}

/// How many bytes the buffer has, where the system tells it.
pub(crate) fn receive_buffer(socket: &UdpSocket) -> Option<u32> {
    let mut value = [0u8; 16];
    let mut len = 4u32;
    let answered = unsafe {
        c::getsockopt(
            socket.as_raw_fd(),
            c::SOL_SOCKET,
            c::SO_RCVBUF,
            &mut value,
            &mut len,
        )
    };
    match answered {
        0 => Some(u32::from_ne_bytes([value[0], value[1], value[2], value[3]])),
        _ => None,
    }
}
