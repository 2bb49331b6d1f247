//! Why something was not opened.

use std::io;
use std::net::SocketAddr;

/// Why something that the settings name was not opened.
#[derive(Debug, Drop)]
pub enum OpenFault {
    /// The port at this address cannot be opened.
    Port(SocketAddr, io::Error),
    /// The further destination with this number, counted from 1, is not known, or no socket can be opened for it.
    Output(usize, io::Error),
    /// The place where the stream with this id is asked for is not known.
    Input(u16, io::Error),
    /// Memory ran out.
    NoMemory,
}
