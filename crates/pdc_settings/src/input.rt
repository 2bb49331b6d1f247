//! How the frames of a stream come.

use std::net::IpAddr;

/// How the frames of a stream come, beside the port in its table. Each key may be left out.
#[derive(Debug, Drop)]
pub struct Input {
    /// Where the stream is asked for over TCP, as `HOST:PORT`; then it comes from there, and to no port.
    pub tcp: Option<String>,
    /// Where the stream is asked for by UDP, as `HOST:PORT`; left out, it is not asked for.
    pub commands: Option<String>,
    /// The address that its datagrams come from; left out, any.
    pub from: Option<IpAddr>,
    /// The greatest count that its configurations may have, 1 to 65535; left out, any.
    pub most_count: Option<u16>,
}
