//! Where a running concentrator has its datagrams from, and where it sends its frames, by UDP and TCP; and `pdc listen`, a line of
//! hexadecimal for each datagram that comes to a port.
//!
//! [`UdpSource`] and [`UdpSink`] are a `Source` and a `Sink` of `pdc_ports`, over any [`Receive`] and [`SendTo`], which tell what each call of
//! the system was handed and answered: what was received and is no stranger's is given, once, in order; each frame is handed to its socket
//! once, whole. The system's own sockets (`system`) are trusted to do what they answer. A source pauses after each 64 datagrams. [`listen`]
//! is the whole command over any source and writer: it returns once so many datagrams have come, or at the source's end or first fault.
//!
//! [`Link`] is how a concentrator comes by the frames of a stream: at a UDP port, from anybody or from one address alone, asked for or
//! not; or over a TCP connection, as most PMUs serve it, and as the sessions of a node are. A connection is made by any [`Dial`], and gives
//! the frames of the bytes that were read of its streams, once, in order. One that is lost is no failure: it is told, counted, and made
//! anew. Configurations above a [`CountLimit`] a link leaves out.
#![tactic(auto)]

mod addresses;
mod connection;
mod count_limit;
mod datagrams;
mod destination;
mod dial;
mod inquiry;
mod link;
mod loss;
mod outputs;
mod port;
mod receive;
mod receive_buffer;
mod send_to;
mod streaming;
mod system;
mod udp_sink;
mod udp_source;
mod way;

pub use addresses::Addresses;
pub use connection::Connection;
pub use count_limit::CountLimit;
pub use datagrams::{ListenFault, listen};
pub use destination::Destination;
pub use dial::Dial;
pub use link::Link;
pub use loss::Loss;
pub use outputs::{Outputs, UdpOutputs};
pub use port::Port;
pub use receive::Receive;
pub use send_to::SendTo;
pub use system::TcpDialer;
pub use udp_sink::UdpSink;
pub use udp_source::UdpSource;
