//! What the settings of a node or the merger name is opened: a link to the sender of each stream, the outputs of its frames, and the
//! listeners of its sessions and of its counters.
//!
//! [`Sockets`] is where sockets are had from, and may tell of each for what it was opened. Over any of them this crate promises the layer
//! above that the links are those of the settings, in their order ([`open_links`]): each at the port of its stream, at the network's address,
//! with the network's buffer, and of the sender that its table names; that frames go to the destinations of the settings
//! ([`open_outputs`]); and that the listeners are at the ports that these name ([`open_listener`], [`open_metrics`]). The system's own
//! ([`SystemSockets`]) is trusted to open what it is asked for.
#![tactic(auto)]

mod concentrator;
mod fault;
mod links;
mod listeners;
mod outputs;
mod places;
mod silent;
mod sockets;
mod system;

pub use concentrator::Concentrator;
pub use fault::OpenFault;
pub use links::{Tallies, open_links};
pub use listeners::{open_listener, open_metrics};
pub use outputs::open_outputs;
pub use pdc_network::{Link, Outputs, Receive, TcpDialer, UdpOutputs};
pub use sockets::Sockets;
pub use system::SystemSockets;
