//! Where a concentrator is on the network.
ghost use Rattle.std.specs.Prelude.{◌≤◌};
ghost use Rattle.pdc_settings.specs.Limits.{MAX_SESSIONS};

use crate::input::Input;
use std::net::IpAddr;

/// Where a concentrator is on the network. Each key may be left out of its settings.
#[derive(Debug, Drop)]
pub struct Network {
    /// The address that data comes to, and where consumers are served; left out, 127.0.0.1.
    pub address: IpAddr,
    /// Further destinations of each frame, each as `HOST:PORT`, at most 8.
    pub outputs: Vec<String>,
    /// How many hops a frame to a group of receivers takes, 1 to 255; left out, 1.
    pub ttl: u8,
    /// The bytes of the buffer of each port that data comes to, 1 to 1073741824; left out, 4194304.
    pub receive_buffer: u32,
    /// How many consumers are served at once, 1 to 64; left out, 8.
    pub sessions: u8,
    /// The TCP port of 127.0.0.1 at which counters are served, 1 to 65535; left out, they are not.
    pub metrics_port: Option<u16>,
    /// How the frames of each stream come, in the order of the tables of PMUs, or of nodes.
    pub inputs: Vec<Input>,
    pub ghost sessions_low: { 1 ≤ sessions },
    pub ghost sessions_high: { sessions ≤ MAX_SESSIONS },
}
