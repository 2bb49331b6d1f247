//! What of the settings of a concentrator has to fit those of others.

use crate::port::UsedPort;
use pdc_settings::TableName;

/// A stream that a concentrator takes: a PMU's, or a node's.
#[derive(Clone, Copy, Debug)]
pub struct Stream {
    /// The table of it.
    pub table: TableName,
    /// The id of the stream.
    pub id: u16,
    /// The counts of FRACSEC in a second.
    pub time_base: u32,
    /// The UDP port that it comes to; 0 where it is asked for over TCP.
    pub port: u16,
    /// The port of the place where it is asked for over TCP; 0 where it is not.
    pub asked_at: u16,
    /// Datagrams of one address alone are read.
    pub is_from_one: bool,
}

/// What of the settings of a node or of the merger has to fit those of others.
#[derive(Debug, Drop)]
pub struct Outline {
    /// It is the merger.
    pub is_merger: bool,
    /// The id of the stream that it publishes.
    pub id: u16,
    /// Frames in a second.
    pub rate: u16,
    /// The counts of FRACSEC in a second of what it publishes.
    pub time_base: u32,
    /// How long an instant waits.
    pub wait: u64,
    /// The instants that are reserved ahead.
    pub lead: u16,
    /// The TCP port of its sessions.
    pub session_port: u16,
    /// The ids of the PMUs' sources, in their order.
    pub sources: Vec<u16>,
    /// The streams that it takes, in their order: the PMUs' of a node, both nodes' of the merger.
    pub streams: Vec<Stream>,
    /// The ports at which it listens.
    pub ports: Vec<UsedPort>,
    /// The UDP ports that its frames go to, at whatever address.
    pub sent_to: Vec<u16>,
}
