//! The ports at which a concentrator listens, and when two are one.
ghost use Rattle.std.specs.Prelude.{◌≡◌};
ghost use Rattle.pdc_check.specs.Ports.{is_alike, is_any, is_one_address, meeting_of, same_kind};
ghost use Rattle.pdc_check.specs.Ports.{shared, twice};

use crate::finding::Finding;
use crate::misfit::Misfit;
use pdc_settings::TableName;
use std::fmt;
use std::fmt::{Display, Formatter};
use std::net::IpAddr;

/// The key of a port.
#[derive(Clone, Copy, Debug, PartialEq, Eq)]
pub enum PortKey {
    /// `port` in the table of a PMU or of a node.
    Table(TableName),
    /// `session_port`.
    Session,
    /// `metrics_port`.
    Metrics,
}

impl Display for PortKey {
    fn fmt<W: fmt::Write>(&self, f: &mut Formatter<W>) -> fmt::Result {
        match self {
            PortKey::Table(table) => write!(f, "port of {table}"),
            PortKey::Session => f.write_str("session_port"),
            PortKey::Metrics => f.write_str("metrics_port"),
        }
    }
}

/// A port at which it listens.
#[derive(Clone, Copy, Debug)]
pub struct UsedPort {
    /// Its key.
    pub key: PortKey,
    /// It is one of TCP, and else of UDP.
    pub is_tcp: bool,
    /// Its address.
    pub address: IpAddr,
    /// Its number, 1 to 65535.
    pub port: u16,
}

/// Whether the addresses of two ports are one.
#[derive(Clone, Copy, Debug, PartialEq, Eq)]
pub enum Meeting {
    /// They are two.
    Apart,
    /// One is each address of its machine, whichever that is.
    Perhaps,
    /// They are one.
    Same,
}

/// Whether it is each address of its machine, `0.0.0.0` or `::`.
fn is_any(address: IpAddr) -> bool
    ensures { result ≡ is_any address }
{
    match address {
        IpAddr::V4(ip) => ip.octets().iter().all(|byte| *byte == 0),
        IpAddr::V6(ip) => ip.octets().iter().all(|byte| *byte == 0),
    }
}

/// Whether they have the same bytes.
fn is_one_address(one: IpAddr, other: IpAddr) -> bool
    ensures { result ≡ is_one_address one other }
{
    match (one, other) {
        (IpAddr::V4(one), IpAddr::V4(other)) => one.octets() == other.octets(),
        (IpAddr::V4(one), IpAddr::V6(other)) => {
            one.octets().as_slice() == other.octets().as_slice()
        }
        (IpAddr::V6(one), IpAddr::V4(other)) => {
            one.octets().as_slice() == other.octets().as_slice()
        }
        (IpAddr::V6(one), IpAddr::V6(other)) => one.octets() == other.octets(),
    }
}

/// Whether two addresses are one. The loopback of one machine is that of the other only where both are one machine, and they are taken
/// for one: whoever gives several files with it means to run them here.
pub fn meeting_of(one: IpAddr, other: IpAddr) -> Meeting
    ensures { result ≡ meeting_of one other }
{
    if is_any(one) || is_any(other) {
        Meeting::Perhaps
    } else if is_one_address(one, other) {
        Meeting::Same
    } else {
        Meeting::Apart
    }
}

fn same_kind(one: bool, other: bool) -> bool
    ensures { result ≡ same_kind one other }
{
    if one { other } else { !other }
}

/// Whether they are alike, beside their addresses.
fn is_alike(one: &UsedPort, other: &UsedPort) -> bool
    ensures { result ≡ is_alike one.now other.now }
{
    same_kind(one.is_tcp, other.is_tcp) && one.port == other.port
}

/// What is odd about two ports of one concentrator.
pub fn twice(one: &UsedPort, other: &UsedPort, meeting: Meeting) -> Option<Finding>
    ensures { result ≡ twice one.now other.now meeting }
{
    if !is_alike(one, other) {
        return None;
    }
    match meeting {
        Meeting::Apart => None,
        Meeting::Perhaps | Meeting::Same => {
            Some(Finding::PortTwice(one.key, other.key, one.port))
        }
    }
}

/// What does not fit of the ports of two.
pub fn shared(one: &UsedPort, other: &UsedPort, meeting: Meeting) -> Option<Misfit>
    ensures { result ≡ shared one.now other.now meeting }
{
    if !is_alike(one, other) {
        return None;
    }
    match meeting {
        Meeting::Apart => None,
        Meeting::Perhaps => Some(Misfit::PerhapsSamePort(one.key, other.key, one.port)),
        Meeting::Same => Some(Misfit::SamePort(one.key, other.key, one.port)),
    }
}
