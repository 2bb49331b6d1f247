//! Where the sessions are, out of the settings of the pair.
ghost use Rattle.std.specs.Prelude.{◌<◌, ◌≤◌};
ghost use Rattle.pdc_watch.specs.declared.cell.TheConstants.{MAX_RATE};

use crate::words::WatchCommand;
use pdc_frame::StreamId;
use pdc_life::Timing;
use pdc_settings::{
    Document, MergerSettings, Mistake, Network, NodeSettings, SettingsFault, mistake_in,
};
use pdc_watch::{MAX_RATE, Three};
use std::alloc::Global;
use std::fs::File;
use std::net::{IpAddr, Ipv4Addr, Ipv6Addr, SocketAddr};
use std::rt::Files;
use std::{fs, io};

/// A session: of which stream, and where.
#[derive(Clone, Copy)]
pub struct Session {
    /// The id of the stream.
    pub id: StreamId,
    /// Its frames a second, 1 to 240.
    pub rate: u16,
    /// Where it is served.
    pub to: SocketAddr,
    /// The port of the counters, where they are served on this machine.
    pub metrics: Option<u16>,
    /// How long its instants are held.
    pub timing: Timing,
    pub ghost rate_high: { rate ≤ MAX_RATE },
}

/// Why the settings in a file are not to be used.
#[derive(Drop)]
pub enum LoadFault {
    /// The file cannot be read.
    Unread(io::Error),
    /// The settings are refused.
    Refused(SettingsFault),
    /// Its rate is not that of the file before it.
    OtherRate,
}

/// The text of a file; one that is not UTF-8 is no TOML.
fn text_of<R: Files<File = File> + AllocGlobal>(rt: &R, file: &str) -> Result<String, LoadFault> {
    let bytes = fs::read(rt, file).map_err(LoadFault::Unread)?;
    String::from_utf8(bytes).map_err(|_| LoadFault::Refused(SettingsFault::Toml))
}

/// Where a session is served that listens at this address: one that listens at all addresses is reached by the loopback.
fn reached(address: IpAddr, port: u16) -> SocketAddr {
    if !address.is_unspecified() {
        return SocketAddr::new(address, port);
    }
    let loopback = if address.is_ipv4() {
        IpAddr::from(Ipv4Addr::LOCALHOST)
    } else {
        IpAddr::from(Ipv6Addr::LOCALHOST)
    };
    SocketAddr::new(loopback, port)
}

/// The port of the counters of a concentrator whose session is there: they are served at 127.0.0.1 of its own machine.
fn metrics_of(to: SocketAddr, metrics_port: Option<u16>) -> Option<u16> {
    if to.ip().is_loopback() {
        metrics_port
    } else {
        None
    }
}

/// The session of the node that this text describes.
fn node_session(alloc: Global, text: &str) -> Result<Session, SettingsFault> {
    let document = Document::parse(alloc, text)?;
    let settings = NodeSettings::from_document(&document)?;
    let network = Network::from_document(alloc, &document)?;
    let to = reached(network.address, settings.service.session_port);
    Ok(Session {
        id: settings.life.output.id,
        rate: settings.life.output.rate,
        to,
        metrics: metrics_of(to, network.metrics_port),
        timing: settings.life.timing,
    })
}

/// The session of the merger that this text describes.
fn merger_session(alloc: Global, text: &str) -> Result<Session, SettingsFault> {
    let document = Document::parse(alloc, text)?;
    let settings = MergerSettings::from_document(&document)?;
    let network = Network::from_document(alloc, &document)?;
    let to = reached(network.address, settings.service.session_port);
    Ok(Session {
        id: settings.life.output.id,
        rate: settings.life.output.rate,
        to,
        metrics: metrics_of(to, network.metrics_port),
        timing: settings.life.timing,
    })
}

/// The session of the node in this file.
fn load_node<R: Files<File = File> + AllocGlobal>(
    rt: &R,
    file: &str,
) -> Result<Session, LoadFault> {
    let text = text_of(rt, file)?;
    node_session(rt.alloc(), &text).map_err(LoadFault::Refused)
}

/// The session of the merger in this file.
fn load_merger<R: Files<File = File> + AllocGlobal>(
    rt: &R,
    file: &str,
) -> Result<Session, LoadFault> {
    let text = text_of(rt, file)?;
    merger_session(rt.alloc(), &text).map_err(LoadFault::Refused)
}

/// The session, where it has this rate.
fn at_rate(session: Session, rate: u16) -> Result<Session, LoadFault> {
    if session.rate == rate {
        Ok(session)
    } else {
        Err(LoadFault::OtherRate)
    }
}

/// The session of the node in this file, which has this rate.
fn load_node_at<R: Files<File = File> + AllocGlobal>(
    rt: &R,
    file: &str,
    rate: u16,
) -> Result<Session, LoadFault> {
    at_rate(load_node(rt, file)?, rate)
}

/// The session of the merger in this file, which has this rate.
fn load_merger_at<R: Files<File = File> + AllocGlobal>(
    rt: &R,
    file: &str,
    rate: u16,
) -> Result<Session, LoadFault> {
    at_rate(load_merger(rt, file)?, rate)
}

/// The sessions of the pair.
///
/// # Errors
///
/// The first file of which the settings are not to be used, and why.
pub fn load<'a, R: Files<File = File> + AllocGlobal>(
    rt: &R,
    asked: WatchCommand<'a>,
) -> Result<Three<Session>, (&'a str, LoadFault)> {
    let first = match load_node(rt, asked.first) {
        Ok(session) => session,
        Err(fault) => return Err((asked.first, fault)),
    };
    let second = match load_node_at(rt, asked.second, first.rate) {
        Ok(session) => session,
        Err(fault) => return Err((asked.second, fault)),
    };
    let merger = match load_merger_at(rt, asked.merger, first.rate) {
        Ok(session) => session,
        Err(fault) => return Err((asked.merger, fault)),
    };
    Ok(Three {
        a: first,
        b: second,
        m: merger,
    })
}

/// What is wrong in a file that was refused for this fault. It is read once more for that.
fn mistake_of<R: Files<File = File> + AllocGlobal>(
    rt: &R,
    file: &str,
    fault: SettingsFault,
) -> Mistake {
    match text_of(rt, file) {
        Ok(text) if !text.is_empty() => mistake_in(rt.alloc(), &text, fault),
        _ => Mistake::Fault(fault),
    }
}

/// Prints the file with the reason to standard error: the line, or the key with its table.
pub fn report_load<R: Files<File = File> + AllocGlobal + Eprint>(
    rt: &R,
    file: &str,
    fault: &LoadFault,
) -> io::Result<()> {
    match fault {
        LoadFault::Unread(error) => eprintln!(rt; "pdc watch: {file}: {error}"),
        LoadFault::Refused(fault) => {
            let mistake = mistake_of(rt, file, *fault);
            eprintln!(rt; "pdc watch: {file}: {mistake}")
        }
        LoadFault::OtherRate => {
            eprintln!(rt; "pdc watch: {file}: its rate is not that of node A")
        }
    }
}
