//! Why a node or the merger did not run to its end.
ghost use Rattle.std.specs.Prelude.{◌≡◌};
ghost use Rattle.pdc_sockets.specs.Faults.{IsOfLinks, IsOfOutputs, IsOfPort};
ghost use Rattle.pdc_startup.specs.Faults.{IsOfListener, IsOfSink, IsOfSources};
ghost use Rattle.pdc_startup.specs.Status.{status_of, status_of_load};

use pdc_hub::HubFault;
use pdc_mark::MarkFault;
use pdc_settings::SettingsFault;
use pdc_sockets::OpenFault;
use std::fmt::{Display, Formatter, Write};
use std::net::SocketAddr;
use std::{fmt, io};
use thiserror::Error;

/// Why there are no settings in a file. Each prints as its code and its name, or as `device fault`.
#[derive(Debug, Drop, Error)]
pub enum LoadFault {
    /// The file cannot be read.
    #[error("device fault")]
    Unread(io::Error),
    /// It is no settings.
    #[error("{0}")]
    Refused(SettingsFault),
}

/// Why a node or the merger did not run to its end. Each prints as its code and its name, or as `device fault`.
#[derive(Debug, Drop)]
pub enum ServiceFault {
    /// There are no settings in the settings file.
    Settings(LoadFault),
    /// The mark file cannot be opened.
    MarkUnopened(io::Error),
    /// Another process has the mark file.
    MarkInUse,
    /// The mark file is refused, or no start can be stored.
    Mark(MarkFault),
    /// The port at this address cannot be opened.
    Port(SocketAddr, io::Error),
    /// The further destination with this number, counted from 1, is not known, or no socket can be opened for it.
    Output(usize, io::Error),
    /// A new file of the record cannot be made or written.
    Record(io::Error),
    /// The place where the stream with this id is asked for is not known.
    Input(u16, io::Error),
    /// The run ended by a fault.
    Run(HubFault),
    /// The run ended since the clock could not be read.
    Clock,
}

impl Display for ServiceFault {
    fn fmt<W: Write>(&self, f: &mut Formatter<W>) -> fmt::Result {
        match self {
            ServiceFault::Settings(fault) => fault.fmt(f),
            ServiceFault::Mark(fault) => fault.fmt(f),
            ServiceFault::Run(fault) => fault.fmt(f),
            _ => f.write_str("device fault"),
        }
    }
}

impl std::error::Error for ServiceFault {}

/// The fault of a startup in which something was not opened for this cause.
pub(crate) fn unopened(fault: OpenFault) -> ServiceFault
    ensures links { IsOfLinks fault → IsOfSources result }
    ensures outputs { IsOfOutputs fault → IsOfSink result }
    ensures port { IsOfPort fault → IsOfListener result }
{
    match fault {
        OpenFault::Port(at, error) => ServiceFault::Port(at, error),
        OpenFault::Output(number, error) => ServiceFault::Output(number, error),
        OpenFault::Input(id, error) => ServiceFault::Input(id, error),
        OpenFault::NoMemory => ServiceFault::Run(HubFault::NoMemory),
    }
}

/// The exit status of input that was refused.
const REFUSED: u8 = 1;

/// The exit status where a device failed or memory ran out.
const FAILED: u8 = 3;

impl LoadFault {
    /// The exit status: 1 where the settings are refused, 3 where the file cannot be read or memory ran out.
    pub fn status(&self) -> u8
        ensures { result ≡ status_of_load self.now }
    {
        match self {
            LoadFault::Unread(_) | LoadFault::Refused(SettingsFault::NoMemory) => FAILED,
            LoadFault::Refused(_) => REFUSED,
        }
    }
}

impl ServiceFault {
    /// The exit status: 1 where settings or mark are refused, 3 where a device failed or memory ran out.
    pub fn status(&self) -> u8
        ensures { result ≡ status_of self.now }
    {
        match self {
            ServiceFault::Settings(fault) => fault.status(),
            ServiceFault::Mark(MarkFault::Device) => FAILED,
            ServiceFault::Mark(_) => REFUSED,
            ServiceFault::MarkUnopened(_)
            | ServiceFault::MarkInUse
            | ServiceFault::Port(..)
            | ServiceFault::Output(..)
            | ServiceFault::Input(..)
            | ServiceFault::Record(_)
            | ServiceFault::Run(_)
            | ServiceFault::Clock => FAILED,
        }
    }
}
