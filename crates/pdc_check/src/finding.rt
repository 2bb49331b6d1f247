//! What is odd in the settings of one concentrator.
ghost use Rattle.std.specs.Prelude.{◌≡◌};
ghost use Rattle.pdc_check.specs.Levels.{level_of_finding};

use crate::port::PortKey;
use pdc_settings::TableName;
use thiserror::Error;

/// How serious it is.
#[derive(Clone, Copy, Debug, PartialEq, Eq)]
pub enum Level {
    /// It does not run, or not as intended.
    Error,
    /// It runs, and may not be intended.
    Warning,
    /// It is worth knowing.
    Note,
}

/// What is odd in the settings of one concentrator. Each prints as its key and what is so.
#[derive(Clone, Copy, Debug, PartialEq, Eq, Error)]
pub enum Finding {
    /// No instants are reserved ahead.
    #[error("lead: 0, so each frame waits for three syncs of the disk; the usual value is the rate")]
    NoLead,
    /// The port of this table accepts datagrams from anyone.
    #[error("from of {0}: missing, so anyone who can send to port {1} can pass for it")]
    Open(TableName, u16),
    /// Two keys have one port.
    #[error("{1}: {2} is also the {0}")]
    PortTwice(PortKey, PortKey, u16),
}

impl Finding {
    /// How serious it is.
    pub fn level(self) -> Level
        ensures { result ≡ level_of_finding self }
    {
        match self {
            Finding::NoLead | Finding::Open(..) => Level::Warning,
            Finding::PortTwice(..) => Level::Error,
        }
    }
}
