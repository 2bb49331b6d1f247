//! What of the settings of two concentrators does not fit.
ghost use Rattle.std.specs.Prelude.{◌≡◌};
ghost use Rattle.pdc_check.specs.Levels.{level_of_misfit};

use crate::finding::Level;
use crate::port::PortKey;
use pdc_settings::TableName;
use thiserror::Error;

/// What of the settings of one concentrator does not fit those of another. Each prints as its key and what is so; the name of the other
/// file is wanted behind it.
#[derive(Clone, Copy, Debug, PartialEq, Eq, Error)]
pub enum Misfit {
    /// Both publish under one id.
    #[error("id: {0} is also the id in")]
    SameId(u16),
    /// It publishes under the id of one of the other's sources.
    #[error("id: {0} is the id of a source in")]
    IdOfSource(u16),
    /// The mark beside it is of another id: its own, and the mark's.
    #[error("id: {0}, but {1} in")]
    OtherOwner(u16, u16),
    /// They have other rates: this one's, and the other's.
    #[error("rate: {0}, but {1} in")]
    OtherRate(u16, u16),
    /// Both have one port of one address.
    #[error("{0}: {2} is also the {1} in")]
    SamePort(PortKey, PortKey, u16),
    /// Both have one port, if they are on one machine.
    #[error("{0}: if both run on one machine, {2} is also the {1} in")]
    PerhapsSamePort(PortKey, PortKey, u16),
    /// The merger takes no node of its id.
    #[error("id: {0} is not the id of a node in")]
    NotMerged(u16),
    /// The merger has another TIME_BASE for this node: the node's, and the one that the merger has.
    #[error("time_base: {0}, but {1} for {2} in")]
    OtherTimeBase(u32, u32, TableName),
    /// Its frames go to another port than the merger takes them at.
    #[error("outputs: none goes to port {0}, the port of {1} in")]
    NotSent(u16, TableName),
    /// Its sessions are at another port than the merger asks at.
    #[error("session_port: {0}, but {1} in tcp of {2} in")]
    NotServed(u16, u16, TableName),
    /// Its sources are not those of the merger, or in another order.
    #[error("source: the PMUs' sources are not, in this order, among the sources in")]
    OtherSources,
    /// The merger waits less long than its node: its own wait, and the node's.
    #[error("wait: {0}, less than the {1} in")]
    ShortWait(u64, u64),
    /// Of two blocks of a PMU the merger sends this node's.
    #[error("node: if both nodes have data of a PMU, the merger sends that of node {0}, set up in")]
    Preferred(u16),
}

impl Misfit {
    /// How serious it is.
    pub fn level(self) -> Level
        ensures { result ≡ level_of_misfit self }
    {
        match self {
            Misfit::Preferred(_) => Level::Note,
            Misfit::ShortWait(..) | Misfit::PerhapsSamePort(..) => Level::Warning,
            _ => Level::Error,
        }
    }
}
