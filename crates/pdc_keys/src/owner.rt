//! Whose a key is, and in which tables it is read.
ghost use Rattle.std.specs.Prelude.{◌≡◌};
ghost use Rattle.pdc_keys.specs.Table.{stands_in};

use std::fmt;
use std::fmt::{Display, Formatter};

/// Whose key it is.
#[derive(Clone, Copy, Debug, PartialEq, Eq)]
pub enum Owner {
    /// The settings': it stands in front of all tables.
    Settings,
    /// A PMU's: it stands in a table `[[pmu]]` of a node.
    Pmu,
    /// A PMU's as well: it stands in a table `[[pmu]]` of a node and of the merger.
    EachPmu,
    /// A node's: it stands in a table `[[node]]`.
    Node,
    /// A stream's: it stands in a table of a merger's node or of a node's PMU.
    Stream,
}

/// A kind of table, by the keys that are read there.
#[derive(Clone, Copy)]
pub(crate) enum KeyTable {
    /// What stands in front of all tables.
    Top,
    /// A table `[[pmu]]` of a node.
    NodePmu,
    /// A table `[[node]]`, which the merger has,
    MergedNode,
    /// and a table `[[pmu]]` of the merger.
    MergedPmu,
}

impl Owner {
    /// Whether such a key is read in a table of this kind.
    pub(crate) fn stands_in(self, table: KeyTable) -> bool
        ensures { result ≡ stands_in table self }
    {
        match self {
            Owner::Settings => match table {
                KeyTable::Top => true,
                KeyTable::NodePmu | KeyTable::MergedNode | KeyTable::MergedPmu => false,
            },
            Owner::Pmu => match table {
                KeyTable::NodePmu => true,
                KeyTable::Top | KeyTable::MergedNode | KeyTable::MergedPmu => false,
            },
            Owner::EachPmu => match table {
                KeyTable::NodePmu | KeyTable::MergedPmu => true,
                KeyTable::Top | KeyTable::MergedNode => false,
            },
            Owner::Node => match table {
                KeyTable::MergedNode => true,
                KeyTable::Top | KeyTable::NodePmu | KeyTable::MergedPmu => false,
            },
            Owner::Stream => match table {
                KeyTable::NodePmu | KeyTable::MergedNode => true,
                KeyTable::Top | KeyTable::MergedPmu => false,
            },
        }
    }
}

impl Owner {
    /// The tables in which such a key stands, behind its name in the manual.
    pub(crate) fn table(self) -> &'static str {
        match self {
            Owner::Settings => "",
            Owner::Pmu | Owner::EachPmu => " of [[pmu]]",
            Owner::Node => " of [[node]]",
            Owner::Stream => " of both",
        }
    }
}

impl Display for Owner {
    fn fmt<W: fmt::Write>(&self, f: &mut Formatter<W>) -> fmt::Result {
        f.write_str(match self {
            Owner::Settings => "",
            Owner::Pmu | Owner::EachPmu => " of a pmu",
            Owner::Node => " of a node",
            Owner::Stream => " of a pmu or node",
        })
    }
}
