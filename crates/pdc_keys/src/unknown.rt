//! A key that nothing reads, and where it stands.

use std::fmt;
use std::fmt::{Display, Formatter};

/// A table of a settings text. Those of PMUs and of nodes are counted from 1, in the order of the text.
#[derive(Clone, Copy, Debug, PartialEq, Eq)]
pub enum TableName {
    /// What stands in front of all tables.
    Top,
    /// A table `[[pmu]]`.
    Pmu(usize),
    /// A table `[[node]]`.
    Node(usize),
}

/// A key that nothing reads. It prints as `unknown key "form" in pmu 2 (did you mean "from"?)`.
#[derive(Debug, Drop)]
pub struct UnknownKey {
    /// Where it stands.
    pub table: TableName,
    /// The key.
    pub name: String,
    /// The key that is read there and has the nearest name, where one is near: by at most two edits or a third of its length.
    pub nearest: Option<&'static str>,
}

impl Display for TableName {
    fn fmt<W: fmt::Write>(&self, f: &mut Formatter<W>) -> fmt::Result {
        match self {
            TableName::Top => f.write_str("the settings"),
            TableName::Pmu(number) => write!(f, "pmu {number}"),
            TableName::Node(number) => write!(f, "node {number}"),
        }
    }
}

impl Display for UnknownKey {
    fn fmt<W: fmt::Write>(&self, f: &mut Formatter<W>) -> fmt::Result {
        let name = self.name.as_str();
        match self.table {
            TableName::Top => write!(f, "unknown key \"{name}\"")?,
            table => write!(f, "unknown key \"{name}\" in {table}")?,
        }
        match self.nearest {
            Some(known) => write!(f, " (did you mean \"{known}\"?)"),
            None => Ok(()),
        }
    }
}
