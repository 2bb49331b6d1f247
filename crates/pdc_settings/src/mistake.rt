//! What is wrong in a text of settings, told to who wrote it.
ghost use Rattle.std.specs.Prelude.{◌≡◌};
ghost use Rattle.toml.specs.Data.{get_member};
ghost use Rattle.toml.specs.View.{table_view};
ghost use Rattle.pdc_keys.specs.Table.{name_of};
ghost use Rattle.pdc_settings.specs.Mistake.{at_top};

use crate::document::is_merger;
use crate::doubled::Doubled;
use crate::fault::SettingsFault;
use crate::lacking::{first_lacking, has_key, tables_of};
use crate::numbers::{doubled_id, doubled_port};
use pdc_keys::{Owner, TableName, Wanted, value_at};
use std::alloc::Global;
use std::fmt;
use std::fmt::{Display, Formatter};
use toml::Table;

/// What is wrong in a text of settings, where something is. Each prints as one line.
#[derive(Clone, Copy, Debug)]
pub enum Mistake {
    /// It is no TOML: in this line, counted from 1, for the reason that the error has.
    NoToml(usize, toml::de::Error),
    /// This key of this table must stand, and is missing.
    Missing(TableName, Wanted),
    /// What stands at this key of this table is of another type, or out of its range.
    OutOfRange(TableName, Wanted),
    /// Two numbers are the same that must differ.
    Same(Doubled),
    /// It was not found again, for want of memory, or since the text is another than the one that was refused.
    Fault(SettingsFault),
}

/// A key, and the table in which it stands, if it stands in one.
fn write_key<W: fmt::Write>(f: &mut Formatter<W>, table: TableName, key: &str) -> fmt::Result {
    match table {
        TableName::Top => f.write_str(key),
        table => write!(f, "{key} of {table}"),
    }
}

/// Where no more is known than the fault.
fn write_fault<W: fmt::Write>(f: &mut Formatter<W>, fault: &SettingsFault) -> fmt::Result {
    match fault {
        SettingsFault::Toml => f.write_str("it is no TOML"),
        SettingsFault::Range(wanted) => wanted.fmt(f),
        SettingsFault::DoubledId => f.write_str("two ids are the same that must differ"),
        SettingsFault::NoMemory => f.write_str("it cannot be read"),
    }
}

impl Display for Mistake {
    fn fmt<W: fmt::Write>(&self, f: &mut Formatter<W>) -> fmt::Result {
        match self {
            Mistake::NoToml(line, error) => {
                let reason = error.message();
                write!(f, "line {line}: it is no TOML: {reason}")
            }
            Mistake::Missing(table, wanted) => {
                write_key(f, *table, wanted.key())?;
                let range = wanted.range();
                write!(f, ": missing, must be {range}")
            }
            Mistake::OutOfRange(table, wanted) => {
                write_key(f, *table, wanted.key())?;
                let range = wanted.range();
                write!(f, ": must be {range}")
            }
            Mistake::Same(doubled) => doubled.fmt(f),
            Mistake::Fault(fault) => write_fault(f, fault),
        }
    }
}

/// The line, counted from 1, in which the byte at a place stands.
fn line_of(bytes: &[u8], at: usize) -> usize {
    let mut line = 1usize;
    for byte in bytes.iter().take(at) {
        if *byte == b'\n' {
            line = line.saturating_add(1);
        }
    }
    line
}

/// What of a key in front of all tables is wrong.
fn at_top(table: &Table, wanted: Wanted) -> Mistake
    ensures { result ≡ at_top (get_member (name_of wanted) (table_view table.now)) wanted }
{
    match value_at(table, wanted) {
        Some(_) => Mistake::OutOfRange(TableName::Top, wanted),
        None => Mistake::Missing(TableName::Top, wanted),
    }
}

/// The name of the table with this number, counted from 1, of those in which a key of this owner stands.
fn name_of(table: &Table, owner: Owner, number: usize) -> TableName {
    match owner {
        Owner::Settings => TableName::Top,
        Owner::Pmu | Owner::EachPmu => TableName::Pmu(number),
        Owner::Node => TableName::Node(number),
        Owner::Stream => {
            if is_merger(table) {
                TableName::Node(number)
            } else {
                TableName::Pmu(number)
            }
        }
    }
}

/// What of a key of a table is wrong: of the first table that has it wrong.
fn in_tables(alloc: Global, table: &Table, wanted: Wanted) -> Mistake {
    let owner = wanted.owner();
    let values = tables_of(table, owner);
    let Some(at) = first_lacking(alloc, table, values, wanted) else {
        return Mistake::Fault(SettingsFault::Range(wanted));
    };
    let name = name_of(table, owner, at.saturating_add(1));
    match values.get(at) {
        Some(value) => {
            if has_key(value, wanted) {
                Mistake::OutOfRange(name, wanted)
            } else {
                Mistake::Missing(name, wanted)
            }
        }
        None => Mistake::Fault(SettingsFault::Range(wanted)),
    }
}

/// What of a key is wrong.
fn at_key(alloc: Global, table: &Table, wanted: Wanted) -> Mistake {
    match wanted.owner() {
        Owner::Settings => at_top(table, wanted),
        _ => in_tables(alloc, table, wanted),
    }
}

/// Why a text is no TOML.
fn in_text(alloc: Global, text: &str) -> Mistake {
    match toml::table_from_str(alloc, text) {
        Ok(_) => Mistake::Fault(SettingsFault::Toml),
        Err(error) => match error.span() {
            Some(span) => Mistake::NoToml(line_of(text.as_bytes(), span.start), error),
            None => Mistake::Fault(SettingsFault::NoMemory),
        },
    }
}

/// What is wrong in a document that was refused for this fault.
fn in_document(alloc: Global, table: &Table, fault: SettingsFault) -> Mistake {
    match fault {
        SettingsFault::Range(wanted) => at_key(alloc, table, wanted),
        SettingsFault::DoubledId => match doubled_id(alloc, table) {
            Some(doubled) => Mistake::Same(doubled),
            None => Mistake::Fault(fault),
        },
        _ => Mistake::Fault(fault),
    }
}

/// What is wrong in a text of settings that was refused for this fault: the line, the key with its table, or both keys.
pub fn mistake_in(alloc: Global, text: &str, fault: SettingsFault) -> Mistake {
    match toml::table_from_str(alloc, text) {
        Ok(table) => in_document(alloc, &table, fault),
        Err(_) => in_text(alloc, text),
    }
}

/// The first two tables of streams that have the same port, in a text of settings.
pub fn doubled_port_in(alloc: Global, text: &str) -> Option<Doubled> {
    match toml::table_from_str(alloc, text) {
        Ok(table) => doubled_port(alloc, &table),
        Err(_) => None,
    }
}
