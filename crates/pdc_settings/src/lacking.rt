//! In which of some tables a key is wrong.

use crate::document::is_merger;
use crate::entries::{port_of, read_node, read_pmu};
use crate::fault::SettingsFault;
use crate::read_inputs::{read_input, streams_of};
use crate::read_merger::read_source;
use pdc_keys::{Owner, Wanted, number, value_at, values_at};
use std::alloc::Global;
use toml::{Table, Value};

/// The tables at a key, none where it is left out or no list.
fn listed<'t>(table: &'t Table, wanted: Wanted) -> &'t [Value] {
    match values_at(table, wanted) {
        Some(values) => values,
        None => &[],
    }
}

/// The tables in which a key of this owner stands.
pub(crate) fn tables_of(table: &Table, owner: Owner) -> &[Value] {
    match owner {
        Owner::Settings => &[],
        Owner::Pmu | Owner::EachPmu => listed(table, Wanted::Pmus),
        Owner::Node => listed(table, Wanted::Nodes),
        Owner::Stream => streams_of(table),
    }
}

/// Whether a table has a key.
pub(crate) fn has_key(value: &Value, wanted: Wanted) -> bool {
    match value.as_table() {
        Some(table) => value_at(table, wanted).is_some(),
        None => false,
    }
}

/// Which key of a table is wrong first, of those that say what a stream is.
fn wrong_of(value: &Value, owner: Owner, rate: u16, of_merger: bool) -> Option<Wanted> {
    let table = value.as_table()?;
    match owner {
        Owner::Node => read_node(table, rate).err(),
        _ => {
            if of_merger {
                read_source(value).err()
            } else {
                read_pmu(table, rate).err()
            }
        }
    }
}

/// Which key of a table is wrong first, of those that say how the frames of a stream come.
fn wrong_way(alloc: Global, value: &Value) -> Option<Wanted> {
    match read_input(alloc, value) {
        Err(SettingsFault::Range(wanted)) => Some(wanted),
        _ => None,
    }
}

/// Whether this key is wrong in a table.
fn is_wrong(alloc: Global, value: &Value, wanted: Wanted, rate: u16, of_merger: bool) -> bool {
    let lacks = match wanted {
        Wanted::PmuPort | Wanted::NodePort => port_of(value, wanted).err(),
        Wanted::Tcp | Wanted::Commands | Wanted::From | Wanted::MostCount => {
            match port_of(value, Wanted::PmuPort) {
                Err(Wanted::Tcp) => Some(Wanted::Tcp),
                _ => wrong_way(alloc, value),
            }
        }
        _ => wrong_of(value, wanted.owner(), rate, of_merger),
    };
    lacks == Some(wanted)
}

/// The rate of a document: 0 where it has none.
fn rate_of(table: &Table) -> u16 {
    match number(table, Wanted::Rate) {
        Ok(rate) => rate as u16,
        Err(_) => 0,
    }
}

/// The place of the first of some tables of a document in which this key is wrong.
pub(crate) fn first_lacking(
    alloc: Global,
    table: &Table,
    values: &[Value],
    wanted: Wanted,
) -> Option<usize> {
    let (rate, of_merger) = (rate_of(table), is_merger(table));
    for at in 0..values.len() {
        if is_wrong(alloc, &values[at], wanted, rate, of_merger) {
            return Some(at);
        }
    }
    None
}
