//! The numbers of a document that must differ, with the keys at which they stand.

use crate::document::is_merger;
use crate::doubled::{Doubled, NumberKey, Numbered, doubled_in};
use crate::entries::port_of;
use crate::lacking::has_key;
use crate::read_inputs::streams_of;
use crate::{read_merger, read_node};
use pdc_keys::{TableName, Wanted, values_at};
use pdc_life::Pmu;
use std::alloc::{AllocError, Global};
use toml::{Table, Value};

/// Numbers with their keys.
type Numbers = Vec<Numbered>;

/// Adds a number.
fn push(numbers: &mut Numbers, key: NumberKey, number: u16) -> Result<(), AllocError> {
    numbers.push(Numbered { key, number })?;
    Ok(())
}

/// The tables of the PMUs.
fn pmu_tables(table: &Table) -> &[Value] {
    match values_at(table, Wanted::Pmus) {
        Some(values) => values,
        None => &[],
    }
}

/// The key at which the source of a PMU stands: its stream, where the source is left out.
fn source_key(values: &[Value], at: usize) -> NumberKey {
    let table = TableName::Pmu(at.saturating_add(1));
    match values.get(at) {
        Some(value) => {
            if has_key(value, Wanted::PmuSource) {
                NumberKey::SourceOf(table)
            } else {
                NumberKey::StreamOf(table)
            }
        }
        None => NumberKey::SourceOf(table),
    }
}

/// Adds the sources of PMUs.
fn push_sources(
    numbers: &mut Numbers,
    values: &[Value],
    sources: &[u16],
) -> Result<(), AllocError> {
    for at in 0..sources.len() {
        push(numbers, source_key(values, at), sources[at])?;
    }
    Ok(())
}

/// Adds the streams of PMUs.
fn push_streams(numbers: &mut Numbers, pmus: &[Pmu]) -> Result<(), AllocError> {
    for at in 0..pmus.len() {
        let table = TableName::Pmu(at.saturating_add(1));
        push(numbers, NumberKey::StreamOf(table), pmus[at].stream.value)?;
    }
    Ok(())
}

/// The sources of PMUs.
fn sources_of(alloc: Global, pmus: &[Pmu]) -> Result<Vec<u16>, AllocError> {
    let mut sources = Vec::new(alloc);
    for pmu in pmus {
        sources.push(pmu.source)?;
    }
    Ok(sources)
}

/// The first two of the own id and the sources that are the same.
fn own_or_sources(
    alloc: Global,
    table: &Table,
    id: u16,
    sources: &[u16],
) -> Result<Option<Doubled>, AllocError> {
    let mut numbers = Vec::new(alloc);
    push(&mut numbers, NumberKey::Id, id)?;
    push_sources(&mut numbers, pmu_tables(table), sources)?;
    Ok(doubled_in(&numbers))
}

/// The first two of the own id and the streams that are the same.
fn own_or_streams(alloc: Global, id: u16, pmus: &[Pmu]) -> Result<Option<Doubled>, AllocError> {
    let mut numbers = Vec::new(alloc);
    push(&mut numbers, NumberKey::Id, id)?;
    push_streams(&mut numbers, pmus)?;
    Ok(doubled_in(&numbers))
}

/// The first two of both nodes' ids and the sources that are the same.
fn nodes_or_sources(
    alloc: Global,
    table: &Table,
    nodes: (u16, u16),
    sources: &[u16],
) -> Result<Option<Doubled>, AllocError> {
    let mut numbers = Vec::new(alloc);
    let (first, second) = nodes;
    push(&mut numbers, NumberKey::IdOf(TableName::Node(1)), first)?;
    push(&mut numbers, NumberKey::IdOf(TableName::Node(2)), second)?;
    push_sources(&mut numbers, pmu_tables(table), sources)?;
    Ok(doubled_in(&numbers))
}

/// The first two ids of a node's document that are the same and must differ.
fn doubled_in_node(alloc: Global, table: &Table) -> Result<Option<Doubled>, AllocError> {
    let Ok((common, pmus, _)) = read_node::read_parts(table) else {
        return Ok(None);
    };
    let id = common.output.id.value;
    let found = own_or_streams(alloc, id, &pmus)?;
    if found.is_some() {
        return Ok(found);
    }
    let sources = sources_of(alloc, &pmus)?;
    own_or_sources(alloc, table, id, &sources)
}

/// The first two ids of the merger's document that are the same and must differ.
fn doubled_in_merger(alloc: Global, table: &Table) -> Result<Option<Doubled>, AllocError> {
    let Ok((common, first, second, sources)) = read_merger::read_parts(table) else {
        return Ok(None);
    };
    let found = own_or_sources(alloc, table, common.output.id.value, &sources)?;
    if found.is_some() {
        return Ok(found);
    }
    let nodes = (first.node.id.value, second.node.id.value);
    nodes_or_sources(alloc, table, nodes, &sources)
}

/// The first two ids of a document that are the same and must differ, where memory is had.
pub(crate) fn doubled_id(alloc: Global, table: &Table) -> Option<Doubled> {
    let found = if is_merger(table) {
        doubled_in_merger(alloc, table)
    } else {
        doubled_in_node(alloc, table)
    };
    found.unwrap_or(None)
}

/// The ports of the streams of a document, of those that have one.
fn ports_of(alloc: Global, table: &Table) -> Result<Numbers, AllocError> {
    let values = streams_of(table);
    let mut numbers = Vec::new(alloc);
    for at in 0..values.len() {
        let number = at.saturating_add(1);
        let name = if is_merger(table) {
            TableName::Node(number)
        } else {
            TableName::Pmu(number)
        };
        if let Ok(port) = port_of(&values[at], Wanted::PmuPort) {
            if port > 0 {
                push(&mut numbers, NumberKey::PortOf(name), port)?;
            }
        }
    }
    Ok(numbers)
}

/// The first two tables of streams of a document that have the same port, where memory is had.
pub(crate) fn doubled_port(alloc: Global, table: &Table) -> Option<Doubled> {
    match ports_of(alloc, table) {
        Ok(numbers) => doubled_in(&numbers),
        Err(_) => None,
    }
}
