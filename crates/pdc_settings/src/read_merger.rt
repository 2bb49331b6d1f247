//! Reading the settings of the merger.
ghost use Rattle.std.specs.Prelude.{◌≡◌, ◌<◌, ◌≤◌, ◌∷◌, ◌&&◌, IfOk, IfErr, IfSome, IsErrOf};
ghost use Rattle.std.specs.Prelude.{IsTrue, None, is_some, OnErr, OnOk, Some, false, length};
ghost use Rattle.std.specs.Prelude.{nat_le, nat_lt, true};
ghost use Rattle.std.specs.List.{list_all};
ghost use Rattle.toml.specs.View.{items_view, table_view, view};
ghost use Rattle.pdc_frame.specs.declared.limits.TheConstants.{MAX_ID};
ghost use Rattle.pdc_life.specs.Distinct.{are_distinct};
ghost use Rattle.pdc_life.specs.pdc_row.declared.limits.TheConstants.{MAX_PMUS};
ghost use Rattle.pdc_settings.specs.Entries.{each_of, first_node_in, first_port_in, node_fields};
ghost use Rattle.pdc_settings.specs.Entries.{node_of, node_tables_in, port_of, second_node_in};
ghost use Rattle.pdc_settings.specs.Entries.{second_port_in, source_at, sources_in, two_of};
ghost use Rattle.pdc_settings.specs.Document.{members_of};
ghost use Rattle.pdc_settings.specs.Kind.{is_merger};
ghost use Rattle.pdc_settings.specs.Said.{SaysMerger};
ghost use Rattle.pdc_settings.specs.Settings.{IsCommon, IsFaultOf, IsMergerFault};
ghost use Rattle.pdc_settings.specs.Settings.{IsMergerSettings, are_merger_ids, has_merger_keys};
ghost use Rattle.pdc_settings.specs.Wanting.{IsTomlWant};

use crate::common::{Common, read_common};
use crate::distinct::{has_id, ids_differ};
use crate::document::{Document, is_merger};
use crate::entries::{port_of, read_node};
use crate::fault::SettingsFault;
use crate::merger::MergerSettings;
use crate::read_node::pmu_tables;
use arrayvec::ArrayVec;
use pdc_keys::{Wanted, number, values_at};
use pdc_life::{MAX_PMUS, MergedNode, Timing};
use pdc_row::Output;
use std::alloc::Global;
use toml::{Table, Value};

/// A node that the merger takes, with the port that it sends to.
#[derive(Clone, Copy, Debug)]
pub(crate) struct Taken {
    pub node: MergedNode,
    port: u16,
}

/// Reads what a table at the key `node` says of the node.
fn read_node_of(value: &Value, rate: u16) -> Result<MergedNode, Wanted>
    ensures value { IfOk result (λ node. node_of rate (view value.now) ≡ Some (node_fields node)) }
    ensures none { OnErr result (node_of rate (view value.now) ≡ None) }
    ensures base { IfOk result (λ node. rate ≤ node.time_base) }
{
    match value.as_table() {
        Some(table) => read_node(table, rate),
        None => Err(Wanted::Nodes),
    }
}

/// Reads a table at the key `node`, with its port.
fn read_taken(value: &Value, rate: u16) -> Result<Taken, Wanted>
    ensures none { OnErr result ((is_some (node_of rate (view value.now)) && is_some
        (port_of (view value.now))) ≡ false) }
    ensures node { IfOk result (λ taken. node_of rate (view value.now) ≡
        Some (node_fields taken.node)) }
    ensures port { IfOk result (λ taken. port_of (view value.now) ≡ Some taken.port) }
    ensures base { IfOk result (λ taken. rate ≤ taken.node.time_base) }
{
    let node = read_node_of(value, rate)?;
    let port = port_of(value, Wanted::NodePort)?;
    Ok(Taken { node, port })
}

/// The two tables at the key `node`.
fn node_tables(table: &Table) -> Result<&[Value], Wanted>
    ensures value { IfOk result (λ values. node_tables_in (table_view table.now) ≡
        two_of (items_view values.now)) }
    ensures none { OnErr result (node_tables_in (table_view table.now) ≡ None) }
    ensures two { IfOk result (λ values. length values.now ≡ 2) }
{
    let Some(values) = values_at(table, Wanted::Nodes) else {
        return Err(Wanted::Nodes);
    };
    if values.len() != 2 {
        return Err(Wanted::Nodes);
    }
    Ok(values)
}

/// Reads the two tables at the key `node`: node A and then node B.
fn read_nodes(table: &Table, rate: u16) -> Result<(Taken, Taken), Wanted>
    ensures none { OnErr result (((is_some (first_node_in rate (table_view table.now)) && is_some
        (first_port_in (table_view table.now)))
        && (is_some (second_node_in rate (table_view table.now)) && is_some
        (second_port_in (table_view table.now)))) ≡ false) }
    ensures first_node { IfOk result (λ nodes. first_node_in rate (table_view table.now) ≡
        Some (node_fields nodes.0.node)) }
    ensures second_node { IfOk result (λ nodes. second_node_in rate (table_view table.now) ≡
        Some (node_fields nodes.1.node)) }
    ensures first_port { IfOk result (λ nodes. first_port_in (table_view table.now) ≡
        Some nodes.0.port) }
    ensures second_port { IfOk result (λ nodes. second_port_in (table_view table.now) ≡
        Some nodes.1.port) }
    ensures first { IfOk result (λ nodes. rate ≤ nodes.0.node.time_base) }
    ensures second { IfOk result (λ nodes. rate ≤ nodes.1.node.time_base) }
{
    let values = node_tables(table)?;
    let first = read_taken(&values[0], rate)?;
    let second = read_taken(&values[1], rate)?;
    Ok((first, second))
}

/// Reads the source of a PMU at the key `pmu`.
pub(crate) fn read_source(value: &Value) -> Result<u16, Wanted>
    ensures value { IfOk result (λ source. source_at (view value.now) ≡ Some source) }
    ensures none { OnErr result (source_at (view value.now) ≡ None) }
    ensures low { IfOk result (λ source. 1 ≤ source) }
    ensures is_id { IfOk result (λ source. IsTrue (nat_lt 0 source && nat_le source MAX_ID)) }
{
    let Some(table) = value.as_table() else {
        return Err(Wanted::Pmus);
    };
    let source = number(table, Wanted::PmuSource)?;
    Ok(source as u16)
}

/// Reads the sources of the PMUs, in their order.
fn read_sources(values: &[Value]) -> Result<ArrayVec<u16, MAX_PMUS>, Wanted>
    requires few { length values.now ≤ MAX_PMUS }
    ensures value { IfOk result (λ sources. each_of source_at (items_view values.now) ≡
        Some sources.items) }
    ensures none { OnErr result (each_of source_at (items_view values.now) ≡ None) }
    ensures ids { IfOk result (λ sources. IsTrue (list_all (λ id. nat_lt 0 id && nat_le id MAX_ID)
        sources.items)) }
    ensures len { IfOk result (λ sources. length sources.items ≡ length values.now) }
{
    let mut sources = ArrayVec::new();
    for value in values {
        sources.push(read_source(value)?);
    }
    Ok(sources)
}

/// What the tables and keys of the merger's document say, each in its range.
pub(crate) fn read_parts(
    table: &Table,
) -> Result<(Common, Taken, Taken, ArrayVec<u16, MAX_PMUS>), Wanted>
    ensures whole { OnOk result (has_merger_keys (table_view table.now) ≡ true) }
    ensures lacks { OnErr result (has_merger_keys (table_view table.now) ≡ false) }
    ensures kind { IfOk result (λ parts. is_merger (table_view table.now) ≡ true) }
    ensures common { IfOk result (λ parts. IsCommon (table_view table.now) parts.0) }
    ensures first_node { IfOk result (λ parts. first_node_in parts.0.output.rate
        (table_view table.now) ≡ Some (node_fields parts.1.node)) }
    ensures second_node { IfOk result (λ parts. second_node_in parts.0.output.rate
        (table_view table.now) ≡ Some (node_fields parts.2.node)) }
    ensures first_port { IfOk result (λ parts. first_port_in (table_view table.now) ≡
        Some parts.1.port) }
    ensures second_port { IfOk result (λ parts. second_port_in (table_view table.now) ≡
        Some parts.2.port) }
    ensures sources { IfOk result (λ parts. sources_in (table_view table.now) ≡
        Some parts.3.items) }
    ensures first { IfOk result (λ parts. parts.0.output.rate ≤ parts.1.node.time_base) }
    ensures second { IfOk result (λ parts. parts.0.output.rate ≤ parts.2.node.time_base) }
    ensures some { IfOk result (λ parts. 1 ≤ length parts.3.items) }
    ensures ids { IfOk result (λ parts. IsTrue (list_all (λ id. nat_lt 0 id && nat_le id MAX_ID)
        parts.3.items)) }
{
    if !is_merger(table) {
        return Err(Wanted::Nodes);
    }
    let common = read_common(table)?;
    let (first, second) = read_nodes(table, common.output.rate)?;
    let values = pmu_tables(table)?;
    let sources = read_sources(values)?;
    Ok((common, first, second, sources))
}

/// Whether these ids differ from one another, and from the id.
fn is_apart(ids: &[u16], id: u16) -> bool
    ensures { result ≡ are_distinct (id ∷ ids.now) }
{
    ids_differ(ids) && !has_id(ids, id)
}

/// Whether the two differ and none of the sources is one of them.
fn are_apart(first: u16, second: u16, sources: &[u16]) -> bool
    ensures { result ≡ are_distinct (first ∷ second ∷ sources.now) }
{
    first != second && is_apart(sources, second) && !has_id(sources, first)
}

/// What the lives of the merger depend on, where the ids are distinct.
fn life_of(
    output: Output,
    timing: Timing,
    first: MergedNode,
    second: MergedNode,
    sources: ArrayVec<u16, MAX_PMUS>,
) -> Option<pdc_life::MergerSettings>
    requires some { 1 ≤ length sources.items }
    requires ids { IsTrue (list_all (λ id. nat_lt 0 id && nat_le id MAX_ID) sources.items) }
    requires first_base { output.rate ≤ first.time_base }
    requires second_base { output.rate ≤ second.time_base }
    ensures doubled { result ≡ None →
        are_merger_ids output.id.value first.id.value second.id.value sources.items ≡ false }
    ensures output { IfSome result (λ life. life.output ≡ output) }
    ensures timing { IfSome result (λ life. life.timing ≡ timing) }
    ensures first { IfSome result (λ life. life.first ≡ first) }
    ensures second { IfSome result (λ life. life.second ≡ second) }
    ensures sources { IfSome result (λ life. life.sources ≡ sources) }
{
    if !is_apart(&sources, output.id.value)
        || !are_apart(first.id.value, second.id.value, &sources)
    {
        return None;
    }
    Some(pdc_life::MergerSettings {
        output,
        timing,
        first,
        second,
        sources,
    })
}

/// What the merger's document says, where it says settings.
fn read_settings(table: &Table) -> Result<MergerSettings, SettingsFault>
    ensures value { IfOk result (IsMergerSettings (table_view table.now)) }
    ensures fault { IfErr result (IsMergerFault (table_view table.now)) }
    ensures memory { IsErrOf result SettingsFault.NoMemory → ⊥ }
{
    match read_parts(table) {
        Ok((common, first, second, sources)) => {
            let (output, timing) = (common.output, common.timing);
            let Some(life) = life_of(output, timing, first.node, second.node, sources) else {
                return Err(SettingsFault::DoubledId);
            };
            Ok(MergerSettings {
                life,
                service: common.service,
                first_port: first.port,
                second_port: second.port,
            })
        }
        Err(wanted) => Err(SettingsFault::Range(wanted)),
    }
}

impl MergerSettings {
    /// Reads the settings of the merger out of a text of TOML.
    ///
    /// # Errors
    ///
    /// `Toml` where the text is no TOML; else `Range`, with the key, where one is missing, of another type or out of its range; else
    /// `DoubledId` where two ids are the same that must differ; `NoMemory` where `toml` answered that memory was wanted.
    pub fn from_toml(alloc: Global, text: &str) -> Result<MergerSettings, SettingsFault>
        ensures value { IfOk result (SaysMerger text.now) }
        ensures fault { IfErr result (IsFaultOf IsMergerFault text.now) }
        ensures wanted { IsErrOf result SettingsFault.NoMemory → IsTomlWant text.now }
    {
        let document = Document::parse(alloc, text)?;
        MergerSettings::from_document(&document)
    }

    /// Reads the settings of the merger out of a document.
    ///
    /// # Errors
    ///
    /// `Range`, with the key, where one is missing, of another type or out of its range; else `DoubledId` where two ids are the same that
    /// must differ.
    pub fn from_document(document: &Document) -> Result<MergerSettings, SettingsFault>
        ensures value { IfOk result (IsMergerSettings (members_of document.now)) }
        ensures fault { IfErr result (IsMergerFault (members_of document.now)) }
        ensures memory { IsErrOf result SettingsFault.NoMemory → ⊥ }
    {
        read_settings(&document.table)
    }
}
