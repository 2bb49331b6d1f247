//! Reading the settings of a node.
ghost use Rattle.std.specs.Prelude.{◌≡◌, ◌≤◌, ◌∷◌, ◌&&◌, IfOk, IfErr, IfSome, IsErrOf, IsTrue};
ghost use Rattle.std.specs.Prelude.{None, OnErr, OnOk, Some, false, true, length, map, nat_le};
ghost use Rattle.std.specs.List.{list_all};
ghost use Rattle.toml.specs.View.{items_view, table_view, view};
ghost use Rattle.pdc_life.specs.pdc_row.declared.limits.TheConstants.{MAX_PMUS};
ghost use Rattle.pdc_life.specs.declared.pmu.Pmu.{Pmu as PmuData};
ghost use Rattle.pdc_settings.specs.Entries.{each_of, pmu_fields, pmu_of, pmu_tables_in, pmus_in};
ghost use Rattle.pdc_settings.specs.Entries.{port_of, ports_in};
ghost use Rattle.pdc_settings.specs.Document.{members_of};
ghost use Rattle.pdc_settings.specs.Kind.{is_merger};
ghost use Rattle.pdc_settings.specs.Said.{SaysNode};
ghost use Rattle.pdc_settings.specs.Settings.{IsCommon, IsFaultOf, IsNodeFault, IsNodeSettings};
ghost use Rattle.pdc_settings.specs.Settings.{are_node_ids, has_node_keys};
ghost use Rattle.pdc_life.specs.Distinct.{are_distinct};
ghost use Rattle.pdc_settings.specs.Wanting.{IsTomlWant};

use crate::common::{Common, read_common};
use crate::distinct::{has_source, has_stream, sources_differ, streams_differ};
use crate::document::{Document, is_merger};
use crate::entries::{port_of, read_pmu};
use crate::fault::SettingsFault;
use crate::node::NodeSettings;
use arrayvec::ArrayVec;
use pdc_keys::{Wanted, values_at};
use pdc_life::{MAX_PMUS, Pmu, Settings, Timing};
use pdc_row::Output;
use std::alloc::Global;
use toml::{Table, Value};

/// Whether there are 1 to 16 of them.
fn are_some(values: &[Value]) -> bool
    ensures { result ≡ (nat_le 1 (length values.now) && nat_le (length values.now) MAX_PMUS) }
{
    let count = values.len() as u64;
    Wanted::Pmus.least() <= count && count <= Wanted::Pmus.most()
}

/// The tables at the key `pmu`, 1 to 16 of them.
pub(crate) fn pmu_tables(table: &Table) -> Result<&[Value], Wanted>
    ensures value { IfOk result (λ values. pmu_tables_in (table_view table.now) ≡
        Some (items_view values.now)) }
    ensures none { OnErr result (pmu_tables_in (table_view table.now) ≡ None) }
    ensures some { IfOk result (λ values. 1 ≤ length values.now) }
    ensures few { IfOk result (λ values. length values.now ≤ MAX_PMUS) }
{
    let Some(values) = values_at(table, Wanted::Pmus) else {
        return Err(Wanted::Pmus);
    };
    if !are_some(values) {
        return Err(Wanted::Pmus);
    }
    Ok(values)
}

/// Reads a PMU at the key `pmu`.
fn read_pmu_of(value: &Value, rate: u16) -> Result<Pmu, Wanted>
    ensures value { IfOk result (λ pmu. pmu_of rate (view value.now) ≡ Some (pmu_fields pmu)) }
    ensures none { OnErr result (pmu_of rate (view value.now) ≡ None) }
    ensures base { IfOk result (λ pmu. IsTrue (nat_le rate pmu.time_base)) }
{
    match value.as_table() {
        Some(table) => read_pmu(table, rate),
        None => Err(Wanted::Pmus),
    }
}

/// Reads the PMUs, in their order.
fn read_pmus(values: &[Value], rate: u16) -> Result<ArrayVec<Pmu, MAX_PMUS>, Wanted>
    requires few { length values.now ≤ MAX_PMUS }
    ensures value { IfOk result (λ pmus. each_of (pmu_of rate) (items_view values.now) ≡
        Some (map pmu_fields pmus.items)) }
    ensures none { OnErr result (each_of (pmu_of rate) (items_view values.now) ≡ None) }
    ensures bases { IfOk result (λ pmus. IsTrue (list_all
        (λ (pmu : PmuData). nat_le rate pmu.time_base) pmus.items)) }
    ensures len { IfOk result (λ pmus. length pmus.items ≡ length values.now) }
{
    let mut pmus = ArrayVec::new();
    for value in values {
        pmus.push(read_pmu_of(value, rate)?);
    }
    Ok(pmus)
}

/// Reads the ports of the PMUs, in their order.
fn read_ports(values: &[Value]) -> Result<ArrayVec<u16, MAX_PMUS>, Wanted>
    requires few { length values.now ≤ MAX_PMUS }
    ensures value { IfOk result (λ ports. each_of port_of (items_view values.now) ≡
        Some ports.items) }
    ensures none { OnErr result (each_of port_of (items_view values.now) ≡ None) }
    ensures len { IfOk result (λ ports. length ports.items ≡ length values.now) }
{
    let mut ports = ArrayVec::new();
    for value in values {
        ports.push(port_of(value, Wanted::PmuPort)?);
    }
    Ok(ports)
}

/// What the tables and keys of a node's document say, each in its range.
pub(crate) fn read_parts(
    table: &Table,
) -> Result<(Common, ArrayVec<Pmu, MAX_PMUS>, ArrayVec<u16, MAX_PMUS>), Wanted>
    ensures whole { OnOk result (has_node_keys (table_view table.now) ≡ true) }
    ensures lacks { OnErr result (has_node_keys (table_view table.now) ≡ false) }
    ensures kind { IfOk result (λ parts. is_merger (table_view table.now) ≡ false) }
    ensures common { IfOk result (λ parts. IsCommon (table_view table.now) parts.0) }
    ensures pmus { IfOk result (λ parts. pmus_in parts.0.output.rate (table_view table.now) ≡
        Some (map pmu_fields parts.1.items)) }
    ensures each_port { IfOk result (λ parts. ports_in (table_view table.now) ≡
        Some parts.2.items) }
    ensures some { IfOk result (λ parts. 1 ≤ length parts.1.items) }
    ensures bases { IfOk result (λ parts. IsTrue (list_all
        (λ (pmu : PmuData). nat_le parts.0.output.rate pmu.time_base) parts.1.items)) }
    ensures ports { IfOk result (λ parts. length parts.2.items ≡ length parts.1.items) }
{
    if is_merger(table) {
        return Err(Wanted::NoNodes);
    }
    let common = read_common(table)?;
    let values = pmu_tables(table)?;
    let pmus = read_pmus(values, common.output.rate)?;
    let ports = read_ports(values)?;
    Ok((common, pmus, ports))
}

/// Whether the ids of the PMUs and the node's own are distinct, those of streams and those of sources.
fn ids_are_distinct(id: u16, pmus: &[Pmu]) -> bool
    ensures { result ≡ are_node_ids id (map (λ (pmu : PmuData). pmu.stream.value) pmus.now)
        (map (λ (pmu : PmuData). pmu.source) pmus.now) }
{
    if has_stream(pmus, id) || !streams_differ(pmus) {
        return false;
    }
    !has_source(pmus, id) && sources_differ(pmus)
}

/// What the lives of a node depend on, where its ids are distinct.
fn life_of(output: Output, timing: Timing, pmus: ArrayVec<Pmu, MAX_PMUS>) -> Option<Settings>
    requires some { 1 ≤ length pmus.items }
    requires bases { IsTrue (list_all (λ (pmu : PmuData). nat_le output.rate pmu.time_base)
        pmus.items) }
    ensures doubled { result ≡ None →
        are_node_ids output.id.value (map (λ (pmu : PmuData). pmu.stream.value) pmus.items)
        (map (λ (pmu : PmuData). pmu.source) pmus.items) ≡ false }
    ensures output { IfSome result (λ life. life.output ≡ output) }
    ensures timing { IfSome result (λ life. life.timing ≡ timing) }
    ensures pmus { IfSome result (λ life. life.pmus ≡ pmus) }
    ensures len { IfSome result (λ life. length life.pmus.items ≡ length pmus.items) }
{
    if !ids_are_distinct(output.id.value, &pmus) {
        return None;
    }
    Some(Settings {
        output,
        timing,
        pmus,
    })
}

/// What a node's document says, where it says settings.
fn read_settings(table: &Table) -> Result<NodeSettings, SettingsFault>
    ensures value { IfOk result (IsNodeSettings (table_view table.now)) }
    ensures fault { IfErr result (IsNodeFault (table_view table.now)) }
    ensures memory { IsErrOf result SettingsFault.NoMemory → ⊥ }
{
    match read_parts(table) {
        Ok((common, pmus, ports)) => {
            let Some(life) = life_of(common.output, common.timing, pmus) else {
                return Err(SettingsFault::DoubledId);
            };
            Ok(NodeSettings {
                life,
                service: common.service,
                ports,
            })
        }
        Err(wanted) => Err(SettingsFault::Range(wanted)),
    }
}

impl NodeSettings {
    /// Reads the settings of a node out of a text of TOML.
    ///
    /// # Errors
    ///
    /// `Toml` where the text is no TOML; else `Range`, with the key, where one is missing, of another type or out of its range; else
    /// `DoubledId` where two ids are the same that must differ; `NoMemory` where `toml` answered that memory was wanted.
    pub fn from_toml(alloc: Global, text: &str) -> Result<NodeSettings, SettingsFault>
        ensures value { IfOk result (SaysNode text.now) }
        ensures fault { IfErr result (IsFaultOf IsNodeFault text.now) }
        ensures wanted { IsErrOf result SettingsFault.NoMemory → IsTomlWant text.now }
    {
        let document = Document::parse(alloc, text)?;
        NodeSettings::from_document(&document)
    }

    /// Reads the settings of a node out of a document.
    ///
    /// # Errors
    ///
    /// `Range`, with the key, where one is missing, of another type or out of its range; else `DoubledId` where two ids are the same that
    /// must differ.
    pub fn from_document(document: &Document) -> Result<NodeSettings, SettingsFault>
        ensures value { IfOk result (IsNodeSettings (members_of document.now)) }
        ensures fault { IfErr result (IsNodeFault (members_of document.now)) }
        ensures memory { IsErrOf result SettingsFault.NoMemory → ⊥ }
    {
        read_settings(&document.table)
    }
}
