//! The tables of the PMUs and of the nodes.
ghost use Rattle.std.specs.Prelude.{◌≡◌, ◌≤◌, IfOk, IfSome, None, OnErr, Some, codes};
ghost use Rattle.toml.specs.Data.{get_member};
ghost use Rattle.toml.specs.View.{table_view, view};
ghost use Rattle.pdc_frame.specs.declared.limits.TheConstants.{MAX_ID};
ghost use Rattle.pdc_settings.specs.Entries.{node_fields, node_in, pmu_fields, pmu_in, port_in};
ghost use Rattle.pdc_settings.specs.Entries.{port_of, source_of};

use pdc_frame::StreamId;
use pdc_keys::{Wanted, number, number_from, number_of, value_at};
use pdc_life::{MergedNode, Pmu};
use toml::{Table, Value};

/// The port of a table, 1 to 65535; 0, which is none, where the stream is asked for over TCP.
fn port(table: &Table, wanted: Wanted) -> Result<u16, Wanted>
    ensures value { IfOk result (λ n. port_in (table_view table.now) ≡ Some n) }
    ensures none { OnErr result (port_in (table_view table.now) ≡ None) }
{
    match value_at(table, Wanted::Tcp) {
        Some(_) => match value_at(table, Wanted::PmuPort) {
            Some(_) => Err(Wanted::Tcp),
            None => Ok(0),
        },
        None => {
            // The lines of both ports have one name and one range.
            let port = number(table, Wanted::PmuPort).or(Err(wanted))?;
            Ok(port as u16)
        }
    }
}

/// The port of a table among others.
pub(crate) fn port_of(value: &Value, wanted: Wanted) -> Result<u16, Wanted>
    ensures value { IfOk result (λ n. port_of (view value.now) ≡ Some n) }
    ensures none { OnErr result (port_of (view value.now) ≡ None) }
{
    match value.as_table() {
        Some(table) => port(table, wanted),
        None => Err(wanted),
    }
}

/// The source of a PMU's table: where it is left out, the stream.
fn source(table: &Table, stream: u64) -> Option<u64>
    requires low { 1 ≤ stream }
    requires high { stream ≤ MAX_ID }
    ensures value { result ≡ source_of stream (get_member (codes "source") (table_view table.now)) }
    ensures low { IfSome result (λ n. 1 ≤ n) }
    ensures high { IfSome result (λ n. n ≤ MAX_ID) }
{
    match value_at(table, Wanted::PmuSource) {
        Some(value) => number_of(value, Wanted::PmuSource),
        None => Some(stream),
    }
}

/// What a PMU's table says of it.
pub(crate) fn read_pmu(table: &Table, rate: u16) -> Result<Pmu, Wanted>
    ensures value { IfOk result (λ pmu. pmu_in rate (table_view table.now) ≡
        Some (pmu_fields pmu)) }
    ensures none { OnErr result (pmu_in rate (table_view table.now) ≡ None) }
    ensures base { IfOk result (λ pmu. rate ≤ pmu.time_base) }
{
    let stream = number(table, Wanted::PmuStream)?;
    let Some(source) = source(table, stream) else {
        return Err(Wanted::PmuSource);
    };
    let time_base = number_from(table, Wanted::PmuTimeBase, u64::from(rate))?;
    Ok(Pmu {
        stream: StreamId {
            value: stream as u16,
        },
        source: source as u16,
        time_base: time_base as u32,
    })
}

/// What a node's table says of it.
pub(crate) fn read_node(table: &Table, rate: u16) -> Result<MergedNode, Wanted>
    ensures value { IfOk result (λ node. node_in rate (table_view table.now) ≡
        Some (node_fields node)) }
    ensures none { OnErr result (node_in rate (table_view table.now) ≡ None) }
    ensures base { IfOk result (λ node. rate ≤ node.time_base) }
{
    let id = number(table, Wanted::NodeId)?;
    let time_base = number_from(table, Wanted::NodeTimeBase, u64::from(rate))?;
    Ok(MergedNode {
        id: StreamId { value: id as u16 },
        time_base: time_base as u32,
    })
}
