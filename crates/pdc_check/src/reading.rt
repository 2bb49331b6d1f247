//! The outline of settings, out of their text.
ghost use Rattle.std.specs.Prelude.{◌≡◌, ◌++◌, IfOk, OnOk, false, map, true};
ghost use Rattle.pdc_life.specs.declared.pmu.Pmu.{Pmu as PmuData};

use crate::outline::{Outline, Stream};
use crate::port::{PortKey, UsedPort};
use pdc_life::{MergedNode, Pmu};
use pdc_settings::{
    Document, Input, MergerSettings, Network, NodeSettings, SettingsFault, TableName,
};
use std::alloc::{AllocError, Global};
use std::net::IpAddr;

/// The port of a place, which is behind its last colon; 0 where it is none.
fn port_of(place: &str) -> u16 {
    let mut port = "";
    for part in place.split(':') {
        port = part;
    }
    port.parse::<u16>().unwrap_or(0)
}

/// The port of the place where a stream is asked for over TCP; 0 where it is not.
fn asked_at(input: Option<&Input>) -> u16 {
    match input {
        Some(input) => match input.tcp.as_deref() {
            Some(place) => port_of(place),
            None => 0,
        },
        None => 0,
    }
}

/// Whether datagrams of one address alone are read.
fn is_from_one(input: Option<&Input>) -> bool {
    match input {
        Some(input) => input.from.is_some(),
        None => false,
    }
}

/// The stream of a PMU.
fn stream_of_pmu(at: usize, pmu: &Pmu, port: u16, input: Option<&Input>) -> Stream {
    Stream {
        table: TableName::Pmu(at.saturating_add(1)),
        id: pmu.stream.value,
        time_base: pmu.time_base,
        port,
        asked_at: asked_at(input),
        is_from_one: is_from_one(input),
    }
}

/// The stream of a node.
fn stream_of_node(at: usize, node: &MergedNode, port: u16, input: Option<&Input>) -> Stream {
    Stream {
        table: TableName::Node(at.saturating_add(1)),
        id: node.id.value,
        time_base: node.time_base,
        port,
        asked_at: asked_at(input),
        is_from_one: is_from_one(input),
    }
}

/// The streams of the PMUs, in their order.
fn streams_of_pmus(
    alloc: Global,
    settings: &NodeSettings,
    inputs: &[Input],
) -> Result<Vec<Stream>, AllocError> {
    let mut streams = Vec::new(alloc);
    for (at, pmu) in settings.life.pmus.iter().enumerate() {
        let port = settings.ports.as_slice().get(at).copied().unwrap_or(0);
        streams.push(stream_of_pmu(at, pmu, port, inputs.get(at)))?;
    }
    Ok(streams)
}

/// The streams of both nodes.
fn streams_of_nodes(
    alloc: Global,
    settings: &MergerSettings,
    inputs: &[Input],
) -> Result<Vec<Stream>, AllocError> {
    let mut streams = Vec::new(alloc);
    let (first, second) = (&settings.life.first, &settings.life.second);
    streams.push(stream_of_node(0, first, settings.first_port, inputs.get(0)))?;
    streams.push(stream_of_node(1, second, settings.second_port, inputs.get(1)))?;
    Ok(streams)
}

/// Adds the sources of PMUs.
fn push_sources(sources: &mut Vec<u16>, pmus: &[Pmu]) -> Result<(), AllocError>
    ensures { OnOk result (sources.new.items ≡ sources.old.items ++
        map (λ (pmu : PmuData). pmu.source) pmus.now) }
{
    match pmus.split_first() {
        Some((pmu, others)) => {
            sources.push(pmu.source)?;
            push_sources(sources, others)
        }
        None => Ok(()),
    }
}

/// The ports at which a concentrator listens: those of its streams, then of sessions and of counters.
fn ports_of(
    alloc: Global,
    network: &Network,
    streams: &[Stream],
    session_port: u16,
) -> Result<Vec<UsedPort>, AllocError> {
    let mut ports = Vec::new(alloc);
    let address = network.address;
    for stream in streams {
        if stream.port != 0 {
            ports.push(UsedPort {
                key: PortKey::Table(stream.table),
                is_tcp: false,
                address,
                port: stream.port,
            })?;
        }
    }
    ports.push(UsedPort {
        key: PortKey::Session,
        is_tcp: true,
        address,
        port: session_port,
    })?;
    if let Some(port) = network.metrics_port {
        ports.push(UsedPort {
            key: PortKey::Metrics,
            is_tcp: true,
            address: IpAddr::from([127u8, 0, 0, 1]),
            port,
        })?;
    }
    Ok(ports)
}

/// The ports that frames go to, at whatever address.
fn sent_to(alloc: Global, network: &Network, out_port: u16) -> Result<Vec<u16>, AllocError> {
    let mut ports = Vec::new(alloc);
    ports.push(out_port)?;
    for place in &network.outputs {
        ports.push(port_of(place))?;
    }
    Ok(ports)
}

/// The outline of a node.
fn outline_of_node(
    alloc: Global,
    settings: &NodeSettings,
    network: &Network,
) -> Result<Outline, AllocError>
    ensures kind { IfOk result (λ outline. outline.is_merger ≡ false) }
    ensures id { IfOk result (λ outline. outline.id ≡ settings.now.life.output.id.value) }
    ensures rate { IfOk result (λ outline. outline.rate ≡ settings.now.life.output.rate) }
    ensures time_base { IfOk result (λ outline. outline.time_base ≡
        settings.now.life.output.time_base) }
    ensures wait { IfOk result (λ outline. outline.wait ≡ settings.now.life.timing.wait) }
    ensures lead { IfOk result (λ outline. outline.lead ≡ settings.now.service.lead) }
    ensures session_port { IfOk result (λ outline. outline.session_port ≡
        settings.now.service.session_port) }
    ensures sources { IfOk result (λ outline. outline.sources.items ≡
        map (λ (pmu : PmuData). pmu.source) settings.now.life.pmus.items) }
{
    let (output, service) = (settings.life.output, settings.service);
    let mut sources = Vec::new(alloc);
    push_sources(&mut sources, &settings.life.pmus)?;
    let streams = streams_of_pmus(alloc, settings, &network.inputs)?;
    let ports = ports_of(alloc, network, &streams, service.session_port)?;
    let sent_to = sent_to(alloc, network, service.out_port)?;
    Ok(Outline {
        is_merger: false,
        id: output.id.value,
        rate: output.rate,
        time_base: output.time_base,
        wait: settings.life.timing.wait,
        lead: service.lead,
        session_port: service.session_port,
        sources,
        streams,
        ports,
        sent_to,
    })
}

/// The outline of the merger.
fn outline_of_merger(
    alloc: Global,
    settings: &MergerSettings,
    network: &Network,
) -> Result<Outline, AllocError>
    ensures kind { IfOk result (λ outline. outline.is_merger ≡ true) }
    ensures id { IfOk result (λ outline. outline.id ≡ settings.now.life.output.id.value) }
    ensures rate { IfOk result (λ outline. outline.rate ≡ settings.now.life.output.rate) }
    ensures time_base { IfOk result (λ outline. outline.time_base ≡
        settings.now.life.output.time_base) }
    ensures wait { IfOk result (λ outline. outline.wait ≡ settings.now.life.timing.wait) }
    ensures lead { IfOk result (λ outline. outline.lead ≡ settings.now.service.lead) }
    ensures session_port { IfOk result (λ outline. outline.session_port ≡
        settings.now.service.session_port) }
    ensures sources { IfOk result (λ outline. outline.sources.items ≡
        settings.now.life.sources.items) }
{
    let (output, service) = (settings.life.output, settings.service);
    let mut sources = Vec::new(alloc);
    sources.extend_from_slice(&settings.life.sources)?;
    let streams = streams_of_nodes(alloc, settings, &network.inputs)?;
    let ports = ports_of(alloc, network, &streams, service.session_port)?;
    let sent_to = sent_to(alloc, network, service.out_port)?;
    Ok(Outline {
        is_merger: true,
        id: output.id.value,
        rate: output.rate,
        time_base: output.time_base,
        wait: settings.life.timing.wait,
        lead: service.lead,
        session_port: service.session_port,
        sources,
        streams,
        ports,
        sent_to,
    })
}

/// The outline of a node's document.
fn read_node(alloc: Global, document: &Document) -> Result<Outline, SettingsFault> {
    let settings = NodeSettings::from_document(document)?;
    let network = Network::from_document(alloc, document)?;
    outline_of_node(alloc, &settings, &network).map_err(|_| SettingsFault::NoMemory)
}

/// The outline of the merger's document.
fn read_merger(alloc: Global, document: &Document) -> Result<Outline, SettingsFault> {
    let settings = MergerSettings::from_document(document)?;
    let network = Network::from_document(alloc, document)?;
    outline_of_merger(alloc, &settings, &network).map_err(|_| SettingsFault::NoMemory)
}

/// The outline of the settings that a document is: those of the merger by the key `node`, and else of a node.
///
/// # Errors
///
/// What `pdc node` and `pdc merge` refuse it for.
pub fn read_outline(alloc: Global, document: &Document) -> Result<Outline, SettingsFault> {
    if document.is_merger() {
        read_merger(alloc, document)
    } else {
        read_node(alloc, document)
    }
}
