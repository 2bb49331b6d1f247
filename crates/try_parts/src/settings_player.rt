//! Settings out of texts.
//!
//! | Call | Answer |
//! |---|---|
//! | `begin TEXT` | `ok`: the text to read, its lines apart by a bar |
//! | `node` or `node OLD / NEW` | what a node is told by it, NEW, with bars as above, in the place of the first OLD; or why it is none |
//! | `merger` or `merger OLD / NEW` | the same of the merger |
//! | `kind` or `kind OLD / NEW` | whose it is, by the key `node` |
//! | `network` or `network OLD / NEW` | where it is on the network: address, hops, buffer, sessions, each further output, and how the frames of each stream come |
//!
//! What is none of these, or where OLD is not found, is answered `no such call`.

use pdc_life::{MergedNode, Pmu, Timing};
use pdc_row::Output;
use pdc_settings::{
    Document, Input, MergerSettings, Network, NodeSettings, Service, SettingsFault,
};
use std::alloc::{AllocError, Global};
use std::fmt::Write;
use try_script::Player;

/// Who reads settings.
#[derive(Drop)]
pub struct SettingsPlayer {
    text: String,
}

impl SettingsPlayer {
    /// With no text.
    pub fn new(alloc: Global) -> SettingsPlayer {
        SettingsPlayer {
            text: String::new(alloc),
        }
    }
}

/// Adds a line.
fn push_line(lines: &mut String, line: &str) -> Result<(), AllocError> {
    lines.push_str(line)?;
    lines.push('\n')
}

/// The lines of a text that a bar holds apart.
fn lines_of(alloc: Global, text: &str) -> Result<String, AllocError> {
    let mut lines = String::new(alloc);
    for line in text.split('|') {
        push_line(&mut lines, line)?;
    }
    Ok(lines)
}

/// The text with a change, if its place is found.
fn changed(alloc: Global, text: &str, change: &str) -> Result<Option<String>, AllocError> {
    if change.is_empty() {
        return Ok(Some(text.to_string(alloc)?));
    }
    let Some((old, new)) = change.split_once(" / ") else {
        return Ok(None);
    };
    let Some((before, after)) = text.split_once(old) else {
        return Ok(None);
    };
    let new = lines_of(alloc, new)?;
    Ok(Some(format!(in alloc; "{before}{new}{after}")?))
}

/// Tells why the text is no settings.
fn tell_fault(told: &mut String, fault: SettingsFault) -> Result<(), AllocError> {
    match fault {
        SettingsFault::Range(wanted) => write!(told, "{fault}, {wanted}"),
        _ => write!(told, "{fault}"),
    }
}

/// Tells whose output it is.
fn tell_output(told: &mut String, output: &Output) -> Result<(), AllocError> {
    write!(
        told,
        "{} {} {:?} {}, ",
        output.id.value, output.rate, output.nominal, output.time_base
    )
}

/// Tells how instants are aligned.
fn tell_timing(told: &mut String, timing: &Timing) -> Result<(), AllocError> {
    write!(
        told,
        "{} {:?} {} {}, ",
        timing.wait, timing.wait_kind, timing.window, timing.ahead
    )
}

/// Tells how it runs.
fn tell_service(told: &mut String, service: &Service) -> Result<(), AllocError> {
    write!(
        told,
        "{} {} {} {}",
        service.lead, service.layout_every, service.out_port, service.session_port
    )?;
    match service.tick_ms {
        Some(milliseconds) => write!(told, " tick_ms {milliseconds}"),
        None => Ok(()),
    }
}

/// Tells one PMU of a node.
fn tell_pmu(told: &mut String, pmu: &Pmu, port: u16) -> Result<(), AllocError> {
    write!(
        told,
        ", {} {} {} {port}",
        pmu.stream.value, pmu.source, pmu.time_base
    )
}

/// Tells what a node is told.
fn tell_node(told: &mut String, settings: &NodeSettings) -> Result<(), AllocError> {
    let life = &settings.life;
    tell_output(told, &life.output)?;
    tell_timing(told, &life.timing)?;
    tell_service(told, &settings.service)?;
    for (pmu, port) in life.pmus.iter().zip(settings.ports.iter()) {
        tell_pmu(told, pmu, *port)?;
    }
    Ok(())
}

/// Tells one node of the merger.
fn tell_merged(told: &mut String, node: &MergedNode, port: u16) -> Result<(), AllocError> {
    write!(told, ", {} {} {port}", node.id.value, node.time_base)
}

/// Tells what the merger is told.
fn tell_merger(told: &mut String, settings: &MergerSettings) -> Result<(), AllocError> {
    let life = &settings.life;
    tell_output(told, &life.output)?;
    tell_timing(told, &life.timing)?;
    tell_service(told, &settings.service)?;
    tell_merged(told, &life.first, settings.first_port)?;
    tell_merged(told, &life.second, settings.second_port)?;
    for source in life.sources.as_slice() {
        write!(told, ", {source}")?;
    }
    Ok(())
}

/// Tells a key that may be left out.
fn tell_key(told: &mut String, key: &str, value: Option<&str>) -> Result<(), AllocError> {
    match value {
        Some(value) => write!(told, ", {key} {value}"),
        None => Ok(()),
    }
}

/// Tells how the frames of a stream come.
fn tell_input(told: &mut String, input: &Input) -> Result<(), AllocError> {
    tell_key(told, "tcp", input.tcp.as_deref())?;
    tell_key(told, "commands", input.commands.as_deref())?;
    match input.from {
        Some(from) => write!(told, ", from {from}"),
        None => Ok(()),
    }
}

/// Tells where a concentrator is on the network.
fn tell_network(told: &mut String, network: &Network) -> Result<(), AllocError> {
    write!(
        told,
        "{} {} {} {}",
        network.address, network.ttl, network.receive_buffer, network.sessions
    )?;
    for output in &network.outputs {
        write!(told, ", {output}")?;
    }
    for input in &network.inputs {
        tell_input(told, input)?;
    }
    Ok(())
}

/// Tells what a node is told by a text.
fn read_node(alloc: Global, text: &str, told: &mut String) -> Result<(), AllocError> {
    match NodeSettings::from_toml(alloc, text) {
        Ok(settings) => tell_node(told, &settings),
        Err(fault) => tell_fault(told, fault),
    }
}

/// Tells what the merger is told by a text.
fn read_merger(alloc: Global, text: &str, told: &mut String) -> Result<(), AllocError> {
    match MergerSettings::from_toml(alloc, text) {
        Ok(settings) => tell_merger(told, &settings),
        Err(fault) => tell_fault(told, fault),
    }
}

/// Tells what a text tells of the network.
fn read_network(alloc: Global, text: &str, told: &mut String) -> Result<(), AllocError> {
    match Network::from_toml(alloc, text) {
        Ok(network) => tell_network(told, &network),
        Err(fault) => tell_fault(told, fault),
    }
}

/// Tells whose a text is.
fn read_kind(alloc: Global, text: &str, told: &mut String) -> Result<(), AllocError> {
    match Document::parse(alloc, text) {
        Ok(document) => told.push_str(if document.is_merger() {
            "a merger's"
        } else {
            "a node's"
        }),
        Err(fault) => tell_fault(told, fault),
    }
}

/// Tells what a text is read as.
fn read(alloc: Global, reader: &str, text: &str, told: &mut String) -> Result<(), AllocError> {
    match reader {
        "node" => read_node(alloc, text, told),
        "merger" => read_merger(alloc, text, told),
        "network" => read_network(alloc, text, told),
        "kind" => read_kind(alloc, text, told),
        _ => told.push_str("no such call"),
    }
}

/// What the text is read as, with a change.
fn answer(alloc: Global, text: &str, reader: &str, change: &str) -> Result<String, AllocError> {
    let mut told = String::new(alloc);
    match changed(alloc, text, change)? {
        Some(text) => read(alloc, reader, &text, &mut told)?,
        None => told.push_str("no such call")?,
    }
    Ok(told)
}

impl Player for SettingsPlayer {
    fn play(&mut self, alloc: Global, call: &str) -> Result<String, AllocError> {
        let (word, rest) = call.split_once(' ').unwrap_or((call, ""));
        if word == "begin" {
            self.text = lines_of(alloc, rest)?;
            return "ok".to_string(alloc);
        }
        answer(alloc, &self.text, word, rest)
    }
}
