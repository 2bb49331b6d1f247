//! What a concentrator reports when it begins and when it ends.

use pdc_startup::{Concentrator, Input, Network, UnknownKey};
use std::alloc::{AllocError, Global};
use std::fmt::Write;

/// Appends where the frames of a stream come: the place where it is asked for over TCP, or else the port.
fn append_input(
    kind: &str,
    id: u16,
    port: u16,
    input: Option<&Input>,
    text: &mut String,
) -> Result<(), AllocError> {
    match input.and_then(|input| input.tcp.as_ref()) {
        Some(tcp) => write!(text, ", {kind} {id} at {tcp} over TCP"),
        None => write!(text, ", {kind} {id} at port {port}"),
    }
}

/// Appends where the frames of each stream come.
fn append_inputs(
    concentrator: &Concentrator,
    network: &Network,
    text: &mut String,
) -> Result<(), AllocError> {
    match concentrator {
        Concentrator::Node(settings) => {
            let mut inputs = network.inputs.iter();
            for (pmu, port) in settings.life.pmus.iter().zip(settings.ports.iter()) {
                append_input("PMU", pmu.stream.value, *port, inputs.next(), text)?;
            }
            Ok(())
        }
        Concentrator::Merger(settings) => {
            let (first, second) = (settings.life.first.id.value, settings.life.second.id.value);
            let (at, to) = (network.inputs.get(0), network.inputs.get(1));
            append_input("node", first, settings.first_port, at, text)?;
            append_input("node", second, settings.second_port, to, text)
        }
    }
}

/// Appends where frames go, and where consumers are served.
fn append_outputs(
    concentrator: &Concentrator,
    network: &Network,
    text: &mut String,
) -> Result<(), AllocError> {
    let service = concentrator.service_settings();
    let (out, session) = (service.out_port, service.session_port);
    write!(text, ", frames to port {out}")?;
    for output in &network.outputs {
        write!(text, " and {output}")?;
    }
    write!(text, ", sessions at port {session}")
}

/// Appends all places, and how many bytes of datagrams wait at a port at most, where the system tells it.
fn append_places(
    concentrator: &Concentrator,
    network: &Network,
    buffer: Option<u32>,
    text: &mut String,
) -> Result<(), AllocError> {
    append_inputs(concentrator, network, text)?;
    append_outputs(concentrator, network, text)?;
    match buffer {
        Some(bytes) => write!(text, ", receive buffers of {bytes} bytes"),
        None => Ok(()),
    }
}

/// The line when a life begins: the id, the start, the floor, the ports, and how many bytes of datagrams wait at a port at most,
/// where the system tells it.
pub fn begun_text(
    alloc: Global,
    concentrator: &Concentrator,
    network: &Network,
    start: u32,
    floor: u64,
    buffer: Option<u32>,
) -> Result<String, AllocError> {
    let id = concentrator.output().id.value;
    let mut text = format!(in alloc; "{id} begins: start={start} floor={floor}")?;
    append_places(concentrator, network, buffer, &mut text)?;
    Ok(text)
}

/// The line at the end if frames could not be sent.
pub fn unsent_text(alloc: Global, unsent: u64) -> Result<String, AllocError> {
    format!(in alloc;
        "unsent={unsent}: this many frames could not be sent, or not be kept for the sessions"
    )
}

/// The line of a key of the settings file that nothing reads.
pub fn unknown_text(alloc: Global, file: &str, key: &UnknownKey) -> Result<String, AllocError> {
    format!(in alloc; "{file}: {key}")
}
