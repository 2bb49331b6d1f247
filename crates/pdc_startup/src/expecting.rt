//! What the settings say of a stream, for what is told of its sender.

use arrayvec::ArrayVec;
use pdc_journal::Expected;
use pdc_settings::{MergerSettings, NodeSettings};
use pdc_sockets::Concentrator;

/// What a node's settings say of the PMU with this number.
fn of_pmu(settings: &NodeSettings, number: usize) -> Option<Expected> {
    let pmu = settings.life.pmus.as_slice().get(number)?;
    let port = settings.ports.as_slice().get(number)?;
    Some(Expected {
        port: *port,
        id: pmu.stream.value,
        source: pmu.source,
        time_base: pmu.time_base,
        rate: settings.life.output.rate,
        others: ArrayVec::new(),
    })
}

/// What the merger's settings say of the node with this number.
fn of_node(settings: &MergerSettings, number: usize) -> Option<Expected> {
    let (node, port) = match number {
        0 => (settings.life.first, settings.first_port),
        1 => (settings.life.second, settings.second_port),
        _ => return None,
    };
    let mut others = ArrayVec::new();
    for source in settings.life.sources.iter() {
        let _full = others.try_push(*source);
    }
    Some(Expected {
        port,
        id: node.id.value,
        source: node.id.value,
        time_base: node.time_base,
        rate: settings.life.output.rate,
        others,
    })
}

/// What the settings say of the stream with this number, counted from 0; none where no such stream is taken.
pub fn expected_of(concentrator: &Concentrator, number: usize) -> Option<Expected> {
    match concentrator {
        Concentrator::Node(settings) => of_pmu(settings, number),
        Concentrator::Merger(settings) => of_node(settings, number),
    }
}
