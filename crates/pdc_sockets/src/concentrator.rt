//! What a node and the merger have in common.
ghost use Rattle.std.specs.Prelude.{◌≡◌, ◌≤◌, ◌<◌, IfSome};
ghost use Rattle.pdc_sockets.specs.Concentrator.{ahead_of, output_of, service_of};

use pdc_frame::StreamId;
use pdc_journal::Tags;
use pdc_row::Output;
use pdc_settings::{MergerSettings, NodeSettings, Service};

/// A node or the merger, as its settings describe it.
#[derive(Drop)]
pub enum Concentrator {
    /// A node.
    Node(NodeSettings),
    /// The merger.
    Merger(MergerSettings),
}

impl Concentrator {
    /// What its frames say.
    pub fn output(&self) -> Output
        ensures { result ≡ output_of self.now }
    {
        match self {
            Concentrator::Node(settings) => settings.life.output,
            Concentrator::Merger(settings) => settings.life.output,
        }
    }

    /// The id of the stream with this number, counted from 0; none where it takes no such stream.
    pub fn stream_id(&self, number: usize) -> Option<StreamId> {
        match self {
            Concentrator::Node(settings) => {
                match settings.life.pmus.as_slice().get(number) {
                    Some(pmu) => Some(pmu.stream),
                    None => None,
                }
            }
            Concentrator::Merger(settings) => match number {
                0 => Some(settings.life.first.id),
                1 => Some(settings.life.second.id),
                _ => None,
            },
        }
    }

    /// How the time tags of the stream with this number, counted from 0, are read; none where it takes no such stream.
    pub fn stream_tags(&self, number: usize) -> Option<Tags> {
        let rate = self.output().rate;
        let time_base = match self {
            Concentrator::Node(settings) => {
                match settings.life.pmus.as_slice().get(number) {
                    Some(pmu) => pmu.time_base,
                    None => return None,
                }
            }
            Concentrator::Merger(settings) => match number {
                0 => settings.life.first.time_base,
                1 => settings.life.second.time_base,
                _ => return None,
            },
        };
        Some(Tags { rate, time_base })
    }

    /// By how many instants data may lie above the last tick's now.
    pub fn ahead(&self) -> u64
        ensures { result ≡ ahead_of self.now }
    {
        match self {
            Concentrator::Node(settings) => settings.life.timing.ahead,
            Concentrator::Merger(settings) => settings.life.timing.ahead,
        }
    }

    /// What the running program is told.
    pub fn service_settings(&self) -> Service
        ensures { result ≡ service_of self.now }
    {
        match self {
            Concentrator::Node(settings) => settings.service,
            Concentrator::Merger(settings) => settings.service,
        }
    }
}
