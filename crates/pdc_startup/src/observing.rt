//! What is watched of a run.
ghost use Rattle.std.specs.Prelude.{◌≡◌, IfOk, IfSome, is_some, map, vec_len};
ghost use Rattle.pdc_sockets.specs.Concentrator.{is_woken, service_of};
ghost use Rattle.pdc_startup.specs.Watching.{source_in};

use crate::expecting::expected_of;
use crate::signs::Signs;
use arrayvec::ArrayVec;
use pdc_journal::{
    Compared, Followers, Hearing, Journal, LeftOut, MAX_SOURCES, Measured, ObservedSource, Of,
    Opening, OutputTally, Tags, Tally, Watchers,
};
use pdc_metrics::{Metered, MeteredRecord, Stores, StreamPort};
use pdc_ports::Source;
use pdc_recording::{RecordedSource, Recording, Written};
use pdc_settings::{Network, TickWhen};
use pdc_sockets::Concentrator;
use pdc_ticking::{HoldingSource, LastTick, Patience, Wake};
use std::alloc::{AllocError, Global};
use std::net::SocketAddr;
use std::rt::Clock;
use std::sync::Wait;

/// What is watched of a run: the lines that it tells, the tally of each stream, in their order, the port of each that comes to one, the tally
/// of each further destination, what its threads say, when it ticked last, by what it is woken, what the merger leaves out, how the run
/// stands, where that is served, what the stores of its mark took, and what is recorded of it.
#[derive(Drop)]
pub struct Observed {
    pub journal: Journal,
    pub tallies: Vec<Tally>,
    pub ports: Vec<StreamPort>,
    pub outputs: Vec<OutputTally>,
    pub signs: Signs,
    pub last_tick: LastTick,
    pub wake: Option<Wake>,
    pub left_out: Option<LeftOut>,
    pub measured: Option<Measured>,
    pub stores: Stores,
    pub recording: Option<Recording>,
}

/// The tally of each stream of the concentrator, in their order.
fn tallies_of(alloc: Global, concentrator: &Concentrator) -> Result<Vec<Tally>, AllocError> {
    let mut tallies = Vec::new(alloc);
    match concentrator {
        Concentrator::Node(settings) => {
            for pmu in settings.life.pmus.iter() {
                tallies.push(Tally::new(Of::Pmu(pmu.stream.value)))?;
            }
        }
        Concentrator::Merger(settings) => {
            tallies.push(Tally::new(Of::Node(settings.life.first.id.value)))?;
            tallies.push(Tally::new(Of::Node(settings.life.second.id.value)))?;
        }
    }
    Ok(tallies)
}

/// The tally of each further destination, in their order.
fn outputs_of(alloc: Global, network: &Network) -> Result<Vec<OutputTally>, AllocError>
    ensures { IfOk result (λ outputs. vec_len outputs ≡ vec_len network.now.outputs) }
{
    let mut outputs = Vec::new(alloc);
    for output in &network.outputs {
        outputs.push(OutputTally::new(alloc, output.as_str())?)?;
    }
    Ok(outputs)
}

/// The port of each stream that comes to one, in their order: those over TCP have none.
fn ports_of(
    alloc: Global,
    concentrator: &Concentrator,
    network: &Network,
    tallies: &[Tally],
) -> Result<Vec<StreamPort>, AllocError> {
    let mut ports = Vec::new(alloc);
    for (number, tally) in tallies.iter().enumerate() {
        let is_connected = match network.inputs.get(number) {
            Some(input) => input.tcp.is_some(),
            None => false,
        };
        if let (false, Some(expected)) = (is_connected, expected_of(concentrator, number)) {
            ports.push(StreamPort {
                of: tally.of,
                at: SocketAddr::from((network.address, expected.port)),
            })?;
        }
    }
    Ok(ports)
}

/// The sources of the settings.
fn sources_of(concentrator: &Concentrator) -> ArrayVec<u16, MAX_SOURCES> {
    let mut sources = ArrayVec::new();
    match concentrator {
        Concentrator::Node(settings) => {
            for pmu in settings.life.pmus.iter() {
                let _full = sources.try_push(pmu.source);
            }
        }
        Concentrator::Merger(settings) => {
            for source in settings.life.sources.iter() {
                let _full = sources.try_push(*source);
            }
        }
    }
    sources
}

/// How the run stands, where the counters are served.
fn measured_of(concentrator: &Concentrator, network: &Network) -> Option<Measured>
    ensures { is_some result ≡ is_some network.now.metrics_port }
{
    let output = concentrator.output();
    let tags = Tags {
        rate: output.rate,
        time_base: output.time_base,
    };
    match network.metrics_port {
        Some(_) => Some(Measured::new(tags, &sources_of(concentrator))),
        None => None,
    }
}

/// What is recorded of a run, if it is recorded.
fn recording_of(alloc: Global, is_recorded: bool) -> Result<Option<Recording>, AllocError>
    ensures { IfOk result (λ recording. is_some recording ≡ is_recorded) }
{
    if is_recorded {
        Ok(Some(Recording::new(alloc)?))
    } else {
        Ok(None)
    }
}

/// By what the aligner is woken, where it ticks as soon as a row is whole.
fn wake_of(concentrator: &Concentrator) -> Option<Wake>
    ensures { is_some result ≡ is_woken (service_of concentrator.now).tick }
{
    match concentrator.service_settings().tick {
        TickWhen::Whole => Some(Wake::new()),
        TickWhen::Period => None,
    }
}

/// What is metered of a record.
fn metered_record(written: &Written) -> MeteredRecord<'_> {
    MeteredRecord {
        is_written: &written.is_written,
        bytes: &written.bytes,
        gaps: &written.gaps,
    }
}

impl Observed {
    /// Nothing was told and counted yet.
    ///
    /// # Errors
    ///
    /// [`AllocError`] where there is no memory for it.
    pub fn new(
        alloc: Global,
        concentrator: &Concentrator,
        network: &Network,
        is_quiet: bool,
        is_recorded: bool,
    ) -> Result<Observed, AllocError>
        // Each further destination has a tally.
        ensures outputs { IfOk result (λ observed. vec_len observed.outputs ≡
            vec_len network.now.outputs) }
        // The aligner is woken where the settings say that it ticks as soon as a row is whole.
        ensures wake { IfOk result (λ observed. is_some observed.wake ≡
            is_woken (service_of concentrator.now).tick) }
        // How the run stands is kept where the settings say that it is served.
        ensures measured { IfOk result (λ observed. is_some observed.measured ≡
            is_some network.now.metrics_port) }
        ensures recording { IfOk result (λ observed. is_some observed.recording ≡ is_recorded) }
    {
        let tallies = tallies_of(alloc, concentrator)?;
        let ports = ports_of(alloc, concentrator, network, &tallies)?;
        let outputs = outputs_of(alloc, network)?;
        let recording = recording_of(alloc, is_recorded)?;
        let journal = Journal::new(alloc, is_quiet)?;
        Ok(Observed {
            journal,
            tallies,
            ports,
            outputs,
            signs: Signs::new(),
            last_tick: LastTick::new(),
            wake: wake_of(concentrator),
            left_out: match concentrator {
                Concentrator::Node(_) => None,
                Concentrator::Merger(settings) => Some(LeftOut::new(&settings.life.sources)),
            },
            measured: measured_of(concentrator, network),
            stores: Stores::new(),
            recording,
        })
    }

    /// Who is told what is sent.
    pub fn followers(&self) -> Followers<'_> {
        Followers {
            left_out: self.left_out.as_ref(),
            measured: self.measured.as_ref(),
        }
    }

    /// What is metered, where it is served.
    pub fn metered(&self) -> Option<Metered<'_>> {
        match &self.measured {
            Some(measured) => Some(Metered {
                tallies: self.tallies.as_slice(),
                ports: self.ports.as_slice(),
                outputs: self.outputs.as_slice(),
                left_out: self.left_out.as_ref(),
                measured,
                unsent: &self.signs.unsent,
                consumers: &self.signs.consumers,
                late_ticks: &self.signs.late_ticks,
                stores: &self.stores,
                record: match &self.recording {
                    Some(recording) => Some(metered_record(&recording.written)),
                    None => None,
                },
            }),
            None => None,
        }
    }
}

/// What looks at the datagrams of a stream, whose tags are read so.
fn watchers_of(observed: &Observed, tags: Tags) -> Watchers<'_> {
    Watchers {
        compared: match &observed.left_out {
            Some(left_out) => Some(Compared::new(left_out)),
            None => None,
        },
        opening: match &observed.measured {
            Some(measured) => Some(Opening::new(measured, tags)),
            None => None,
        },
    }
}

/// A source of a run: it is watched, recorded where the run is, and held back where the run is late; it wakes the aligner where that is to tick
/// as soon as a row is whole.
pub type Watched<'a, S, R> = HoldingSource<'a, RecordedSource<'a, ObservedSource<'a, S, R>, R>, R>;

/// The source of the stream with this number, watched, recorded where the run is, held back where it is late, and waking the aligner where it is
/// to be woken; none where no such stream is taken.
fn observe<'a, S: Source + Drop, R: Wait + Clock>(
    rt: &'a R,
    alloc: Global,
    concentrator: &Concentrator,
    observed: &'a Observed,
    number: usize,
    source: S,
) -> Option<Watched<'a, S, R>>
    ensures { IfSome result (λ watched. source_in watched ≡ source) }
{
    let tally = observed.tallies.get(number)?;
    let tags = concentrator.stream_tags(number)?;
    let hearing = Hearing::new(expected_of(concentrator, number)?);
    let watchers = watchers_of(observed, tags);
    let journal = &observed.journal;
    let source = ObservedSource::new(rt, alloc, journal, tally, hearing, watchers, source);
    let recording = observed.recording.as_ref();
    let place = u16::try_from(number).unwrap_or(u16::MAX);
    let source = RecordedSource::new(rt, alloc, recording, place, source);
    let patience = Patience {
        last_tick: &observed.last_tick,
        tags,
        ahead: concentrator.ahead(),
    };
    let wake = observed.wake.as_ref();
    Some(HoldingSource::new(rt, Some(patience), wake, source))
}

/// The sources, each watched, recorded where the run is, held back where it is late, and waking the aligner where it is to be woken; none where
/// there is no memory for them.
pub fn observe_all<'a, S: Source + Drop, R: Wait + Clock>(
    rt: &'a R,
    alloc: Global,
    concentrator: &Concentrator,
    observed: &'a Observed,
    sources: Vec<S>,
) -> Option<Vec<Watched<'a, S, R>>>
    ensures len { IfSome result (λ watched. vec_len watched ≡ vec_len sources) }
    ensures same { IfSome result (λ watched. map source_in watched.items ≡ sources.items) }
{
    let mut watched = Vec::new(alloc);
    for source in sources {
        let number = watched.len();
        let Some(source) = observe(rt, alloc, concentrator, observed, number, source) else {
            return None;
        };
        if watched.push(source).is_err() {
            return None;
        }
    }
    Some(watched)
}
