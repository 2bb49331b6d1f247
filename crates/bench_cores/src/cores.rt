//! Concentrators, from datagrams to published frames: a node, and the merger.
ghost use Rattle.std.specs.Prelude.{◌≡◌, ◌<◌, IfOk};
ghost use Rattle.pdc_publisher.specs.Publisher.{output_in};

use pdc_core::{Core, KeptArrival, Reads};
use pdc_frame::SECONDS;
use pdc_life::MAX_PMUS;
use pdc_mark::ModelMark;
use pdc_merge::Merger;
use pdc_node::Node;
use pdc_publisher::Publisher;
use pdc_row::Output;
use pdc_settings::{MergerSettings, NodeSettings};
use pdc_table::{DueRow, HeldBox, RingTable, spare_row};
use std::alloc::{AllocError, Global};

/// All counts may be adopted.
const CLEARED: [u16; MAX_PMUS] = [u16::MAX; MAX_PMUS];

/// The streams of the merger.
const NODES: usize = 2;

/// The bytes of a step: a stream, and the length of its datagram.
const STEP_LEN: usize = 3;

/// The stream of a step that is a tick.
const TICK: u8 = 255;

/// A core with its publisher, over a mark in memory.
#[derive(Drop)]
struct Concentrator<C: Core + Drop> {
    alloc: Global,
    core: C,
    streams: usize,
    output: Output,
    publisher: Publisher<ModelMark>,
    /// What a datagram says that is no data is kept here.
    kept: KeptArrival,
    /// Each row is popped into this one, and published where it is. There is none where a publish failed.
    row: Option<HeldBox<DueRow>>,
    /// What counts as now at the next tick.
    now: u64,
    mixed: u64,
    ghost same_streams: { streams ≡ C.Settings.streams (C.settings_of core) },
    ghost some_streams: { 0 < streams },
    ghost same_output: { output_in publisher ≡ output },
}

impl<C: Core + Drop> Concentrator<C> {
    /// Up to this instant all is published, and the first tick is at it.
    fn new(
        alloc: Global,
        core: C,
        streams: usize,
        output: Output,
        floor: u64,
    ) -> Result<Concentrator<C>, AllocError>
        requires same_streams { streams ≡ C.Settings.streams (C.settings_of core) }
        requires some_streams { 0 < streams }
    {
        Ok(Concentrator {
            alloc,
            core,
            streams,
            output,
            publisher: Publisher::new(ModelMark::new(1, floor), output, 0),
            kept: KeptArrival::blank(),
            row: Some(spare_row(alloc)?),
            now: floor,
            mixed: 0,
        })
    }

    /// Takes a datagram as the running program does: what it says is read, and data arrives as it is lent.
    fn take(&mut self, stream: usize, bytes: &[u8]) {
        if stream >= self.streams {
            return;
        }
        let settings = self.core.settings();
        match settings.lend(self.alloc, stream, bytes, &mut self.kept) {
            Ok(Some(data)) => {
                let _ = self.core.arrive_lent(stream, &data);
            }
            Ok(None) => {
                let _ = self.core.arrive_kept(stream, &self.kept);
            }
            Err(_) => {}
        }
    }

    /// Mixes in what a tick says, and publishes the rows that it closes.
    fn tick(&mut self) {
        let ticked = self.core.tick(self.now, &CLEARED);
        self.now = self.now.saturating_add(1);
        self.mixed = mix(self.mixed, u64::from(ticked.closed));
        if let Some(change) = ticked.change {
            self.mixed = mix(self.mixed, u64::from(change));
        }
        if ticked.used_up {
            self.mixed = mix(self.mixed, 1);
        }
        for _ in 0..ticked.closed {
            self.publish();
        }
    }

    /// Publishes the next row, and mixes the check word of its frame.
    fn publish(&mut self) {
        let Some(row) = self.row.take() else {
            return;
        };
        let mut row = row;
        if !self.core.pop_into(&mut row) {
            self.row = Some(row);
            return;
        }
        let end = SECONDS * u64::from(self.output.rate);
        let instant = row.get().instant;
        if instant <= self.publisher.last() || instant >= end {
            self.row = Some(row);
            return;
        }
        if let Ok(published) = self.publisher.publish_row(row) {
            let mut published = published;
            published.show(&mut self.mixed, |bytes, mixed| {
                *mixed = with_end(*mixed, bytes);
            });
            self.row = Some(published.into_row());
        }
    }

    /// Takes a step: a tick, or the first bytes of these, as many as it says, for a stream. It answers those behind them.
    fn step<'a>(&mut self, step: &[u8], data: &'a [u8]) -> &'a [u8] {
        let [stream, high, low] = step else {
            return data;
        };
        let len = usize::from(*high) << 8 | usize::from(*low);
        if data.len() < len {
            return data;
        }
        let (datagram, later) = data.split_at(len);
        if *stream == TICK {
            self.tick();
        } else {
            self.take(usize::from(*stream), datagram);
        }
        later
    }

    /// Takes the steps, each of three bytes, whose datagrams stand one behind the other; mixes what ticks say, the check words of the
    /// frames, and in the end all counters.
    fn run(&mut self, steps: &[u8], data: &[u8]) -> u64 {
        let mut rest = data;
        for step in steps.chunks(STEP_LEN) {
            rest = self.step(step, rest);
        }
        self.mix_counts()
    }

    /// What was mixed, with all counters and the counts that wait to be stored.
    fn mix_counts(&self) -> u64 {
        let counts = self.core.counts();
        let mut mixed = self.mixed;
        for count in [counts.taken, counts.candidate, counts.known, counts.refused] {
            mixed = mix(mixed, count);
        }
        for count in counts.causes {
            mixed = mix(mixed, count);
        }
        for count in self.core.waiting() {
            mixed = mix(mixed, u64::from(count));
        }
        mixed
    }
}

/// The number mixed with another.
fn mix(mixed: u64, number: u64) -> u64 {
    mixed.rotate_left(8) ^ number
}

/// The number mixed with the last two bytes.
fn with_end(mixed: u64, bytes: &[u8]) -> u64 {
    let mut mixed = mixed;
    for byte in &bytes[bytes.len().saturating_sub(2)..] {
        mixed = mix(mixed, u64::from(*byte));
    }
    mixed
}

/// A node of these settings, a TOML text; none where they are refused or memory runs out.
fn open_node(alloc: Global, text: &str, floor: u64) -> Option<Concentrator<Node<RingTable>>> {
    let life = NodeSettings::from_toml(alloc, text).ok()?.life;
    let (streams, output) = (life.pmus.len(), life.output);
    let node = Node::open(alloc, life, 1, floor, &[0; MAX_PMUS], floor).ok()?;
    Concentrator::new(alloc, node, streams, output, floor).ok()
}

/// The merger of these settings, a TOML text; none where they are refused or memory runs out.
fn open_merger(alloc: Global, text: &str, floor: u64) -> Option<Concentrator<Merger<RingTable>>> {
    let life = MergerSettings::from_toml(alloc, text).ok()?.life;
    let output = life.output;
    let merger = Merger::open(alloc, life, 1, floor, &[0; MAX_PMUS], floor).ok()?;
    Concentrator::new(alloc, merger, NODES, output, floor).ok()
}

/// Runs a node of these settings, a TOML text, over the steps: [`Concentrator::run`]; 0 where the settings are refused or memory runs
/// out.
#[unsafe(no_mangle)]
pub extern "C" fn dagluwis_node(
    alloc: Global,
    text: &[u8],
    steps: &[u8],
    data: &[u8],
    floor: u64,
) -> u64 {
    let Ok(text) = std::str::from_utf8(text) else {
        return 0;
    };
    match open_node(alloc, text, floor) {
        Some(mut node) => mix(node.run(steps, data), 0),
        None => 0,
    }
}

/// Runs the merger of these settings, a TOML text, over the steps: [`Concentrator::run`], mixed with the count of disagreements; 0 where
/// the settings are refused or memory runs out.
#[unsafe(no_mangle)]
pub extern "C" fn dagluwis_merger(
    alloc: Global,
    text: &[u8],
    steps: &[u8],
    data: &[u8],
    floor: u64,
) -> u64 {
    let Ok(text) = std::str::from_utf8(text) else {
        return 0;
    };
    match open_merger(alloc, text, floor) {
        Some(mut merger) => {
            let mixed = merger.run(steps, data);
            mix(mixed, merger.core.disagree())
        }
        None => 0,
    }
}
