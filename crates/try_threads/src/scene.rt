//! One run, and what came of it.
ghost use Rattle.std.specs.Prelude.{◌≡◌, ◌≤◌, ◌<◌, ◌+◌, Some, [], length, vec_len};
ghost use Rattle.pdc_life.specs.CoreKind.{given_of, OfNode};
ghost use Rattle.pdc_node.specs.Node.{StandsFor};
ghost use Rattle.pdc_publisher.specs.Publisher.{last_in, mark_in, output_in};

use crate::scripted::{Act, Following, Scripted, Shown};
use crate::sinks::Fused;
use pdc_life::{MAX_PMUS, Settings};
use pdc_mark::Mark;
use pdc_node::{Node, copy_of};
use pdc_publisher::Publisher;
use pdc_table::RingTable;
use pdc_threads::{Beside, Blanks, Crew, Hub, MemorySink, Naming, Pace, Ran, run};
use std::alloc::Global;
use std::io;
use std::marker::Brand;
use std::sync::Wait;
use std::sync::atomic::Ordering;
use std::thread::Threads;

/// The first instant that the ticker gives.
const FIRST: u64 = 57_478_860_000;

/// A run of node A.
#[derive(Clone, Copy)]
pub struct Scene<'a> {
    /// What is printed right before the run.
    pub name: &'a str,
    /// After how many steps the base is brought up.
    pub limit: usize,
    /// After how many ticks the layout goes out again.
    pub layout_every: u32,
    /// What the source of each PMU does.
    pub first: &'a [Act<'a>],
    pub second: &'a [Act<'a>],
    /// How many data frames the second tick waits for.
    pub taken: u64,
    /// What sources and ticker show.
    pub shown: &'a Shown,
    /// The number of the frame at which the sink fails, from 1.
    pub sink_fails_at: u32,
}

/// What came of a run, how much data the core had taken, and what the ticker was told last: how many rows were published, and the last
/// instant of them.
#[derive(Drop)]
pub struct Played<M: Mark> {
    pub ran: Ran<M, Fused>,
    pub taken: u64,
    pub published: u64,
    pub last: u64,
}

/// What a run begins with: two nodes that were opened alike with this start and these counts, who publishes, and where frames go.
#[derive(Drop)]
struct Stage<M: Mark> {
    start: u32,
    counts: [u16; MAX_PMUS],
    base: Node<RingTable>,
    state: Node<RingTable>,
    publisher: Publisher<M>,
    sink: Fused,
}

/// Runs two nodes that were opened alike: one is the base, the other the state.
fn opened<'h, N: Naming<Settings> + Send + Sync, M: Mark + Drop, R: Threads + Wait + Sync + Print>(
    rt: &'h R,
    alloc: Global,
    settings: &Settings,
    scene: &Scene<'h>,
    stage: Stage<M>,
    blanks: Blanks,
) -> io::Result<Option<Played<M>>>
    requires given { N.given ≡ Some (given_of (OfNode settings.now) stage.start 0 stage.counts 0) }
    requires alike { StandsFor (given_of (OfNode settings.now) stage.start 0 stage.counts 0) [] stage.base × StandsFor (given_of (OfNode settings.now) stage.start 0 stage.counts 0) [] stage.state }
    requires settings { (N.settings ≡ Some settings.now) × (stage.base.settings ≡ settings.now) × (stage.state.settings ≡ settings.now) }
    requires popped { stage.state.popped ≡ 0 }
    requires limit { 1 ≤ scene.now.limit }
    requires pace { 1 ≤ scene.now.layout_every }
    requires names { (blanks.taken.name ≡ N.taken.name) × (blanks.refused.name ≡ N.refused.name) × (blanks.configured.name ≡ N.configured.name) × (blanks.top.name ≡ N.top.name) × (blanks.turns.name ≡ N.turns.name) }
    requires log { (blanks.log.seen.book ≡ N.book) × (blanks.log.seen.log ≡ []) }
    requires parts { (blanks.taken.parts ≡ N.taken.parts) × (blanks.refused.parts ≡ N.refused.parts) × (blanks.configured.parts ≡ N.configured.parts) × (blanks.top.parts ≡ N.top.parts) × (blanks.turns.parts ≡ N.turns.parts) }
    requires count { (N.taken.parts ≡ 3) × (N.refused.parts ≡ 3) × (N.configured.parts ≡ 3) × (N.top.parts ≡ 1) × (N.turns.parts ≡ 1) }
    requires streams { length settings.now.pmus.items ≡ 2 }
    requires publisher { (last_in stage.publisher ≡ 0) × ((M.stored (mark_in stage.publisher)).floor ≡ 0) × (output_in stage.publisher ≡ settings.now.output) }
    requires begins { ((M.stored (mark_in stage.publisher)).start ≡ stage.start) × ((M.stored (mark_in stage.publisher)).counts ≡ stage.counts) }
{
    let Stage {
        start: _,
        counts: _,
        base,
        state,
        publisher,
        sink,
    } = stage;
    let limit = scene.limit;
    let Ok((hub, shares, pops)) = Hub::<Node<RingTable>, N>::new(
        alloc, base, state, limit, 0, blanks,
    ) else {
        return Ok(None);
    };
    let shared = &hub;
    let mut sources = Vec::new(alloc);
    scene.shown.sections.store(0, Ordering::SeqCst);
    let one = Scripted::new(scene.shown, false, scene.first);
    let other = Scripted::new(scene.shown, true, scene.second);
    if sources.push(one).is_err() || sources.push(other).is_err() {
        return Ok(None);
    }
    let ticker = Following {
        rt,
        hub: shared,
        first: FIRST,
        taken: scene.taken,
        given: 0,
        shown: scene.shown,
    };
    let pace = Pace {
        rate: settings.output.rate,
        layout_every: scene.layout_every,
    };
    let name = scene.name;
    let said = println!(rt; "{name}");
    let crew = Crew {
        shares,
        pops,
        sources,
        publisher,
        ticker,
        pace,
        sink,
    };
    let ran = run::<
        Node<RingTable>,
        N,
        Beside<Scripted<'_>, M, Following<'_, 'h, Node<RingTable>, N, R>, Fused>,
        R,
    >(rt, alloc, shared, settings, crew).ran;
    let taken = hub.counts(rt).taken;
    let published = scene.shown.published.load(Ordering::SeqCst);
    let last = scene.shown.last.load(Ordering::SeqCst);
    said.and(Ok(Some(Played {
        ran,
        taken,
        published,
        last,
    })))
}

/// Runs node A over this mark, if there is memory for it; right before the run it prints the name.
pub fn run_scene<M: Mark + Drop, R: Threads + Wait + Sync + Print>(
    rt: &R,
    alloc: Global,
    settings: &Settings,
    mark: M,
    scene: &Scene<'_>,
) -> io::Result<Option<Played<M>>>
    requires floor { (M.stored mark).floor ≡ 0 }
    requires limit { 1 ≤ scene.now.limit }
    requires pace { 1 ≤ scene.now.layout_every }
    requires streams { length settings.now.pmus.items ≡ 2 }
{
    let (start, _) = mark.stored();
    let counts = mark.counts();
    let Ok(base) = Node::open(alloc, copy_of(settings), start, 0, &counts, 0) else {
        return Ok(None);
    };
    let Ok(state) = Node::open(alloc, copy_of(settings), start, 0, &counts, 0) else {
        return Ok(None);
    };
    let publisher = Publisher::new(mark, settings.output, 0);
    let blanks = Blanks::new(3);
    let sink = Fused {
        inner: MemorySink::new(alloc),
        fails_at: scene.sink_fails_at,
        sent: 0,
        failures: 0,
    };
    let stage = Stage {
        start,
        counts,
        base,
        state,
        publisher,
        sink,
    };
    opened::<Brand, M, R>(rt, alloc, settings, scene, stage, blanks)
}
