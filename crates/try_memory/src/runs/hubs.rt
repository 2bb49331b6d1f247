//! The calls of a hub over two nodes, each the first one of a hub of its own.
ghost use Rattle.std.specs.Prelude.{◌≡◌, ◌<◌, Some, [], length};
ghost use Rattle.pdc_life.specs.CoreKind.{given_of, OfNode};
ghost use Rattle.pdc_node.specs.Node.{StandsFor};
ghost use Rattle.try_memory.specs.Mine.{IsFit};

use crate::runs::settings::of_node;
use crate::trial::{DONE, NO_MEMORY, State, begin, end, made, state_of};
use crate::vectors::{DATA_11, FIRST, SOC};
use pdc_core::{KeptArrival, Reads};
use pdc_hub::{Blanks, Hub, HubFault, Ledgers, Naming, Pops, Shares};
use pdc_life::{MAX_PMUS, Settings};
use pdc_mark::ModelMark;
use pdc_node::{Node, copy_of};
use pdc_table::RingTable;
use std::alloc::Global;
use std::io;
use std::marker::Brand;
use std::sync::Wait;

/// After how many steps a hub's base is brought up.
const LIMIT: usize = 7;

/// What is called.
#[derive(Clone, Copy)]
enum Called {
    Deliver,
    Tick,
    Pop,
    Layout,
}

/// All of them.
const ALL: [Called; 4] = [Called::Deliver, Called::Tick, Called::Pop, Called::Layout];

/// The shares of a hub's caller, and what the layout is appended to.
#[derive(Drop)]
struct Mine<N: Ledgers> {
    shares: Shares<N>,
    pops: Pops<N, ModelMark>,
    out: Vec<u8>,
}

/// Two nodes at the start of one life, and what both were opened with: a hub's base, and its state.
#[derive(Drop)]
struct Opened<'s> {
    settings: &'s Settings,
    /// For each column the count below which no section is held.
    counts: [u16; MAX_PMUS],
    base: Node<RingTable>,
    state: Node<RingTable>,
}

/// The name of a call.
fn name_of(called: Called) -> &'static str {
    match called {
        Called::Deliver => "Hub::deliver",
        Called::Tick => "Hub::tick",
        Called::Pop => "Hub::pop",
        Called::Layout => "Hub::layout",
    }
}

/// What the answer is told as.
fn told<X: Drop>(answer: Result<X, HubFault>) -> &'static str {
    match answer {
        Ok(_) => DONE,
        Err(HubFault::NoMemory) => "H3 NoMemory",
        Err(_) => "another fault",
    }
}

/// The layout that was appended, and how many arrivals were counted.
fn state<N: Naming<Settings>, R: Wait>(rt: &R, hub: &Hub<Node<RingTable>, N>, out: &[u8]) -> State {
    let counts = hub.counts(rt);
    state_of(out, counts.taken.saturating_add(counts.refused))
}

/// Makes the call.
fn call<N: Naming<Settings>, R: Wait>(
    rt: &R,
    alloc: Global,
    settings: &Settings,
    hub: &Hub<Node<RingTable>, N>,
    mine: &mut Mine<N>,
    called: Called,
) -> &'static str
    requires settings { N.settings ≡ Some settings.now }
    requires streams { 0 < length settings.now.pmus.items }
    requires fit { IsFit mine.old N.top.parts N.turns.parts }
    ensures fit { IsFit mine.new N.top.parts N.turns.parts }
{
    match called {
        Called::Deliver => {
            let mut kept = KeptArrival::blank();
            match settings.lend(alloc, 0, &DATA_11, &mut kept) {
                Ok(lent) => {
                    told(hub.deliver(rt, 0, &DATA_11, &lent, &mut kept, &mut mine.shares))
                }
                Err(_) => NO_MEMORY,
            }
        }
        Called::Tick => {
            hub.tick(rt, &mut mine.pops, FIRST, &ModelMark::new(1, 0));
            DONE
        }
        Called::Pop => {
            hub.pop(rt, &mut mine.pops);
            DONE
        }
        Called::Layout => told(hub.layout(rt, &mut mine.pops, SOC, &mut mine.out)),
    }
}

/// Makes the call, and prints it. Whether it was answered `Ok`.
fn attempt<N: Naming<Settings>, R: Wait + Print>(
    rt: &R,
    alloc: Global,
    settings: &Settings,
    hub: &Hub<Node<RingTable>, N>,
    mine: &mut Mine<N>,
    called: Called,
) -> io::Result<bool>
    requires settings { N.settings ≡ Some settings.now }
    requires streams { 0 < length settings.now.pmus.items }
    requires fit { IsFit mine.old N.top.parts N.turns.parts }
    ensures fit { IsFit mine.new N.top.parts N.turns.parts }
{
    begin(rt, name_of(called), state(rt, hub, &mine.out))?;
    let answer = call(rt, alloc, settings, hub, mine, called);
    end(rt, answer, state(rt, hub, &mine.out))?;
    Ok(answer == DONE)
}

/// Makes the call, and again where it is refused.
fn attempts<N: Naming<Settings>, R: Wait + Print>(
    rt: &R,
    alloc: Global,
    settings: &Settings,
    hub: &Hub<Node<RingTable>, N>,
    mine: &mut Mine<N>,
    called: Called,
) -> io::Result<()>
    requires settings { N.settings ≡ Some settings.now }
    requires streams { 0 < length settings.now.pmus.items }
    requires fit { IsFit mine.old N.top.parts N.turns.parts }
{
    if attempt(rt, alloc, settings, hub, mine, called)? {
        return Ok(());
    }
    attempt(rt, alloc, settings, hub, mine, called)?;
    Ok(())
}

/// Makes the call on a hub over these nodes, and again where it is refused. Whether the hub was made.
fn play_on<N: Naming<Settings>, R: Wait + Print>(
    rt: &R,
    alloc: Global,
    opened: Opened,
    called: Called,
    blanks: Blanks,
) -> io::Result<bool>
    requires given { N.given ≡ Some (given_of (OfNode opened.settings.now) 1 0 opened.counts 0) }
    requires alike { StandsFor (given_of (OfNode opened.settings.now) 1 0 opened.counts 0) [] opened.base × StandsFor (given_of (OfNode opened.settings.now) 1 0 opened.counts 0) [] opened.state }
    requires settings { (N.settings ≡ Some opened.settings.now) × (opened.base.settings ≡ opened.settings.now) × (opened.state.settings ≡ opened.settings.now) }
    requires popped { opened.state.popped ≡ 0 }
    requires streams { 0 < length opened.settings.now.pmus.items }
    requires names { (blanks.taken.name ≡ N.taken.name) × (blanks.refused.name ≡ N.refused.name) × (blanks.configured.name ≡ N.configured.name) × (blanks.top.name ≡ N.top.name) × (blanks.turns.name ≡ N.turns.name) }
    requires log { (blanks.log.seen.book ≡ N.book) × (blanks.log.seen.log ≡ []) }
    requires parts { (blanks.taken.parts ≡ N.taken.parts) × (blanks.refused.parts ≡ N.refused.parts) × (blanks.configured.parts ≡ N.configured.parts) × (blanks.top.parts ≡ N.top.parts) × (blanks.turns.parts ≡ N.turns.parts) }
    requires count { (N.taken.parts ≡ 1) × (N.refused.parts ≡ 1) × (N.configured.parts ≡ 1) × (N.top.parts ≡ 1) × (N.turns.parts ≡ 1) }
{
    let Opened {
        settings,
        base,
        state,
        ..
    } = opened;
    begin(rt, "Hub::new", made(false))?;
    let Ok((hub, shares, pops)) = Hub::<Node<RingTable>, N>::new(
        alloc, base, state, LIMIT, 0, blanks,
    ) else {
        end(rt, NO_MEMORY, made(false))?;
        return Ok(false);
    };
    end(rt, DONE, made(true))?;
    let mut mine = Mine {
        shares,
        pops,
        out: Vec::new(alloc),
    };
    attempts(rt, alloc, settings, &hub, &mut mine, called)?;
    Ok(true)
}

/// Makes the call on a hub of node 201. Whether the hub was made.
fn play_one<R: Wait + Print>(
    rt: &R,
    alloc: Global,
    settings: &Settings,
    called: Called,
) -> io::Result<bool>
    requires streams { 0 < length settings.now.pmus.items }
{
    let counts = [0; MAX_PMUS];
    let base = Node::open(alloc, copy_of(settings), 1, 0, &counts, 0)?;
    let state = Node::open(alloc, copy_of(settings), 1, 0, &counts, 0)?;
    let blanks = Blanks::new(1);
    let opened = Opened {
        settings,
        counts,
        base,
        state,
    };
    play_on::<Brand, R>(rt, alloc, opened, called, blanks)
}

/// Each call, and again where its hub was refused.
pub fn play<R: Wait + Print>(rt: &R, alloc: Global) -> io::Result<()> {
    let settings = of_node(alloc, 201)?;
    for called in ALL {
        if !settings.pmus.is_empty() && !play_one(rt, alloc, &settings, called)? {
            play_one(rt, alloc, &settings, called)?;
        }
    }
    Ok(())
}
