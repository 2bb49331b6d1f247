//! The receivers: each in a thread of its own, started and joined.
ghost use Rattle.std.specs.Prelude.{◌≡◌, ◌≤◌, ◌+◌, IfNone, IfSome, Some, false, map, true, vec_len};
ghost use mathlib.Core.List.{IsPrefix};
ghost use Rattle.pdc_hub.specs.Counted.{AreAllParts, HasSameAmounts, HaveCountedNone};
ghost use Rattle.pdc_hub.specs.Faults.{IsOfReceiver};
ghost use Rattle.pdc_threads.specs.Ended.{AreFor, HasEndedAs, or_else};
ghost use Rattle.pdc_threads.specs.Served.{AllJoined, HasServed, IsPlaceAt};
ghost use Rattle.pdc_threads.specs.Run.{AreSumsOf};
ghost use Rattle.pdc_threads.specs.Shares.{AreMoreThan, AreParts, AreWholeBut, HasAmountsOf};
ghost use Rattle.pdc_threads.specs.Shares.{HasPartsOf, LeaveOne};
ghost use Rattle.pdc_hub.specs.pdc_memory.Asking.{SomeWasRefused};
ghost use Rattle.pdc_threads.specs.Wanted.{LackedRoom};

use crate::asking::{append, buffer, note_denied};
use crate::delivered::Delivered;
use pdc_core::Core;
use pdc_frame::MAX_SIZE;
use pdc_hub::{HubFault, Inlet, Intake, Ledgers, Naming, Received, Shares, receive};
use pdc_life::MAX_PMUS;
use pdc_ports::Source;
use std::alloc::Global;
use std::marker::PhantomData;
use std::snapshot::Snapshot;
use std::sync::Wait;
use std::thread::{Promise, PromisedHandle, Scope, Threads};

/// A source beside its buffer.
#[derive(Drop)]
pub struct Input<S> {
    pub source: S,
    pub buffer: Vec<u8>,
}

/// What a receiver counted.
#[derive(Clone, Copy, Debug, PartialEq, Eq, Drop)]
pub struct Counted {
    pub taken: u64,
    pub refused: u64,
}

/// The sources, each with a buffer; none where a request for that was refused.
pub fn buffered<S: Source + Drop>(alloc: Global, sources: Vec<S>) -> Option<Vec<Input<S>>>
    ensures len { IfSome result (λ inputs. vec_len inputs ≡ vec_len sources) }
    ensures same { IfSome result (λ inputs. map (λ i. i.source) inputs.items ≡ sources.items) }
    ensures refused { IfNone result SomeWasRefused }
{
    let mut inputs = Vec::new(alloc);
    for source in sources {
        let Ok(buffer) = buffer(alloc, MAX_SIZE) else {
            return None;
        };
        if append(&mut inputs, Input { source, buffer }).is_err() {
            return None;
        }
    }
    Some(inputs)
}

/// What a receiver's thread promises, of the source that it was given and the number of its stream: that all that the source told was
/// received for this stream.
#[derive(Drop)]
pub struct Receives<C: Core, N: Naming<C::Settings>, S> {
    /// The source as it was given.
    pub source: Snapshot<S>,
    /// The number of its stream, from 0.
    pub stream: usize,
    of: PhantomData<(C, N)>,
}

impl<C: Core, N: Naming<C::Settings>, S: Source> Promise<Delivered<N>> for Receives<C, N, S> {
    ghost use Rattle.pdc_threads.specs.Served.{HasServed};

    ghost kept_by = { λ p r. HasServed C.rules N.given S.told p.source.value p.stream r };
}

/// The receivers that were started, in the order of the streams.
#[derive(Drop)]
pub struct Started<C: Core, N: Naming<C::Settings>, S: Source> {
    running: Vec<PromisedHandle<Delivered<N>, Receives<C, N, S>>>,
    /// Whether all were started.
    pub complete: bool,
}

/// Starts a receiver for each source, in a thread of its own, each with a part of the shares.
pub fn start_all<
    's,
    E: 's,
    C: Core + Drop + Send + 's,
    N: Naming<C::Settings> + Send + Sync + 's,
    S: Source + Send + Drop + 's,
    R: Wait + Sync,
>(
    scope: &'s Scope<'s, E>,
    rt: &'s R,
    alloc: Global,
    intake: &'s Intake<'s, C, N>,
    inputs: Vec<Input<S>>,
    shares: &mut Shares<N>,
) -> Started<C, N, S>
where
    C::Settings: Sync + 's,
    requires settings { N.settings ≡ Some intake.now.settings.now }
    requires streams { vec_len inputs ≡ C.Settings.streams intake.now.settings.now }
    requires few { vec_len inputs ≤ MAX_PMUS }
    requires parts { AreParts (vec_len inputs + 1) shares.old }
    requires amounts { HaveCountedNone shares.old }
    ensures complete { result.complete ≡ true →
        HaveCountedNone shares.new × AreParts 1 shares.new
        × (vec_len result.running ≡ vec_len inputs) }
    ensures lacked { result.complete ≡ false → LackedRoom }
    ensures placed { AreFor (λ source stream handle.
        (handle.promise.source.value ≡ source) × (handle.promise.stream ≡ stream)) 0
        (map (λ i. i.source) inputs.items) result.running.items }
{
    let mut running = Vec::new(alloc);
    let mut complete = true;
    let mut stream = 0usize;
    for input in inputs {
        if !complete {
            continue;
        }
        let Input { source, buffer } = input;
        let place = Inlet {
            stream,
            buffer,
            shares: split_one(shares),
        };
        let promise = Receives {
            source: Snapshot::of(&source),
            stream,
            of: PhantomData,
        };
        let handle = match scope.spawn_with(
            promise,
            move || -> Delivered<N>
                requires { IsPlaceAt intake.now place }
                ensures { HasServed C.rules N.given S.told source place.stream result }
            { receive_owned(rt, alloc, intake, source, place) },
        ) {
            Ok(handle) => handle,
            Err(refused) => {
                note_denied(&refused);
                complete = false;
                continue;
            }
        };
        if append(&mut running, handle).is_err() {
            complete = false;
            continue;
        }
        stream += 1;
    }
    Started { running, complete }
}

/// One part of each ledger, which has counted nothing.
fn split_one<N: Ledgers>(left: &mut Shares<N>) -> Shares<N>
    requires parts { AreMoreThan 1 left.old }
    ensures left { LeaveOne left.old left.new }
    ensures amounts { HasSameAmounts left.old left.new }
    ensures one { AreParts 1 result }
    ensures nothing { HaveCountedNone result }
{
    Shares {
        taken: left.taken.split_off(1, 0),
        refused: left.refused.split_off(1, 0),
        configured: left.configured.split_off(1, 0),
        front: left.front.again(),
    }
}

/// As `receive`, of a source that is its own.
fn receive_owned<C: Core + Drop, N: Naming<C::Settings>, S: Source + Drop, R: Wait>(
    rt: &R,
    alloc: Global,
    intake: &Intake<'_, C, N>,
    source: S,
    place: Inlet<N>,
) -> Delivered<N>
    requires { IsPlaceAt intake.now place }
    ensures { HasServed C.rules N.given S.told source place.stream result }
{
    let mut source = source;
    let Received {
        shares,
        taken,
        refused,
        fault,
        closed: _,
    } = receive(rt, alloc, intake, &mut source, place);
    Delivered {
        shares,
        taken,
        refused,
        fault,
    }
}

/// The receivers' results, once all have ended.
#[derive(Drop)]
pub struct Joined {
    /// What each counted, in the order of the streams.
    pub receivers: Vec<Counted>,
    /// The first one's fault that had one.
    pub fault: Option<HubFault>,
    /// Whether all were started, and each result was kept.
    pub complete: bool,
}

/// The first fault of these two.
fn first_of(fault: Option<HubFault>, other: Option<HubFault>) -> Option<HubFault>
    ensures { result ≡ or_else fault other }
{
    match fault {
        Some(cause) => Some(cause),
        None => other,
    }
}

/// Joins what was started, and their shares with these. All are joined, whatever they answered.
pub fn join_all<C: Core, N: Naming<C::Settings>, S: Source, R: Threads>(
    rt: &R,
    alloc: Global,
    started: Started<C, N, S>,
    shares: &mut Shares<N>,
) -> Joined
    requires parts { started.complete ≡ true →
        AreWholeBut (vec_len started.running) N.taken N.refused N.configured shares.old }
    requires amounts { started.complete ≡ true → HaveCountedNone shares.old }
    requires lacked { started.complete ≡ false → LackedRoom }
    ensures lacked { result.complete ≡ false → LackedRoom }
    ensures parts { result.complete ≡ true → AreAllParts shares.new N.taken N.refused N.configured }
    ensures started { result.complete ≡ true → started.complete ≡ true }
    ensures each { result.complete ≡ true → vec_len result.receivers ≡ vec_len started.running }
    ensures fault { IfSome result.fault IsOfReceiver }
    ensures sums { result.complete ≡ true →
        AreSumsOf shares.new.taken.amount shares.new.refused.amount result.receivers.items }
    ensures ended { AllJoined (λ handle. HasEndedAs C.rules N.given S.told shares.new.front
        handle.promise.source.value handle.promise.stream) started.running.items shares.new result }
{
    let Started {
        running,
        complete: started_all,
    } = started;
    let mut receivers = Vec::new(alloc);
    let mut fault = None;
    let mut complete = started_all;
    for handle in running {
        let Delivered {
            shares: more,
            taken,
            refused,
            fault: cause,
        } = handle.join(rt);
        merge(shares, more);
        fault = first_of(fault, cause);
        if append(&mut receivers, Counted { taken, refused }).is_err() {
            complete = false;
        }
    }
    Joined {
        receivers,
        fault,
        complete,
    }
}

/// Adds the shares to those joined before, which then have seen what both saw.
fn merge<N: Ledgers>(all: &mut Shares<N>, more: Shares<N>)
    ensures parts { HasPartsOf all.old more all.new }
    ensures seen { IsPrefix all.old.front all.new.front × IsPrefix more.front all.new.front }
    ensures amounts { HasAmountsOf all.old more all.new }
{
    let Shares {
        taken,
        refused,
        configured,
        front,
    } = more;
    all.front.learn(&front);
    all.taken.merge(taken);
    all.refused.merge(refused);
    all.configured.merge(configured);
}
