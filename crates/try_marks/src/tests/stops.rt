//! A stop, and a fault, behind each device call of a store.

use super::fixtures::{
    FLOOR, LANDINGS, OPENING, Told, begun, counts, fresh, opened, put, raise, reserve, reserved,
    told,
};
use super::once_disk::OnceDisk;
use super::same;
use pdc_disk::{FuseDisk, Landing, MemoryDisk};
use pdc_mark::{MARK_LEN, Mark, MarkFault, ModelMark, Store};
use std::process::Abort;

/// The three stores.
#[derive(Clone, Copy, Debug, PartialEq, Eq)]
enum Call {
    Begin,
    Reserve,
    Raise,
}

const CALLS: [Call; 3] = [Call::Begin, Call::Reserve, Call::Raise];

impl Call {
    /// The device calls that it makes on its disk.
    fn device_calls(self) -> u64 {
        match self {
            Call::Begin => 4,
            Call::Reserve | Call::Raise => 6,
        }
    }

    /// The disk on which it is made.
    fn disk(self, rt: &impl Abort) -> MemoryDisk {
        match self {
            Call::Begin => fresh(rt),
            Call::Reserve => begun(rt),
            Call::Raise => reserved(),
        }
    }

    fn make<M: Mark>(self, mark: &mut M) -> Result<(), MarkFault> {
        match self {
            Call::Begin => mark.begin().map(|_| ()),
            Call::Reserve => reserve(mark, FLOOR),
            Call::Raise => raise(mark, counts(1, 1)),
        }
    }

    /// The mark before it and after it.
    fn told(self) -> (Told, Told) {
        let none = counts(0, 0);
        match self {
            Call::Begin => (((0, 0), none), ((1, 0), none)),
            Call::Reserve => (((1, 0), none), ((1, FLOOR), none)),
            Call::Raise => (((1, FLOOR), none), ((1, FLOOR), counts(1, 1))),
        }
    }
}

/// The gate is written by the last call but one of a store, and is on the disk after the last.
fn lands(done: u64, calls: u64, landing: Landing) -> bool {
    match landing {
        Landing::After | Landing::Fill(0x5A) => calls <= done.saturating_add(1),
        _ => calls <= done,
    }
}

/// A call that isn't passed is a fault from then on; the stop leaves the old mark or the new one.
fn stop_behind(rt: &impl Abort, call: Call, done: u64, landing: Landing) {
    let calls = call.device_calls();
    let mut mark = opened(
        rt,
        FuseDisk::new(call.disk(rt), OPENING.saturating_add(done)),
    );
    let answer = call.make(&mut mark);
    let wanted = if done == calls {
        Ok(())
    } else {
        Err(MarkFault::Device)
    };
    is!(rt; answer, wanted);
    if done != calls {
        is!(rt; mark.begin(), Err(MarkFault::Device));
    }
    let disk = mark.into_disk().into_inner();
    let stopped = opened(rt, disk.stopped(landing));
    let (old, new) = call.told();
    let left = if lands(done, calls, landing) {
        new
    } else {
        old
    };
    is!(rt; (call, done, landing, told(&stopped)), (call, done, landing, left));
}

#[test]
fn stops_behind_each_device_call(rt: HostRuntime) {
    for call in CALLS {
        for done in 0..=call.device_calls() {
            for landing in LANDINGS {
                stop_behind(&rt, call, done, landing);
            }
        }
    }
}

/// After one fault the mark makes no device call, though the disk works again; opened again it is the old mark or the
/// new one.
fn fault_behind(rt: &impl Abort, call: Call, done: u64) {
    let mut mark = opened(
        rt,
        OnceDisk::new(call.disk(rt), OPENING.saturating_add(done)),
    );
    is!(rt; call.make(&mut mark), Err(MarkFault::Device));
    is!(rt; mark.begin(), Err(MarkFault::Device));
    is!(rt; mark.failures(), 1);
    let Ok(reopened) = mark.reopen() else {
        panic!(rt; "the mark opens again");
    };
    let (old, new) = call.told();
    let left = if done.saturating_add(1) == call.device_calls() {
        new
    } else {
        old
    };
    is!(rt; (call, done, told(&reopened)), (call, done, left));
}

#[test]
fn one_fault_at_each_device_call(rt: HostRuntime) {
    for call in CALLS {
        for done in 0..call.device_calls() {
            fault_behind(&rt, call, done);
        }
    }
}

/// Stops in the stores of a mark whose start and floor are 0.
fn stop_in_each<S: Store>(rt: &impl Abort, store: &mut S) {
    for (landed, start, floor, count) in [(false, 0, 0, 0), (true, 1, 7, 3)] {
        if store.stored().0 < 9 {
            store.begin_stopped(landed);
        }
        if store.stored().1 < 7 {
            store.reserve_stopped(7, landed);
        }
        if let Some(raised) = pdc_mark::raised(&store.counts(), &counts(0, 3)) {
            store.raise_stopped(&raised, landed);
        }
        store.stopped();
        is!(rt; told(store), ((start, floor), counts(0, count)));
    }
}

#[test]
fn stores_with_stops(rt: HostRuntime) {
    stop_in_each(&rt, &mut ModelMark::new(0, 0));
    let mut mark = opened(&rt, fresh(&rt));
    stop_in_each(&rt, &mut mark);
    is!(&rt; mark.begin(), Ok(2));
}

/// The fields of a store that doesn't land hold A5 behind a closed gate.
#[test]
fn a_store_that_does_not_land(rt: HostRuntime) {
    let mut wanted = [0; MARK_LEN];
    put(&mut wanted, 0, &[0x5A]);
    put(&mut wanted, 8, &[0x00, 0xC9, 0x00, 0x32]);
    put(&mut wanted, 136, &[0xA5; 48]);
    let mut mark = opened(&rt, fresh(&rt));
    if mark.stored().0 < 9 {
        mark.begin_stopped(false);
    }
    is!(&rt; mark.into_disk().bytes(), wanted.as_slice());
}
