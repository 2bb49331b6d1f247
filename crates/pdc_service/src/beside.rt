//! The threads beside a run: they print what is told, write its record, and serve the counters and the consumers.

use crate::porter::JournalPorter;
use crate::serving::{Consumers, Serving};
use pdc_journal::Journal;
use pdc_server::{Naming, Recent, Reception, serve};
use pdc_startup::{Metered, Observed, OwnFiles, Series, Shelf, serve_metrics, write_record};
use std::alloc::Global;
use std::net::TcpListener;
use std::random::RandomSource;
use std::rt::Clock;
use std::sync::Wait;
use std::thread::{Scope, Threads};

/// Serves consumers, one after the other, until the run ends.
fn serve_consumers<N: Naming, R: Wait + Clock>(
    rt: &R,
    alloc: Global,
    recent: &Recent<N>,
    serving: &Serving<'_>,
) {
    let consumers = serving.consumers;
    let porter = JournalPorter {
        rt,
        alloc,
        journal: &serving.observed.journal,
        port: serving.concentrator.service_settings().session_port,
        most: consumers.most,
    };
    let reception = Reception {
        present: &serving.observed.signs.consumers,
        seats: &consumers.seats,
        porter: &porter,
    };
    serve(rt, alloc, recent, &consumers.listener, &reception);
}

/// Starts a thread that serves consumers, one after the other, and answers whether it was started.
fn start_session<'s, E: 's, N: Naming + Send + 's, R: Wait + Clock + Sync + 's>(
    scope: &'s Scope<'s, E>,
    rt: &'s R,
    alloc: Global,
    recent: &'s Recent<N>,
    serving: &'s Serving<'s>,
) -> bool {
    scope
        .spawn(move || -> () { serve_consumers(rt, alloc, recent, serving) })
        .is_ok()
}

/// Starts the threads that serve consumers, and answers whether all were started.
pub(crate) fn start_sessions<'s, E: 's, N: Naming + Send + 's, R: Wait + Clock + Sync + 's>(
    scope: &'s Scope<'s, E>,
    rt: &'s R,
    alloc: Global,
    recent: &'s Recent<N>,
    serving: &'s Serving<'s>,
) -> bool {
    for _ in 0..serving.consumers.most {
        if !start_session(scope, rt, alloc, recent, serving) {
            return false;
        }
    }
    true
}

/// Starts the thread that prints what is told, and answers whether it was started.
pub(crate) fn start_journal<'s, E: 's, R: Wait + Clock + Eprint + Sync + 's>(
    scope: &'s Scope<'s, E>,
    rt: &'s R,
    journal: &'s Journal,
) -> bool {
    scope.spawn(move || -> () { journal.print_all(rt) }).is_ok()
}

/// Serves the counters until the run ends.
fn serve_counters<R: Wait + Clock + RandomSource + OwnFiles>(
    rt: &R,
    alloc: Global,
    listener: &TcpListener,
    metered: Metered<'_>,
    observed: &Observed,
) {
    if serve_metrics(rt, alloc, listener, metered, &observed.signs.has_ended).is_err() {
        observed.journal.tell(
            rt,
            String::from_str(alloc, "the counters are no longer served"),
        );
    }
}

/// Starts the thread that serves the counters, where they are asked for, and answers whether it was started, or none is wanted.
pub(crate) fn start_metrics<'s, E: 's, R: Wait + Clock + RandomSource + OwnFiles + Sync + 's>(
    scope: &'s Scope<'s, E>,
    rt: &'s R,
    alloc: Global,
    consumers: &'s Consumers,
    observed: &'s Observed,
) -> bool {
    match (&consumers.metrics, observed.metered()) {
        (Some(listener), Some(metered)) => {
            scope
                .spawn(move || -> () { serve_counters(rt, alloc, listener, metered, observed) })
                .is_ok()
        }
        _ => true,
    }
}

/// Starts the thread that writes the record, where there is one, and answers whether it was started, or none is wanted.
pub(crate) fn start_record<'s, E: 's, R: Wait + Clock + Shelf + Sync + 's>(
    scope: &'s Scope<'s, E>,
    rt: &'s R,
    alloc: Global,
    record: Option<Series<'s>>,
    observed: &'s Observed,
) -> bool {
    match (record, &observed.recording) {
        (Some(series), Some(recording)) => {
            scope
                .spawn(move || -> () {
                    write_record(rt, alloc, recording, series, &observed.journal)
                })
                .is_ok()
        }
        _ => true,
    }
}
