//! All samples of a run.

use crate::drops::append_dropped;
use crate::families::{
    Family, append_cause, append_head, append_histogram, append_of, append_output, append_seconds,
    append_single,
};
use crate::metered::Metered;
use crate::own_files::OwnFiles;
use crate::process::append_process;
use crate::recorded::append_record;
use crate::stores::append_stores;
use crate::time::{now_micros, tag_micros};
use pdc_journal::{LeftOut, Of, OutputTally, Refusal, Standing, Tally};
use std::alloc::{AllocError, Global};
use std::rt::Clock;
use std::sync::Wait;
use std::sync::atomic::Ordering;
use std::time::Instant;

const TAKEN: Family = Family {
    name: "pdc_frames_taken_total",
    is_counter: true,
    help: "Data frames that were taken.",
};

const REFUSED: Family = Family {
    name: "pdc_frames_refused_total",
    is_counter: true,
    help: "Datagrams that were refused, by cause.",
};

const STRANGERS: Family = Family {
    name: "pdc_strangers_total",
    is_counter: true,
    help: "Datagrams from another address than the sender's own.",
};

const LOST: Family = Family {
    name: "pdc_connections_lost_total",
    is_counter: true,
    help: "Connections that ended or were refused.",
};

const COUNT_LEFT_OUT: Family = Family {
    name: "pdc_configurations_left_out_total",
    is_counter: true,
    help: "Configurations that were left out, since their count was above most_count.",
};

const PUBLISHED: Family = Family {
    name: "pdc_frames_published_total",
    is_counter: true,
    help: "Data frames that were published.",
};

const UNSENT: Family = Family {
    name: "pdc_frames_unsent_total",
    is_counter: true,
    help: "Frames that could not be sent to out_port, or not be kept for consumers.",
};

const OUTPUT_UNSENT: Family = Family {
    name: "pdc_output_frames_unsent_total",
    is_counter: true,
    help: "Frames that could not be sent to a further destination.",
};

const ABSENT: Family = Family {
    name: "pdc_blocks_absent_total",
    is_counter: true,
    help: "Published frames in which the block of the PMU was absent.",
};

const LEFT_OUT: Family = Family {
    name: "pdc_blocks_left_out_total",
    is_counter: true,
    help: "Blocks that the merger left out, since their configuration count was not in force.",
};

const MISSING: Family = Family {
    name: "pdc_pmu_missing",
    is_counter: false,
    help: "1 where neither node has data of the PMU, else 0.",
};

const CONFIGURATION: Family = Family {
    name: "pdc_configuration_count",
    is_counter: false,
    help: "The configuration count of the PMU in the layout in force, 0 where it is not in it.",
};

const OPEN: Family = Family {
    name: "pdc_open_instants",
    is_counter: false,
    help: "Instants for which data was taken and that are not published yet.",
};

const START: Family = Family {
    name: "pdc_start",
    is_counter: false,
    help: "The start number of the layout in force.",
};

const CHANGE: Family = Family {
    name: "pdc_change",
    is_counter: false,
    help: "The change number of the layout in force.",
};

const CONSUMERS: Family = Family {
    name: "pdc_consumers",
    is_counter: false,
    help: "Consumers that are served.",
};

const LATE_TICKS: Family = Family {
    name: "pdc_late_ticks_total",
    is_counter: true,
    help: "Ticks that came late by a fifth of a second or more.",
};

const LAST: Family = Family {
    name: "pdc_last_instant",
    is_counter: false,
    help: "The last instant that was published, counted in frames since 1970.",
};

const LAST_TIME: Family = Family {
    name: "pdc_last_instant_time_seconds",
    is_counter: false,
    help: "The time of the last instant that was published, in seconds since 1970.",
};

const LAG: Family = Family {
    name: "pdc_lag_seconds",
    is_counter: false,
    help: "How far the last instant that was published lies behind the clock.",
};

/// What was taken of each stream.
fn append_taken<R: Wait>(rt: &R, tallies: &[Tally], text: &mut String) -> Result<(), AllocError> {
    append_head(TAKEN, text)?;
    for tally in tallies {
        append_of(TAKEN, tally.of, tally.counts(rt).taken, text)?;
    }
    Ok(())
}

/// What was refused of a stream, by cause: each cause is there, with 0 where it refused none.
fn append_causes<R: Wait>(rt: &R, tally: &Tally, text: &mut String) -> Result<(), AllocError> {
    let counts = tally.counts(rt);
    for cause in Refusal::ALL {
        let count = counts.refused_as(cause);
        append_cause(REFUSED, tally.of, cause.text(), count, text)?;
    }
    Ok(())
}

/// What was refused of each stream.
fn append_refused<R: Wait>(rt: &R, tallies: &[Tally], text: &mut String) -> Result<(), AllocError> {
    append_head(REFUSED, text)?;
    for tally in tallies {
        append_causes(rt, tally, text)?;
    }
    Ok(())
}

/// From which other addresses the datagrams of each stream came.
fn append_strangers(tallies: &[Tally], text: &mut String) -> Result<(), AllocError> {
    append_head(STRANGERS, text)?;
    for tally in tallies {
        append_of(STRANGERS, tally.of, tally.strangers(), text)?;
    }
    Ok(())
}

/// How often the connection of each stream was lost.
fn append_lost(tallies: &[Tally], text: &mut String) -> Result<(), AllocError> {
    append_head(LOST, text)?;
    for tally in tallies {
        append_of(LOST, tally.of, tally.lost(), text)?;
    }
    Ok(())
}

/// How many configurations of each stream were left out.
fn append_count_left_out(tallies: &[Tally], text: &mut String) -> Result<(), AllocError> {
    append_head(COUNT_LEFT_OUT, text)?;
    for tally in tallies {
        append_of(COUNT_LEFT_OUT, tally.of, tally.left_out(), text)?;
    }
    Ok(())
}

/// What was taken and refused of each stream, and how its datagrams came.
fn append_streams<R: Wait>(rt: &R, tallies: &[Tally], text: &mut String) -> Result<(), AllocError> {
    append_taken(rt, tallies, text)?;
    append_refused(rt, tallies, text)?;
    append_strangers(tallies, text)?;
    append_lost(tallies, text)?;
    append_count_left_out(tallies, text)
}

/// What could not be sent to each further destination.
fn append_outputs(outputs: &[OutputTally], text: &mut String) -> Result<(), AllocError> {
    append_head(OUTPUT_UNSENT, text)?;
    for output in outputs {
        append_output(OUTPUT_UNSENT, output.to.as_str(), output.unsent(), text)?;
    }
    Ok(())
}

/// In how many frames each source was absent.
fn append_absent(standing: &Standing, text: &mut String) -> Result<(), AllocError> {
    append_head(ABSENT, text)?;
    for measured in &standing.sources {
        if measured.source != 0 {
            append_of(ABSENT, Of::Pmu(measured.source), measured.absent, text)?;
        }
    }
    Ok(())
}

/// The configuration count of each source.
fn append_configurations(standing: &Standing, text: &mut String) -> Result<(), AllocError> {
    append_head(CONFIGURATION, text)?;
    for measured in &standing.sources {
        if measured.source != 0 {
            let count = u64::from(measured.count);
            append_of(CONFIGURATION, Of::Pmu(measured.source), count, text)?;
        }
    }
    Ok(())
}

/// What the merger left out of each source.
fn append_left_out<R: Wait>(
    rt: &R,
    left_out: &LeftOut,
    text: &mut String,
) -> Result<(), AllocError> {
    append_head(LEFT_OUT, text)?;
    for merged in left_out.sources(rt) {
        if merged.source != 0 {
            append_of(LEFT_OUT, Of::Pmu(merged.source), merged.left_out, text)?;
        }
    }
    Ok(())
}

/// Which PMUs of its settings the merger has no data of: each is there, with 0 where it has.
fn append_missing<R: Wait>(
    rt: &R,
    left_out: &LeftOut,
    text: &mut String,
) -> Result<(), AllocError> {
    append_head(MISSING, text)?;
    let missing = left_out.missing.pmus(rt);
    for merged in left_out.sources(rt) {
        if merged.source != 0 {
            let is_missing = missing.contains(&merged.source);
            append_of(MISSING, Of::Pmu(merged.source), u64::from(is_missing), text)?;
        }
    }
    Ok(())
}

/// What was published, and what of it could not be sent.
fn append_published(
    metered: &Metered,
    standing: &Standing,
    text: &mut String,
) -> Result<(), AllocError> {
    let unsent = metered.unsent.load(Ordering::Relaxed);
    append_single(PUBLISHED, standing.published, text)?;
    append_single(UNSENT, unsent, text)?;
    append_outputs(metered.outputs, text)
}

/// What is published of each source, and what a merger left out or is missing.
fn append_sources<R: Wait>(
    rt: &R,
    metered: &Metered,
    standing: &Standing,
    text: &mut String,
) -> Result<(), AllocError> {
    append_absent(standing, text)?;
    append_configurations(standing, text)?;
    match metered.left_out {
        Some(left_out) => {
            append_left_out(rt, left_out, text)?;
            append_missing(rt, left_out, text)
        }
        None => Ok(()),
    }
}

/// The stores of the mark, and the record, where one is written.
fn append_kept<R: Wait>(rt: &R, metered: &Metered, text: &mut String) -> Result<(), AllocError> {
    append_stores(rt, metered.stores, text)?;
    match &metered.record {
        Some(record) => append_record(record, text),
        None => Ok(()),
    }
}

/// The open instants, the layout in force, who is served, and how often a tick was late.
fn append_now(metered: &Metered, standing: &Standing, text: &mut String) -> Result<(), AllocError> {
    let consumers = metered.consumers.load(Ordering::Relaxed);
    let late = metered.late_ticks.load(Ordering::Relaxed);
    append_single(OPEN, standing.open as u64, text)?;
    append_single(START, u64::from(standing.start), text)?;
    append_single(CHANGE, u64::from(standing.change), text)?;
    append_single(CONSUMERS, consumers, text)?;
    append_single(LATE_TICKS, late, text)
}

/// The last instant that was published, if there was one, and how far it lies behind the clock.
fn append_last<R: Clock>(
    rt: &R,
    time_base: u32,
    standing: &Standing,
    text: &mut String,
) -> Result<(), AllocError> {
    let Some(last) = standing.last else {
        return Ok(());
    };
    let micros = tag_micros(standing.tag, time_base);
    append_single(LAST, last, text)?;
    append_seconds(LAST_TIME, micros, text)?;
    match now_micros(rt) {
        Some(now) => append_seconds(LAG, now.saturating_sub(micros), text),
        None => Ok(()),
    }
}

/// How long frames took: from their instant's time, and from the last data that was taken for it.
fn append_latency(standing: &Standing, text: &mut String) -> Result<(), AllocError> {
    append_histogram(
        "pdc_publish_latency_seconds",
        "From an instant's time to its publishing, by the system's clock.",
        &standing.latency,
        text,
    )?;
    append_histogram(
        "pdc_publish_after_arrival_seconds",
        "From the last data that was taken for an instant to its publishing.",
        &standing.holding,
        text,
    )
}

/// All samples of a run that stands so.
fn append_all<R: Wait + Clock + OwnFiles>(
    rt: &R,
    alloc: Global,
    metered: &Metered,
    standing: &Standing,
    text: &mut String,
) -> Result<(), AllocError> {
    append_streams(rt, metered.tallies, text)?;
    append_dropped(rt, alloc, metered.ports, text)?;
    append_published(metered, standing, text)?;
    append_sources(rt, metered, standing, text)?;
    append_now(metered, standing, text)?;
    append_latency(standing, text)?;
    append_kept(rt, metered, text)?;
    append_last(rt, metered.measured.tags.time_base, standing, text)
}

/// All samples of a run that has been served since then, as Prometheus reads them.
///
/// # Errors
///
/// [`AllocError`] where there is no memory for it.
pub fn metrics_text<R: Wait + Clock + OwnFiles>(
    rt: &R,
    alloc: Global,
    metered: &Metered,
    begun: Instant,
) -> Result<String, AllocError> {
    let standing = metered.measured.standing(rt);
    let mut text = String::new(alloc);
    append_process(rt, begun, &mut text)?;
    append_all(rt, alloc, metered, &standing, &mut text)?;
    Ok(text)
}
