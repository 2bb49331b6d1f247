//! How a run stands, as lines: those that a run with `--every` tells.

use pdc_journal::{
    LeftOut, OutputTally, RunCounters, Tally, counters_line, left_out_line, lost_line,
    missing_line, output_line, strangers_line, tally_line,
};
use pdc_ports::Progress;
use std::alloc::{AllocError, Global};
use std::sync::Wait;
use std::sync::atomic::Ordering;

/// Appends a line.
fn append_line(line: Result<String, AllocError>, text: &mut String) -> Result<(), AllocError> {
    text.push_str(line?.as_str())?;
    text.push('\n')
}

/// Appends the lines of a stream: that of its answers where any was refused, that of strangers and that of connections where there are any.
fn append_stream<R: Wait>(
    rt: &R,
    alloc: Global,
    tally: &Tally,
    text: &mut String,
) -> Result<(), AllocError> {
    let counts = tally.counts(rt);
    if counts.refused > 0 {
        append_line(tally_line(alloc, tally.of, &counts), text)?;
    }
    if tally.strangers() > 0 {
        append_line(strangers_line(alloc, tally), text)?;
    }
    if tally.lost() > 0 {
        append_line(lost_line(alloc, tally), text)?;
    }
    Ok(())
}

/// Appends the line of each destination that frames could not be sent to.
fn append_outputs(
    alloc: Global,
    outputs: &[OutputTally],
    text: &mut String,
) -> Result<(), AllocError> {
    for output in outputs {
        if output.unsent() > 0 {
            append_line(output_line(alloc, output), text)?;
        }
    }
    Ok(())
}

/// Appends the line of each PMU that the merger has no data of, and of each that it left out blocks of.
fn append_left_out<R: Wait>(
    rt: &R,
    alloc: Global,
    left_out: &LeftOut,
    text: &mut String,
) -> Result<(), AllocError> {
    for source in left_out.missing.pmus(rt) {
        append_line(missing_line(alloc, source), text)?;
    }
    for merged in left_out.sources(rt) {
        if merged.left_out > 0 {
            append_line(left_out_line(alloc, &merged), text)?;
        }
    }
    Ok(())
}

/// How the run stands: the line of its counters, and one for each stream, destination and PMU of which there is something to tell.
///
/// # Errors
///
/// [`AllocError`] where there is no memory for it.
pub fn status_lines<R: Wait>(
    rt: &R,
    alloc: Global,
    told: &Progress,
    counters: &RunCounters<'_>,
) -> Result<String, AllocError> {
    let mut text = String::new(alloc);
    let unsent = counters.unsent.load(Ordering::Relaxed);
    append_line(counters_line(alloc, told, unsent), &mut text)?;
    for tally in counters.tallies {
        append_stream(rt, alloc, tally, &mut text)?;
    }
    append_outputs(alloc, counters.outputs, &mut text)?;
    if let Some(left_out) = counters.left_out {
        append_left_out(rt, alloc, left_out, &mut text)?;
    }
    Ok(text)
}
