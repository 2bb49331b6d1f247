//! How a run stands, as a JSON object.

use pdc_journal::{LeftOut, MergedSource, Of, OutputTally, Refusal, RunCounters, Tally};
use pdc_ports::{Counts, Progress};
use std::alloc::{AllocError, Global};
use std::fmt::Write;
use std::sync::Wait;
use std::sync::atomic::Ordering;

/// Appends a character of a text: `\`, `"` and what is no character of a line are escaped.
fn append_escaped(c: char, text: &mut String) -> Result<(), AllocError> {
    let code = u32::from(c);
    match c {
        '\\' => text.push_str("\\\\"),
        '"' => text.push_str("\\\""),
        _ if code < 32 => write!(text, "\\u{code:04x}"),
        _ => text.push(c),
    }
}

/// Appends a text between quotes.
fn append_text(given: &str, text: &mut String) -> Result<(), AllocError> {
    text.push('"')?;
    for c in given.chars() {
        append_escaped(c, text)?;
    }
    text.push('"')
}

/// Appends a comma, where something stands before it.
fn append_comma(is_first: bool, text: &mut String) -> Result<(), AllocError> {
    if is_first { Ok(()) } else { text.push(',') }
}

/// Appends how many arrivals were taken and refused, and how many by each cause that refused any.
fn append_counts(counts: &Counts, text: &mut String) -> Result<(), AllocError> {
    let (taken, refused) = (counts.taken, counts.refused);
    write!(
        text,
        "\"taken\":{taken},\"refused\":{refused},\"causes\":{{"
    )?;
    let mut is_first = true;
    for cause in Refusal::ALL {
        let count = counts.refused_as(cause);
        if count > 0 {
            append_comma(is_first, text)?;
            let name = cause.text();
            write!(text, "\"{name}\":{count}")?;
            is_first = false;
        }
    }
    text.push('}')
}

/// Appends the object of a stream.
fn append_stream<R: Wait>(rt: &R, tally: &Tally, text: &mut String) -> Result<(), AllocError> {
    match tally.of {
        Of::Pmu(id) => write!(text, "{{\"pmu\":{id},")?,
        Of::Node(id) => write!(text, "{{\"node\":{id},")?,
    }
    append_counts(&tally.counts(rt), text)?;
    let (strangers, lost) = (tally.strangers(), tally.lost());
    write!(text, ",\"strangers\":{strangers},\"lost\":{lost}}}")
}

/// Appends the array of the streams.
fn append_streams<R: Wait>(rt: &R, tallies: &[Tally], text: &mut String) -> Result<(), AllocError> {
    text.push_str(",\"streams\":[")?;
    let mut is_first = true;
    for tally in tallies {
        append_comma(is_first, text)?;
        append_stream(rt, tally, text)?;
        is_first = false;
    }
    text.push(']')
}

/// Appends the object of a destination.
fn append_output(alloc: Global, output: &OutputTally, text: &mut String) -> Result<(), AllocError> {
    text.push_str("{\"to\":")?;
    append_text(output.to.as_str(), text)?;
    let unsent = output.unsent();
    write!(text, ",\"unsent\":{unsent},\"reason\":")?;
    match output.reason() {
        Some(reason) => append_text(format!(in alloc; "{reason}")?.as_str(), text)?,
        None => text.push_str("null")?,
    }
    text.push('}')
}

/// Appends the array of the further destinations.
fn append_outputs(
    alloc: Global,
    outputs: &[OutputTally],
    text: &mut String,
) -> Result<(), AllocError> {
    text.push_str(",\"outputs\":[")?;
    let mut is_first = true;
    for output in outputs {
        append_comma(is_first, text)?;
        append_output(alloc, output, text)?;
        is_first = false;
    }
    text.push(']')
}

/// Appends the object of a PMU of which the merger left out blocks.
fn append_left_out(
    merged: &MergedSource,
    is_first: bool,
    text: &mut String,
) -> Result<(), AllocError> {
    append_comma(is_first, text)?;
    let (source, left_out) = (merged.source, merged.left_out);
    write!(text, "{{\"pmu\":{source},\"left_out\":{left_out}}}")
}

/// Appends the array of the PMUs of which the merger left out blocks.
fn append_all_left_out<R: Wait>(
    rt: &R,
    left_out: &LeftOut,
    text: &mut String,
) -> Result<(), AllocError> {
    let mut is_first = true;
    for merged in left_out.sources(rt) {
        if merged.left_out > 0 {
            append_left_out(&merged, is_first, text)?;
            is_first = false;
        }
    }
    Ok(())
}

/// How the run stands, as an object on a line: its counters, an object for each stream and for each further destination, and one for each PMU
/// of which the merger left out blocks.
///
/// # Errors
///
/// [`AllocError`] where there is no memory for it.
pub fn status_object<R: Wait>(
    rt: &R,
    alloc: Global,
    told: &Progress,
    counters: &RunCounters<'_>,
) -> Result<String, AllocError> {
    let mut text = String::from_str(alloc, "{")?;
    append_counts(&told.counts, &mut text)?;
    let (published, last) = (told.published, told.last);
    let unsent = counters.unsent.load(Ordering::Relaxed);
    write!(
        text,
        ",\"published\":{published},\"last\":{last},\"unsent\":{unsent}"
    )?;
    append_streams(rt, counters.tallies, &mut text)?;
    append_outputs(alloc, counters.outputs, &mut text)?;
    text.push_str(",\"left_out\":[")?;
    if let Some(left_out) = counters.left_out {
        append_all_left_out(rt, left_out, &mut text)?;
    }
    text.push_str("]}\n")?;
    Ok(text)
}
