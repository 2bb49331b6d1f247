//! Families of samples.

use pdc_journal::{BOUNDS, Histogram, Of};
use std::alloc::AllocError;
use std::fmt::Write;

/// What a family of samples is.
#[derive(Clone, Copy)]
pub struct Family {
    /// Its name, by the conventions of Prometheus.
    pub name: &'static str,
    /// Whether it only rises, until the run begins anew.
    pub is_counter: bool,
    /// What it tells.
    pub help: &'static str,
}

/// Appends the head of a family: its help and its type.
pub fn append_head(family: Family, text: &mut String) -> Result<(), AllocError> {
    let (name, help) = (family.name, family.help);
    let kind = if family.is_counter {
        "counter"
    } else {
        "gauge"
    };
    write!(text, "# HELP {name} {help}\n# TYPE {name} {kind}\n")
}

/// Appends the one sample of a family that has no labels.
pub fn append_single(family: Family, value: u64, text: &mut String) -> Result<(), AllocError> {
    append_head(family, text)?;
    let name = family.name;
    write!(text, "{name} {value}\n")
}

/// Appends the one sample of a family in seconds, of which these are millionths.
pub fn append_seconds(family: Family, micros: i64, text: &mut String) -> Result<(), AllocError> {
    append_head(family, text)?;
    let name = family.name;
    let sign = if micros < 0 { "-" } else { "" };
    let size = micros.unsigned_abs();
    let (seconds, parts) = (size / 1_000_000, size % 1_000_000);
    write!(text, "{name} {sign}{seconds}.{parts:06}\n")
}

/// Appends seconds, of which these are millionths.
fn append_decimal(micros: u64, text: &mut String) -> Result<(), AllocError> {
    let (seconds, parts) = (micros / 1_000_000, micros % 1_000_000);
    write!(text, "{seconds}.{parts:06}")
}

/// Appends a sample of a histogram: how many were at most this bound.
fn append_bucket(name: &str, bound: u64, most: u64, text: &mut String) -> Result<(), AllocError> {
    write!(text, "{name}_bucket{{le=\"")?;
    append_decimal(bound, text)?;
    write!(text, "\"}} {most}\n")
}

/// Appends a histogram of lengths of time: for each bound how many were at most it, their sum, and how many there were.
pub fn append_histogram(
    name: &str,
    help: &str,
    histogram: &Histogram,
    text: &mut String,
) -> Result<(), AllocError> {
    write!(text, "# HELP {name} {help}\n# TYPE {name} histogram\n")?;
    let mut count = 0u64;
    for (bound, here) in BOUNDS.iter().zip(histogram.counts.iter()) {
        count = count.saturating_add(*here);
        append_bucket(name, *bound, count, text)?;
    }
    let above = histogram.counts.last().copied().unwrap_or(0);
    count = count.saturating_add(above);
    write!(text, "{name}_bucket{{le=\"+Inf\"}} {count}\n{name}_sum ")?;
    append_decimal(histogram.sum, text)?;
    write!(text, "\n{name}_count {count}\n")
}

/// What a stream is, as its label says, and its id.
fn label_of(of: Of) -> (&'static str, u16) {
    match of {
        Of::Pmu(id) => ("pmu", id),
        Of::Node(id) => ("node", id),
    }
}

/// Appends a sample of a stream.
pub fn append_of(family: Family, of: Of, value: u64, text: &mut String) -> Result<(), AllocError> {
    let name = family.name;
    let (kind, id) = label_of(of);
    write!(text, "{name}{{{kind}=\"{id}\"}} {value}\n")
}

/// Appends a sample of a stream and a cause.
pub fn append_cause(
    family: Family,
    of: Of,
    cause: &str,
    value: u64,
    text: &mut String,
) -> Result<(), AllocError> {
    let name = family.name;
    let (kind, id) = label_of(of);
    write!(
        text,
        "{name}{{{kind}=\"{id}\",cause=\"{cause}\"}} {value}\n"
    )
}

/// Appends a sample of a stream and the port that it comes to.
pub fn append_at_port(
    family: Family,
    of: Of,
    port: u16,
    value: u64,
    text: &mut String,
) -> Result<(), AllocError> {
    let name = family.name;
    let (kind, id) = label_of(of);
    write!(text, "{name}{{{kind}=\"{id}\",port=\"{port}\"}} {value}\n")
}

/// Appends a character of a label: `\`, `"` and line feeds are escaped.
fn append_escaped(c: char, text: &mut String) -> Result<(), AllocError> {
    match c {
        '\\' => text.push_str("\\\\"),
        '"' => text.push_str("\\\""),
        '\n' => text.push_str("\\n"),
        c => text.push(c),
    }
}

/// Appends the name of a destination, as a label has it.
fn append_label(label: &str, text: &mut String) -> Result<(), AllocError> {
    for c in label.chars() {
        append_escaped(c, text)?;
    }
    Ok(())
}

/// Appends a sample of a destination.
pub fn append_output(
    family: Family,
    to: &str,
    value: u64,
    text: &mut String,
) -> Result<(), AllocError> {
    let name = family.name;
    write!(text, "{name}{{output=\"")?;
    append_label(to, text)?;
    write!(text, "\"}} {value}\n")
}
