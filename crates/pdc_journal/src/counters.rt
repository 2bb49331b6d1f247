//! The lines of counters.

use crate::left_out::MergedSource;
use crate::output_tally::OutputTally;
use crate::tally::Tally;
use pdc_complaints::Of;
use pdc_ports::{Counts, Progress, Refusal};
use std::alloc::{AllocError, Global};

/// Appends for each cause that refused any its code, its name and how many, as `, B4 Late 3`.
fn append_causes(alloc: Global, counts: &Counts, line: &mut String) -> Result<(), AllocError> {
    for cause in Refusal::ALL {
        let count = counts.refused_as(cause);
        if count > 0 {
            let name = cause.text();
            let more = format!(in alloc; ", {name} {count}")?;
            line.push_str(more.as_str())?;
        }
    }
    Ok(())
}

/// The line of these counters: `taken=N refused=N published=N last=INSTANT unsent=N`, with how many frames could not be sent, and then for
/// each cause that refused any its code, its name and how many, as `, B4 Late 3`.
///
/// # Errors
///
/// [`AllocError`] where there is no memory for it.
pub fn counters_line(alloc: Global, told: &Progress, unsent: u64) -> Result<String, AllocError> {
    let counts = &told.counts;
    let (taken, refused, published, last) = (
        counts.taken,
        counts.refused,
        told.published,
        told.last,
    );
    let mut line = format!(in alloc;
        "taken={taken} refused={refused} published={published} last={last} unsent={unsent}"
    )?;
    append_causes(alloc, counts, &mut line)?;
    Ok(line)
}

/// The line of one stream: whose it is, `taken=N refused=N`, and the causes as above.
///
/// # Errors
///
/// [`AllocError`] where there is no memory for it.
pub fn tally_line(alloc: Global, of: Of, counts: &Counts) -> Result<String, AllocError> {
    let (taken, refused) = (counts.taken, counts.refused);
    let mut line = format!(in alloc; "{of}: taken={taken} refused={refused}")?;
    append_causes(alloc, counts, &mut line)?;
    Ok(line)
}

/// The line of a PMU of which the merger left out blocks: `PMU 11: left_out=N, blocks under a count that was not in force`.
///
/// # Errors
///
/// [`AllocError`] where there is no memory for it.
pub fn left_out_line(alloc: Global, merged: &MergedSource) -> Result<String, AllocError> {
    let (source, left_out) = (merged.source, merged.left_out);
    format!(in alloc;
        "PMU {source}: left_out={left_out}, blocks under a count that was not in force"
    )
}

/// The line of a PMU of which the merger's frames have no data: `PMU 12: missing, no data of it from either node`.
///
/// # Errors
///
/// [`AllocError`] where there is no memory for it.
pub fn missing_line(alloc: Global, source: u16) -> Result<String, AllocError> {
    format!(in alloc; "PMU {source}: missing, no data of it from either node")
}

/// The line of a destination to which frames could not be sent, with the system's reason for the last one:
/// `output 10.0.1.5:4741: unsent=N, Network is unreachable (os error 101)`.
///
/// # Errors
///
/// [`AllocError`] where there is no memory for it.
pub fn output_line(alloc: Global, output: &OutputTally) -> Result<String, AllocError> {
    let (to, unsent) = (output.to.as_str(), output.unsent());
    match output.reason() {
        Some(reason) => format!(in alloc; "output {to}: unsent={unsent}, {reason}"),
        None => format!(in alloc; "output {to}: unsent={unsent}"),
    }
}

/// The line of a stream to whose port others sent: `PMU 11: strangers=N, datagrams from another address`.
///
/// # Errors
///
/// [`AllocError`] where there is no memory for it.
pub fn strangers_line(alloc: Global, tally: &Tally) -> Result<String, AllocError> {
    let (of, strangers) = (tally.of, tally.strangers());
    format!(in alloc; "{of}: strangers={strangers}, datagrams from another address")
}

/// The line of a stream whose connections ended: `PMU 11: lost=N, connections that ended or were refused`.
///
/// # Errors
///
/// [`AllocError`] where there is no memory for it.
pub fn lost_line(alloc: Global, tally: &Tally) -> Result<String, AllocError> {
    let (of, lost) = (tally.of, tally.lost());
    format!(in alloc; "{of}: lost={lost}, connections that ended or were refused")
}
