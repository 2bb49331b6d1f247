//! The program that runs.

use crate::families::{Family, append_head, append_single};
use crate::own_files::{OwnFiles, text_of};
use pdc_version::VERSION;
use std::alloc::AllocError;
use std::fmt::Write;
use std::rt::Clock;
use std::time::Instant;

const BUILD: Family = Family {
    name: "pdc_build_info",
    is_counter: false,
    help: "The version of the program, with the value 1.",
};

const UPTIME: Family = Family {
    name: "pdc_uptime_seconds",
    is_counter: false,
    help: "For how long the counters have been served, by a clock that is not set.",
};

const MEMORY: Family = Family {
    name: "process_resident_memory_bytes",
    is_counter: false,
    help: "Resident memory of the program, in bytes.",
};

const THREADS: Family = Family {
    name: "process_threads",
    is_counter: false,
    help: "Threads of the program.",
};

/// What the system says of this program (proc(5)).
const STATUS: &str = "/proc/self/status";

/// The number behind this name, at the front of a line.
fn number_behind(text: &str, name: &str) -> Option<u64> {
    for line in text.lines() {
        if let Some(rest) = line.strip_prefix(name) {
            return match rest.split_whitespace().next() {
                Some(word) => word.parse::<u64>().ok(),
                None => None,
            };
        }
    }
    None
}

/// Appends the resident memory and the threads of the program, where the system tells them.
fn append_status<R: OwnFiles>(rt: &R, text: &mut String) -> Result<(), AllocError> {
    let Some(status) = text_of(rt, STATUS) else {
        return Ok(());
    };
    if let Some(kilobytes) = number_behind(status.as_str(), "VmRSS:") {
        append_single(MEMORY, kilobytes.saturating_mul(1024), text)?;
    }
    match number_behind(status.as_str(), "Threads:") {
        Some(threads) => append_single(THREADS, threads, text),
        None => Ok(()),
    }
}

/// Appends the version of the program, its memory and its threads, and for how many seconds it has run, if that can be read.
pub fn append_process<R: Clock + OwnFiles>(
    rt: &R,
    begun: Instant,
    text: &mut String,
) -> Result<(), AllocError> {
    append_head(BUILD, text)?;
    let name = BUILD.name;
    write!(text, "{name}{{version=\"{VERSION}\"}} 1\n")?;
    append_status(rt, text)?;
    match begun.elapsed(rt) {
        Ok(gone) => append_single(UPTIME, gone.as_secs(), text),
        Err(_) => Ok(()),
    }
}
