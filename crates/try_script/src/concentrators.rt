//! The settings of the concentrators that scripts of lives are of.
ghost use Rattle.std.specs.Prelude.{◌≡◌, ◌+◌, ◌≤◌, if◌then◌else◌, length};

use crate::words::{counts_of, numbers};
use arrayvec::ArrayVec;
use pdc_life::{
    MAX_PMUS, MAX_WAIT, MAX_WINDOW, MIN_WINDOW, MergedNode, MergerSettings, Pmu, Settings,
    StreamId, Timing, WaitKind,
};
use pdc_row::{Nominal, Output};

/// How far above now an instant may lie.
const AHEAD: u64 = 32;

/// Instants are held for two ticks, in a window of 64.
pub const PLAIN_TIMING: Timing = Timing {
    wait: 2,
    wait_kind: WaitKind::Relative,
    window: 64,
    ahead: AHEAD,
};

const PMU_11: Pmu = Pmu {
    stream: StreamId { value: 11 },
    source: 11,
    time_base: 1_000_000,
};

const PMU_12: Pmu = Pmu {
    stream: StreamId { value: 12 },
    source: 12,
    time_base: 1_000_000,
};

const PMU_13: Pmu = Pmu {
    stream: StreamId { value: 13 },
    source: 13,
    time_base: 1_000_000,
};

const NODE_201: MergedNode = MergedNode {
    id: StreamId { value: 201 },
    time_base: 1_000_000,
};

const NODE_202: MergedNode = MergedNode {
    id: StreamId { value: 202 },
    time_base: 1_000_000,
};

/// Node 201 of the PMUs 11 and 12, or 11 to 13: 50 frames a second, held like this.
pub fn node(timing: Timing, has_third: bool) -> Settings {
    let mut pmus = ArrayVec::new();
    pmus.push(PMU_11);
    pmus.push(PMU_12);
    if has_third {
        pmus.push(PMU_13);
    }
    Settings {
        output: Output {
            id: StreamId { value: 201 },
            rate: 50,
            nominal: Nominal::Hz50,
            time_base: 1_000_000,
        },
        timing,
        pmus,
    }
}

/// Merger 301 of the nodes 201 and 202 and the sources 11 and 12: 50 frames a second, held like this.
pub fn merger(timing: Timing) -> MergerSettings {
    let mut sources = ArrayVec::new();
    sources.push(11);
    sources.push(12);
    MergerSettings {
        output: Output {
            id: StreamId { value: 301 },
            rate: 50,
            nominal: Nominal::Hz50,
            time_base: 1_000_000,
        },
        timing,
        first: NODE_201,
        second: NODE_202,
        sources,
    }
}

/// What a life begins with: the settings of its concentrator, and its opening counts.
#[derive(Drop)]
pub struct Told<S: Drop> {
    /// The settings.
    pub settings: S,
    /// For each column the count below which no section is held.
    pub counts: [u16; MAX_PMUS],
}

/// The kind of wait that the words say, and the words behind it.
fn wait_kind<'w, 's>(words: &'w [&'s str]) -> (WaitKind, &'w [&'s str]) {
    match words {
        ["absolute", more @ ..] => (WaitKind::Absolute, more),
        _ => (WaitKind::Relative, words),
    }
}

/// The opening counts that the words say.
fn opening_counts(words: &[&str]) -> Option<[u16; MAX_PMUS]> {
    match words {
        [] => counts_of(&[]),
        ["counts", counts @ ..] => counts_of(counts),
        _ => None,
    }
}

/// How long instants are held, as the words `WINDOW WAIT` say it, where they are in range.
fn read_timing(words: &[&str], wait_kind: WaitKind) -> Option<Timing> {
    let [window, wait] = numbers::<2>(words)?;
    if window < MIN_WINDOW || window > MAX_WINDOW || wait < 1 || wait > MAX_WAIT {
        return None;
    }
    Some(Timing {
        wait,
        wait_kind,
        window,
        ahead: AHEAD,
    })
}

/// What the words `WINDOW WAIT PMUS [absolute] [counts COUNT ..]` tell node 201.
pub fn told_node(words: &[&str]) -> Option<Told<Settings>> {
    let [window, wait, pmus, more @ ..] = words else {
        return None;
    };
    let (wait_kind, more) = wait_kind(more);
    let timing = read_timing(&[*window, *wait], wait_kind)?;
    let counts = opening_counts(more)?;
    Some(Told {
        settings: node(timing, *pmus == "3"),
        counts,
    })
}

/// What the words `WINDOW WAIT [absolute] [counts COUNT ..]` tell merger 301.
pub fn told_merger(words: &[&str]) -> Option<Told<MergerSettings>> {
    let [window, wait, more @ ..] = words else {
        return None;
    };
    let (wait_kind, more) = wait_kind(more);
    let timing = read_timing(&[*window, *wait], wait_kind)?;
    let counts = opening_counts(more)?;
    Some(Told {
        settings: merger(timing),
        counts,
    })
}
