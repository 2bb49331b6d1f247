//! Whether settings agree.
ghost use Rattle.std.specs.Prelude.{◌≡◌};
ghost use Rattle.pdc_world.specs.Agreement.{are_alike, are_free, are_sources, are_three};
ghost use Rattle.pdc_world.specs.Agreement.{do_agree, is_free, is_taken_for};

use pdc_life::{MergedNode, MergerSettings, Pmu, Settings};
use pdc_row::Output;

/// Whether the PMUs have the same streams, TIME_BASEs and sources, in the same order.
fn have_alike(pmus: &[Pmu], others: &[Pmu]) -> bool
    ensures { result ≡ are_alike pmus.now others.now }
{
    match (pmus.split_first(), others.split_first()) {
        (Some((pmu, pmus)), Some((other, others))) => {
            pmu.stream.value == other.stream.value
                && pmu.time_base == other.time_base
                && pmu.source == other.source
                && have_alike(pmus, others)
        }
        (None, None) => true,
        _ => false,
    }
}

/// Whether these are the sources of the PMUs, in the same order.
fn are_sources_of(ids: &[u16], pmus: &[Pmu]) -> bool
    ensures { result ≡ are_sources ids.now pmus.now }
{
    match (ids.split_first(), pmus.split_first()) {
        (Some((id, ids)), Some((pmu, pmus))) => *id == pmu.source && are_sources_of(ids, pmus),
        (None, None) => true,
        _ => false,
    }
}

/// Whether no stream of the PMUs has this id.
fn is_no_stream(id: u16, pmus: &[Pmu]) -> bool
    ensures { result ≡ is_free id pmus.now }
{
    match pmus.split_first() {
        Some((pmu, pmus)) => pmu.stream.value != id && is_no_stream(id, pmus),
        None => true,
    }
}

/// Whether the merger takes this stream for the one that a node with this output makes.
fn takes_for(node: &MergedNode, output: &Output) -> bool
    ensures { result ≡ is_taken_for node.now output.now }
{
    node.id.value == output.id.value && node.time_base == output.time_base
}

/// Whether the outputs have one rate, and three ids.
fn are_three_outputs(a: &Output, b: &Output, m: &Output) -> bool
    ensures { result ≡ are_three a.now b.now m.now }
{
    b.rate == a.rate
        && m.rate == a.rate
        && a.id.value != b.id.value
        && a.id.value != m.id.value
        && b.id.value != m.id.value
}

/// Whether no output has the id of a PMU's stream.
fn are_no_streams(a: &Output, b: &Output, m: &Output, pmus: &[Pmu]) -> bool
    ensures { result ≡ are_free a.now b.now m.now pmus.now }
{
    is_no_stream(a.id.value, pmus)
        && is_no_stream(b.id.value, pmus)
        && is_no_stream(m.id.value, pmus)
}

/// Whether the settings of two nodes and a merger agree.
pub(crate) fn are_agreed(a: &Settings, b: &Settings, m: &MergerSettings) -> bool
    ensures { result ≡ do_agree a.now b.now m.now }
{
    have_alike(&b.pmus, &a.pmus)
        && are_sources_of(&m.sources, &a.pmus)
        && takes_for(&m.first, &a.output)
        && takes_for(&m.second, &b.output)
        && are_three_outputs(&a.output, &b.output, &m.output)
        && are_no_streams(&a.output, &b.output, &m.output, &a.pmus)
}
