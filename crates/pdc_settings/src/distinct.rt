//! Whether ids are distinct.
ghost use Rattle.std.specs.Prelude.{◌≡◌, ◌==◌, map};
ghost use Rattle.std.specs.List.{list_any};
ghost use Rattle.pdc_life.specs.Distinct.{are_distinct};
ghost use Rattle.pdc_life.specs.declared.pmu.Pmu.{Pmu as PmuData};

use pdc_life::Pmu;

/// Whether one of them is this id.
pub(crate) fn has_id(ids: &[u16], id: u16) -> bool
    ensures { result ≡ list_any (λ other. other == id) ids.now }
{
    ids.iter().any(|other| *other == id)
}

/// Whether no two are the same.
pub(crate) fn ids_differ(ids: &[u16]) -> bool
    ensures { result ≡ are_distinct ids.now }
{
    match ids.split_first() {
        Some((id, others)) => !has_id(others, *id) && ids_differ(others),
        None => true,
    }
}

/// Whether one of the streams has this id.
pub(crate) fn has_stream(pmus: &[Pmu], id: u16) -> bool
    ensures { result ≡ list_any (λ other. other == id)
        (map (λ (pmu : PmuData). pmu.stream.value) pmus.now) }
{
    match pmus.split_first() {
        Some((pmu, others)) => pmu.stream.value == id || has_stream(others, id),
        None => false,
    }
}

/// Whether no two streams have the same id.
pub(crate) fn streams_differ(pmus: &[Pmu]) -> bool
    ensures { result ≡ are_distinct (map (λ (pmu : PmuData). pmu.stream.value) pmus.now) }
{
    match pmus.split_first() {
        Some((pmu, others)) => !has_stream(others, pmu.stream.value) && streams_differ(others),
        None => true,
    }
}

/// Whether one of the sources has this id.
pub(crate) fn has_source(pmus: &[Pmu], id: u16) -> bool
    ensures { result ≡ list_any (λ other. other == id)
        (map (λ (pmu : PmuData). pmu.source) pmus.now) }
{
    match pmus.split_first() {
        Some((pmu, others)) => pmu.source == id || has_source(others, id),
        None => false,
    }
}

/// Whether no two sources have the same id.
pub(crate) fn sources_differ(pmus: &[Pmu]) -> bool
    ensures { result ≡ are_distinct (map (λ (pmu : PmuData). pmu.source) pmus.now) }
{
    match pmus.split_first() {
        Some((pmu, others)) => !has_source(others, pmu.source) && sources_differ(others),
        None => true,
    }
}
