//! What a frame tells of a PMU.
ghost use Rattle.std.specs.Prelude.{◌≡◌, ℕ, List, Some, IsSome, option_map};
ghost use Rattle.pdc_life.specs.Views.{arrival_view};
ghost use Rattle.pdc_history.specs.Told.{Tells, ToldView, told_in, told_view};
ghost use Rattle.pdc_history.specs.declared.key.Key.{Key as KeyData};

use crate::key::Key;
use pdc_life::{Pmu, Reading, SectionView, Settings, bytes_are_read_in_one_way, read_arrival};

/// What a frame tells, and of what.
#[derive(Clone, Copy, Debug)]
pub(crate) struct Told<'a> {
    /// Of what: an instant or a count.
    pub key: Key,
    /// The payload of data, or the bytes of a section.
    pub content: &'a [u8],
}

/// What is told by what was read.
fn told_of<'a>(reading: Reading<'a, SectionView<'a>>) -> Option<Told<'a>>
    ensures { option_map told_view result ≡ told_in (arrival_view 0 reading.entry) }
{
    match reading {
        Reading::BytesRefused(_) => None,
        Reading::Data {
            instant,
            payload,
            ..
        } => Some(Told {
            key: Key::Instant(instant),
            content: payload,
        }),
        Reading::Configuration(section) => Some(Told {
            key: Key::Count(section.count),
            content: section.bytes,
        }),
    }
}

/// What the bytes tell of this PMU: nothing, or one thing.
pub(crate) fn told_by<'a>(settings: &Settings, pmu: &Pmu, bytes: &'a [u8]) -> Option<Told<'a>>
    ensures found { (key : KeyData) (x : List ℕ) →
        option_map told_view result ≡ Some (record { key = key; content = x }) →
        Tells settings.now pmu.now bytes.now key x }
    ensures only { (key : KeyData) (x : List ℕ) → Tells settings.now pmu.now bytes.now key x →
        option_map told_view result ≡ Some (record { key = key; content = x }) }
{
    bytes_are_read_in_one_way();
    told_of(read_arrival(settings, pmu, bytes))
}

/// What the bytes tell of this PMU under this key.
pub(crate) fn content_under<'a>(
    settings: &Settings,
    pmu: &Pmu,
    key: Key,
    bytes: &'a [u8],
) -> Option<&'a [u8]>
    ensures found { (x : List ℕ) → option_map (λ content. content.now) result ≡ Some x →
        Tells settings.now pmu.now bytes.now key x }
    ensures only { (x : List ℕ) → Tells settings.now pmu.now bytes.now key x →
        option_map (λ content. content.now) result ≡ Some x }
{
    match told_by(settings, pmu, bytes) {
        Some(told) if told.key == key => Some(told.content),
        _ => None,
    }
}
