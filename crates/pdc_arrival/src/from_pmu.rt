//! What bytes say that arrived for a PMU.
ghost use Rattle.std.specs.Prelude.{◌≡◌, ◌<◌, [], ◌∷◌, length, map};
ghost use Rattle.pdc_life.specs.CoreKind.{OfNode, Says};
ghost use Rattle.pdc_life.specs.Views.{arrival_view as reading_view};
ghost use Rattle.pdc_arrival.specs.Views.{arrival_view, section_part};

use crate::arrival::{Arrival, ColumnSection};
use arrayvec::ArrayVec;
use pdc_life::{MAX_PMUS, Reading, SectionView, Settings, read_arrival};

/// What bytes say that arrived for the PMU with this number. It takes no memory.
pub fn read_from_pmu<'a>(settings: &Settings, stream: usize, bytes: &'a [u8]) -> Arrival<'a>
    requires { stream < length settings.now.pmus.items }
    ensures { Says (OfNode settings.now) stream bytes.now (arrival_view result) }
{
    arrival_from_pmu(stream, hear_from_pmu(settings, stream, bytes))
}

/// The same as it is read, in less room: a configuration is its one section. It takes no memory.
#[inline]
pub fn hear_from_pmu<'a>(
    settings: &Settings,
    stream: usize,
    bytes: &'a [u8],
) -> Reading<'a, SectionView<'a>>
    requires { stream < length settings.now.pmus.items }
    ensures { Says (OfNode settings.now) stream bytes.now (reading_view stream result) }
{
    read_arrival(settings, &settings.pmus[stream], bytes)
}

/// What is read of a PMU, whose configuration is of its column.
pub fn arrival_from_pmu<'a>(column: usize, reading: Reading<'a, SectionView<'a>>) -> Arrival<'a>
    ensures { arrival_view result ≡ reading_view column reading.entry }
{
    match reading {
        Reading::BytesRefused(refusal) => Arrival::BytesRefused(refusal),
        Reading::Data {
            instant,
            quality,
            payload,
        } => Arrival::Data {
            instant,
            quality,
            payload,
        },
        Reading::Configuration(section) => Arrival::Layout {
            stamp: None,
            sections: alone(ColumnSection { column, section }),
        },
    }
}

/// This section and no other.
fn alone<'a>(section: ColumnSection<'a>) -> ArrayVec<ColumnSection<'a>, MAX_PMUS>
    ensures { map section_part result.items ≡ section_part section.entry ∷ [] }
{
    let mut sections = ArrayVec::new();
    sections.push(section);
    sections
}
