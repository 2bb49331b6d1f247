//! The sections of a layout, beside the columns of their sources.
ghost use Rattle.std.specs.Prelude.{◌≡◌, ◌≤◌, ◌+◌, ◌++◌, length, map};
ghost use Rattle.pdc_life.specs.pdc_cfg.Section.{fields_of_view};
ghost use Rattle.pdc_arrival.specs.Placing.{are_in_order, parts_from};
ghost use Rattle.pdc_arrival.specs.Views.{section_part};

use crate::arrival::ColumnSection;
use arrayvec::ArrayVec;
use pdc_life::{MAX_PMUS, SectionView};

/// Puts each section beside the column of its source, and tells whether each has one, in the order of the columns. The first of
/// these sources is that of the column with this number.
pub fn place_sections<'a>(
    sources: &[u16],
    column: usize,
    sections: &[SectionView<'a>],
    placed: &mut ArrayVec<ColumnSection<'a>, MAX_PMUS>,
) -> bool
    requires room { length placed.old.items + length sections.now ≤ MAX_PMUS }
    requires columns { column + length sources.now ≤ MAX_PMUS }
    ensures placed { map section_part placed.new.items ≡ map section_part placed.old.items ++
        parts_from column sources.now (map fields_of_view sections.now) }
    ensures all { result ≡ are_in_order sources.now (map fields_of_view sections.now) }
{
    let Some((section, later)) = sections.split_first() else {
        return true;
    };
    let Some((source, others)) = sources.split_first() else {
        return false;
    };
    if *source == section.source {
        placed.push(ColumnSection {
            column,
            section: *section,
        });
        place_sections(others, column + 1, later, placed)
    } else {
        place_sections(others, column + 1, sections, placed)
    }
}
