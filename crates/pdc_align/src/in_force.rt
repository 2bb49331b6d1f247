//! The sections that are in force.
ghost use Rattle.std.specs.Prelude.{◌≡◌, ℕ, ◌+◌, ◌<◌, ◌≤◌, ◌++◌, List, length, map, option_map};
ghost use Rattle.std.specs.List.{filter_map, range_with_len};
ghost use Rattle.std.specs.Option.{option_to_list};
ghost use Rattle.pdc_align.specs.Align.{StandsFor};
ghost use Rattle.pdc_arrival.specs.pdc_cfg.Section.{fields_of_view};
ghost use Rattle.pdc_arrival.specs.pdc_life.Given.{Given};
ghost use Rattle.pdc_arrival.specs.pdc_life.Life.{Entry, section_in_force};

use crate::Alignment;
use arrayvec::ArrayVec;
use pdc_arrival::{MAX_PMUS, SectionView};
use pdc_table::Table;

/// The sections in force of the first so many columns, in the order of the columns.
pub fn sections_in_force<'a, T: Table>(
    alignment: &'a Alignment<T>,
    columns: usize,
) -> ArrayVec<SectionView<'a>, MAX_PMUS>
    requires few { columns ≤ MAX_PMUS }
    requires columns { length alignment.now.state.columns ≡ columns }
    ensures sections { (g : Given) (E : List Entry) → StandsFor g E alignment.now.state →
        map fields_of_view result.items ≡
        filter_map (section_in_force g E) (range_with_len 0 columns) }
    ensures few { length result.items ≤ MAX_PMUS }
{
    let mut sections = ArrayVec::new();
    for column in 0..columns {
        push_some(alignment.in_force(column), &mut sections);
    }
    sections
}

/// Appends the section, if there is one.
fn push_some<'a>(
    section: Option<SectionView<'a>>,
    sections: &mut ArrayVec<SectionView<'a>, MAX_PMUS>,
)
    requires { length sections.old.items < MAX_PMUS }
    ensures sections { map fields_of_view sections.new.items
        ≡ map fields_of_view sections.old.items ++
        option_to_list (option_map fields_of_view section.entry) }
    ensures grown { length sections.new.items ≤ length sections.old.items + 1 }
{
    if let Some(section) = section {
        sections.push(section);
    }
}
