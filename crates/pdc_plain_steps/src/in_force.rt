//! The sections in force, asked of the whole list. A life is kept newest first.
ghost use Rattle.std.specs.Prelude.{◌≡◌, ◌≤◌, ◌<◌, ◌+◌, ◌++◌, length, map, option_map};
ghost use Rattle.std.specs.Option.{option_to_list};
ghost use Rattle.pdc_cfg.specs.Section.{fields_of_view};
ghost use Rattle.pdc_life.specs.Published.{sections_in_force};
ghost use Rattle.pdc_plain_steps.specs.Views.{given_view, life_view};

use crate::given::Given;
use crate::past::section_in_force;
use crate::steps::Answered;
use arrayvec::ArrayVec;
use pdc_cfg::SectionView;
use pdc_life::MAX_PMUS;

/// The sections in force, in column order.
#[tactic(auto, using(crate::proofs::Ranges::filter_map_step))]
pub fn sections_in_force<'a>(
    given: &Given,
    life: &[Answered<'a>],
) -> ArrayVec<SectionView<'a>, MAX_PMUS>
    ensures sections { map fields_of_view result.items ≡
        sections_in_force (given_view given.now) (life_view life.now) }
    ensures few { length result.items ≤ MAX_PMUS }
{
    let mut sections = ArrayVec::new();
    for column in 0..given.columns {
        push_some(section_in_force(given, life, column), &mut sections);
    }
    sections
}

/// Appends the section, if there is one.
fn push_some<'a>(
    section: Option<SectionView<'a>>,
    sections: &mut ArrayVec<SectionView<'a>, MAX_PMUS>,
)
    requires { length sections.old.items < MAX_PMUS }
    ensures sections { map fields_of_view sections.new.items
        ≡ map fields_of_view sections.old.items ++
        option_to_list (option_map fields_of_view section.entry) }
    ensures grown { length sections.new.items ≤ length sections.old.items + 1 }
{
    if let Some(section) = section {
        sections.push(section);
    }
}
