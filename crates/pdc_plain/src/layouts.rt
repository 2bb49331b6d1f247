//! The layouts of the nodes, asked of the whole list. A life is kept newest first.
ghost use Rattle.std.specs.Prelude.{◌≡◌, map, option_map};
ghost use Rattle.pdc_life.specs.Merger.{has_count_conflict, held_layout};
ghost use Rattle.pdc_arrival.specs.Views.{section_part};
ghost use Rattle.pdc_plain_steps.specs.Views.{given_view, life_view};
ghost use Rattle.pdc_plain.specs.Views.{layout_view};

use crate::held_layout::HeldLayout;
use pdc_arrival::{Arrival, ColumnSection, differs};
use pdc_life::Outcome;
use pdc_plain_steps::{Answer, Answered, Given, held_section, section_in_force};

/// The layout held of a node: the last that was accepted.
pub fn held_layout<'l, 'a>(life: &'l [Answered<'a>], stream: usize) -> Option<HeldLayout<'l, 'a>>
    ensures { option_map layout_view result ≡ held_layout (life_view life.now) stream }
{
    let (newest, earlier) = life.split_first()?;
    match newest {
        Answered::Arrival {
            stream: own,
            arrival: Arrival::Layout {
                stamp: Some(stamp),
                sections,
            },
            answer: Answer {
                outcome: Outcome::Candidate,
                ..
            },
            ..
        } => {
            if *own == stream {
                Some(HeldLayout {
                    stamp: *stamp,
                    sections: sections.as_slice(),
                })
            } else {
                held_layout(earlier, stream)
            }
        }
        _ => held_layout(earlier, stream),
    }
}

/// Whether some section has the count of the one that is held of its column, or in force, and other bytes.
pub fn has_count_conflict(given: &Given, life: &[Answered], sections: &[ColumnSection]) -> bool
    ensures { result ≡ has_count_conflict (given_view given.now) (life_view life.now)
        (map section_part sections.now) }
{
    match sections.split_first() {
        Some((first, later)) => {
            differs(held_section(given, life, first.column), &first.section)
                || differs(section_in_force(given, life, first.column), &first.section)
                || has_count_conflict(given, life, later)
        }
        None => false,
    }
}
