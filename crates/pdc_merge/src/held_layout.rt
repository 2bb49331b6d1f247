//! The layout of a node, as far as its data is read by it.
ghost use Rattle.std.specs.Prelude.{◌≡◌, ◌≤◌, length, map, option_map};
ghost use Rattle.pdc_life.specs.pdc_row.declared.limits.TheConstants.{MAX_PMUS};
ghost use Rattle.pdc_arrival.specs.Views.{section_part, stamp_view};
ghost use Rattle.pdc_arrival.specs.declared.arrival.ColumnSection.{ColumnSection as ColumnSectionData};
ghost use Rattle.pdc_merge.specs.Cells.{blocks_len};
ghost use Rattle.pdc_merge.specs.Held.{held_section_of};
ghost use Rattle.pdc_merge.specs.declared.held_layout.HeldSection.{HeldSection as HeldSectionData};
ghost use Rattle.pdc_table.specs.pdc_columns.Parts.{laid_out};

use arrayvec::ArrayVec;
use pdc_arrival::{ColumnSection, Stamp};
use pdc_cfg::Shape;
use pdc_life::MAX_PMUS;
use pdc_table::{Part, Shapes, laid_out};
use std::marker::Model;

/// What is kept of a section: where the words of its block go.
#[derive(Clone, Copy, Debug, Default)]
pub struct HeldSection {
    /// The number of its column, from 0.
    pub column: usize,
    /// The shape of its data.
    pub shape: Shape,
    /// Its count.
    pub count: u16,
}

impl Part for HeldSection {
    ghost column_of = { λ section. section.column };

    ghost shape_of = { λ section. section.shape };

    #[inline]
    fn column(&self) -> usize {
        self.column
    }

    #[inline]
    fn shape(&self) -> Shape {
        self.shape
    }
}

/// What is kept of a layout: its stamp, and its sections in their order. The bytes of the sections are held beside their columns.
#[derive(Drop)]
pub struct HeldLayout {
    stamp: Stamp,
    /// The bytes of the blocks of its sections, which each frame of data is to have.
    len: usize,
    sections: ArrayVec<HeldSection, MAX_PMUS>,
    /// The shapes of its sections, where they are of all columns up to one, in their order.
    laid: Option<Shapes>,
}

impl Model for HeldLayout {
    ghost use Rattle.std.specs.Prelude.{◌≡◌};
    ghost use Rattle.pdc_arrival.specs.Views.{stamp_view};
    ghost use Rattle.pdc_merge.specs.Cells.{blocks_len};
    ghost use Rattle.pdc_merge.specs.Held.{LayoutView};
    ghost use Rattle.pdc_merge.specs.declared.held_layout.HeldSection.{HeldSection as HeldSectionData};
    ghost use Rattle.pdc_table.specs.pdc_columns.Parts.{laid_out};

    ghost Value = { LayoutView };

    ghost view = { λ l. record { stamp = stamp_view l.stamp; sections = l.sections.items } };

    ghost invariant = { λ l. record {
      long : l.len ≡ blocks_len l.sections.items;
      told : l.laid ≡ laid_out (λ (s : HeldSectionData). s.column)
          (λ (s : HeldSectionData). s.shape) l.sections.items;
    } };
}

impl HeldLayout {
    /// What is kept of a layout with this stamp and these sections.
    pub(crate) fn new(stamp: Stamp, sections: &[ColumnSection<'_>]) -> HeldLayout
        requires { length sections.now ≤ MAX_PMUS }
        ensures { result ≡ record {
          stamp = stamp_view stamp;
          sections = map held_section_of
              (map section_part sections.now);
        } }
    {
        let sections = held_sections(sections);
        HeldLayout {
            stamp,
            len: len_of(sections.as_slice()),
            laid: laid_out(sections.as_slice()),
            sections,
        }
    }

    /// Its stamp.
    pub(crate) fn stamp(&self) -> Stamp
        ensures { stamp_view result ≡ self.now.stamp }
    {
        self.stamp
    }

    /// Its sections.
    pub(crate) fn sections(&self) -> &[HeldSection]
        ensures sections { result.now ≡ self.now.sections }
        ensures few { length result.now ≤ MAX_PMUS }
    {
        self.sections.as_slice()
    }

    /// The shapes of its sections, where they are of all columns up to one, in their order.
    pub(crate) fn laid(&self) -> Option<&Shapes>
        ensures { option_map (λ shapes. shapes.now) result ≡ laid_out
            (λ (s : HeldSectionData). s.column) (λ (s : HeldSectionData). s.shape)
            self.now.sections }
    {
        self.laid.as_ref()
    }

    /// A copy, which takes no memory.
    pub(crate) fn copy(&self) -> HeldLayout
        ensures { result ≡ self.now }
    {
        let mut sections = ArrayVec::new();
        sections
            .try_extend_from_slice(self.sections.as_slice())
            .unwrap();
        HeldLayout {
            stamp: self.stamp,
            len: self.len,
            laid: Shapes::copy_of(&self.laid),
            sections,
        }
    }

    /// The bytes of their blocks.
    pub(crate) fn blocks_len(&self) -> usize
        ensures { result ≡ blocks_len self.now.sections }
    {
        self.len
    }
}

/// The bytes of the blocks of these sections.
fn len_of(sections: &[HeldSection]) -> usize
    requires { length sections.now ≤ MAX_PMUS }
    ensures { result ≡ blocks_len sections.now }
{
    let mut len = 0;
    for section in sections {
        len += 2 * section.shape.word_count();
    }
    len
}

/// What is kept of these sections.
fn held_sections(sections: &[ColumnSection<'_>]) -> ArrayVec<HeldSection, MAX_PMUS>
    requires { length sections.now ≤ MAX_PMUS }
    ensures { result.items ≡ map (λ (s : ColumnSectionData). held_section_of (section_part s))
        sections.now }
{
    let mut held = ArrayVec::new();
    for section in sections {
        held.push(HeldSection {
            column: section.column,
            shape: section.section.shape,
            count: section.section.count,
        });
    }
    held
}
