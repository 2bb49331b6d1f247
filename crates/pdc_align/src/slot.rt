//! A place for a section.
ghost use Rattle.std.specs.Prelude.{◌≡◌, IfOk, None, Some, option_map, OnErr};
ghost use Rattle.pdc_table.specs.pdc_memory.Asking.{SomeWasRefused};
ghost use Rattle.pdc_arrival.specs.pdc_cfg.Section.{fields_of_view};
ghost use Rattle.pdc_align.specs.Slot.{count_in};
ghost use Rattle.pdc_align.specs.State.{shape_in};

use pdc_arrival::{Section, SectionView, Shape};
use pdc_table::{CopyFrom, HeldBox};
use std::alloc::{AllocError, Global};
use std::marker::Model;

/// A place for a section. What is asked of it at each tick and for each block stands here; its bytes stand elsewhere, so that the
/// slots of all columns are a few lines of the cache.
#[derive(Drop)]
pub struct Slot {
    count: Option<u16>,
    shape: Option<Shape>,
    section: HeldBox<Option<Section>>,
}

impl Model for Slot {
    ghost use Rattle.std.specs.Prelude.{Option, option_map};
    ghost use Rattle.pdc_arrival.specs.pdc_cfg.Section.{SectionFields, fields_of_section};
    ghost use Rattle.pdc_align.specs.Slot.{IsTold};

    ghost Value = { Option SectionFields };

    ghost view = { λ slot. option_map fields_of_section slot.section.value };

    ghost invariant = { λ slot. IsTold slot.count slot.shape
        (option_map fields_of_section slot.section.value) };
}

impl Slot {
    /// A place in which no section stands. It takes the memory for one.
    pub(crate) fn new(alloc: Global) -> Result<Slot, AllocError>
        ensures none { IfOk result (λ slot. slot ≡ None) }
        ensures refused { OnErr result SomeWasRefused }
    {
        Ok(Slot {
            count: None,
            shape: None,
            section: HeldBox::new(alloc, None)?,
        })
    }

    /// The section.
    pub(crate) fn view(&self) -> Option<SectionView<'_>>
        ensures { option_map fields_of_view result ≡ self.now }
    {
        match self.section.get() {
            Some(section) => Some(section.view()),
            None => None,
        }
    }

    /// Its count.
    pub(crate) fn count(&self) -> Option<u16>
        ensures { result ≡ count_in self.now }
    {
        self.count
    }

    /// Its shape.
    pub(crate) fn shape(&self) -> Option<Shape>
        ensures { result ≡ shape_in self.now }
    {
        self.shape
    }

    /// Puts a copy of the section here: in place, where one stands here.
    pub(crate) fn set(&mut self, section: &SectionView<'_>)
        ensures { self.new ≡ Some (fields_of_view section.now) }
    {
        self.count = Some(section.count);
        self.shape = Some(section.shape);
        match self.section.get_mut() {
            Some(kept) => kept.set(section),
            None => *self.section.get_mut() = Some(section.to_section()),
        }
    }
}

impl CopyFrom for Slot {
    fn copy_from(&mut self, other: &Slot) {
        match other.view() {
            Some(section) => self.set(&section),
            None => {
                self.count = None;
                self.shape = None;
                *self.section.get_mut() = None;
            }
        }
    }
}
