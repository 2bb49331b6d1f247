//! What is kept of a column.
ghost use Rattle.std.specs.Prelude.{◌≡◌, IfOk, None, option_map, OnErr};
ghost use Rattle.pdc_table.specs.pdc_memory.Asking.{SomeWasRefused};
ghost use Rattle.pdc_align.specs.Calls.{clear_to, is_ready_in, with_adoption, with_section};
ghost use Rattle.pdc_align.specs.Slot.{count_in};
ghost use Rattle.pdc_arrival.specs.pdc_cfg.Section.{fields_of_view};
ghost use Rattle.pdc_arrival.specs.pdc_life.Answer.{greatest_count};
ghost use Rattle.pdc_align.specs.State.{shape_in};

use crate::slot::Slot;
use pdc_arrival::{SectionView, Shape};
use pdc_table::CopyFrom;
use std::alloc::{AllocError, Global};
use std::marker::Model;

/// What is kept of a column: the sections that are held and in force, and the counts that bound them.
#[derive(Drop)]
pub struct Column {
    /// No section below this count is held.
    opening: u16,
    /// A section up to this count may be adopted.
    cleared: u16,
    /// Of the greatest count that came, the first of that count.
    held: Slot,
    in_force: Slot,
}

impl Model for Column {
    ghost use Rattle.pdc_align.specs.Align.{ColumnState};

    ghost Value = { ColumnState };

    ghost view = { λ column. record {
      opening = column.opening;
      cleared = column.cleared;
      held = column.held;
      in_force = column.in_force;
    } };
}

impl Column {
    /// A column for which nothing came; up to its opening count all is cleared. It takes the memory for its sections.
    pub(crate) fn new(alloc: Global, opening: u16) -> Result<Column, AllocError>
        ensures column { IfOk result (λ column. column ≡
            record { opening = opening; cleared = opening; held = None; in_force = None }) }
        ensures refused { OnErr result SomeWasRefused }
    {
        Ok(Column {
            opening,
            cleared: opening,
            held: Slot::new(alloc)?,
            in_force: Slot::new(alloc)?,
        })
    }

    /// The section that is held.
    pub(crate) fn held(&self) -> Option<SectionView<'_>>
        ensures { option_map fields_of_view result ≡ self.now.held }
    {
        self.held.view()
    }

    /// The section in force.
    pub(crate) fn in_force(&self) -> Option<SectionView<'_>>
        ensures { option_map fields_of_view result ≡ self.now.in_force }
    {
        self.in_force.view()
    }

    /// The shape in force.
    pub(crate) fn shape(&self) -> Option<Shape>
        ensures { result ≡ shape_in self.now.in_force }
    {
        self.in_force.shape()
    }

    /// The count in force.
    pub(crate) fn count(&self) -> Option<u16>
        ensures { result ≡ count_in self.now.in_force }
    {
        self.in_force.count()
    }

    /// The count that waits to be stored: the greater of cleared and held.
    pub(crate) fn waiting(&self) -> u16
        ensures { result ≡ greatest_count self.now.cleared self.now.held }
    {
        match self.held.count() {
            Some(count) => self.cleared.max(count),
            None => self.cleared,
        }
    }

    /// Holds a copy of the section, unless it is below the opening count, or not above what is held.
    pub(crate) fn hold(&mut self, section: &SectionView<'_>)
        ensures { self.new ≡ with_section (fields_of_view section.now) self.old }
    {
        if section.count < self.opening {
            return;
        }
        let is_greater = match self.held.count() {
            Some(count) => count < section.count,
            None => true,
        };
        if is_greater {
            self.held.set(section);
        }
    }

    /// Clears counts up to this one.
    pub(crate) fn clear(&mut self, count: u16)
        ensures { self.new ≡ clear_to count self.old }
    {
        self.cleared = self.cleared.max(count);
    }

    /// Whether what is held is newer than what is in force, and cleared.
    pub(crate) fn is_ready(&self) -> bool
        ensures { result ≡ is_ready_in self.now }
    {
        match (self.held.count(), self.in_force.count()) {
            (None, _) => false,
            (Some(count), None) => count <= self.cleared,
            (Some(count), Some(in_force)) => in_force < count && count <= self.cleared,
        }
    }

    /// Puts what is held into force, where it is ready.
    pub(crate) fn adopt(&mut self)
        ensures { self.new ≡ with_adoption self.old }
    {
        if !self.is_ready() {
            return;
        }
        if let Some(held) = self.held.view() {
            self.in_force.set(&held);
        }
    }
}

impl CopyFrom for Column {
    fn copy_from(&mut self, other: &Column) {
        self.opening = other.opening;
        self.cleared = other.cleared;
        self.held.copy_from(&other.held);
        self.in_force.copy_from(&other.in_force);
    }
}
