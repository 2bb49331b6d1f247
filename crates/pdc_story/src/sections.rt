//! Which sections are held and in force, as a record tells it.

use crate::about::About;
use pdc_cfg::{ConfigView, SectionView, Shape};
use pdc_life::MAX_PMUS;

/// What is known of a section.
#[derive(Clone, Copy, Debug, Default, PartialEq, Eq)]
pub struct Held {
    /// The column that it is of.
    pub column: usize,
    /// Its count.
    pub count: u16,
    /// The shape of its blocks.
    pub shape: Shape,
}

impl Held {
    /// What is known of this section.
    pub fn of(column: usize, section: &SectionView<'_>) -> Held {
        Held {
            column,
            count: section.count,
            shape: section.shape,
        }
    }
}

/// For each column the section in force.
pub type InForce = [Option<Held>; MAX_PMUS];

/// What is known of the sections of all columns.
#[derive(Clone, Copy)]
pub struct Sections {
    held: InForce,
    in_force: InForce,
    cleared: [u16; MAX_PMUS],
    /// The layout in force is known: from the beginning of the life on, or from the first frame of it on.
    is_known: bool,
}

impl Sections {
    /// At the beginning of a life, or of a record of its later steps.
    pub fn new(is_first: bool) -> Sections {
        Sections {
            held: [None; MAX_PMUS],
            in_force: [None; MAX_PMUS],
            cleared: [0; MAX_PMUS],
            is_known: is_first,
        }
    }

    /// The sections in force, where they are known.
    pub fn in_force(&self) -> Option<InForce> {
        if self.is_known {
            Some(self.in_force)
        } else {
            None
        }
    }

    /// The section in force of a column.
    pub fn of_column(&self, column: usize) -> Option<Held> {
        self.in_force.get(column).copied()?
    }

    /// The section that is held of a column and is newer than the one in force.
    pub fn waiting(&self, column: usize) -> Option<Held> {
        if !self.is_known {
            return None;
        }
        let held = self.held.get(column).copied()??;
        match self.of_column(column) {
            Some(old) if old.count >= held.count => None,
            _ => Some(held),
        }
    }

    /// Holds a section that came and is new: the greatest count stays.
    pub fn hold(&mut self, new: Held) {
        if let Some(place) = self.held.get_mut(new.column) {
            match place {
                Some(old) if old.count >= new.count => {}
                _ => *place = Some(new),
            }
        }
    }

    /// A tick that adopts: what is held, newer and cleared comes into force. It answers what came into force.
    pub fn adopt(&mut self, counts: &[u16; MAX_PMUS], is_changed: bool) -> InForce {
        let mut adopted = [None; MAX_PMUS];
        for column in 0..MAX_PMUS {
            let cleared = self.cleared[column].max(counts[column]);
            self.cleared[column] = cleared;
            if let Some(held) = self.waiting(column) {
                if is_changed && held.count <= cleared {
                    self.in_force[column] = Some(held);
                    adopted[column] = Some(held);
                }
            }
        }
        adopted
    }

    /// The frame of the layout in force.
    pub fn lay(&mut self, about: &About, config: &ConfigView<'_>) {
        self.in_force = [None; MAX_PMUS];
        self.is_known = true;
        for section in config.sections.as_slice().get(1..).unwrap_or(&[]) {
            if let Some(column) = about.column_of(section.source) {
                if let Some(place) = self.in_force.get_mut(column) {
                    *place = Some(Held::of(column, section));
                }
            }
        }
    }
}

/// Whether bytes begin as a frame of CFG-1, CFG-2 or CFG-3 does.
pub(crate) fn is_configuration(datagram: &[u8]) -> bool {
    match datagram {
        [0xAA, kind, ..] => matches!(*kind / 16, 2 | 3 | 5),
        _ => false,
    }
}
