//! The last tenths of seconds of a PMU on one path.
ghost use Rattle.std.specs.Prelude.{◌≡◌, ◌%◌, ◌≤◌, length, slice_set};
ghost use Rattle.pdc_watch.specs.Presence.{came_in, cell_of, due_in, noted, slot_in};
ghost use Rattle.pdc_watch.specs.declared.cell.TheConstants.{MAX_RATE};
ghost use Rattle.pdc_watch.specs.declared.presence.TheConstants.{TENTHS};

use crate::cell::{Cell, due};
use crate::slot::Slot;
use std::alloc::{AllocError, Global};
use std::marker::Model;

/// How many tenths are counted, the last ones.
pub const TENTHS: usize = 256;

/// What came in the last tenths of seconds: a ring, in which each tenth has the place of its remainder by 256.
#[derive(Drop)]
pub struct Presence {
    slots: Vec<Slot>,
}

impl Model for Presence {
    ghost use Rattle.std.specs.Prelude.{◌≡◌, List, length};
    ghost use Rattle.pdc_watch.specs.declared.presence.TheConstants.{TENTHS};
    ghost use Rattle.pdc_watch.specs.declared.slot.Slot.{Slot as SlotData};

    ghost Value = { List SlotData };

    ghost view = { λ p. p.slots.items };

    ghost invariant = { λ p. length p.slots.items ≡ TENTHS };
}

impl Presence {
    /// Nothing came yet.
    ///
    /// # Errors
    ///
    /// [`AllocError`] where there is no memory for the ring, which is all that it ever takes.
    pub fn new(alloc: Global) -> Result<Presence, AllocError> {
        let blank = Slot {
            tenth: 0,
            came: 0,
            stat: 0,
        };
        Ok(Presence {
            slots: vec![in alloc; blank; TENTHS]?,
        })
    }

    /// The slot at the place of this tenth.
    fn slot(&self, tenth: u64) -> Slot
        ensures { result ≡ slot_in self.now tenth }
    {
        self.slots[(tenth % 256) as usize]
    }

    /// Counts a frame of this tenth, with the PMU's STAT. It takes no memory.
    pub fn note(&mut self, tenth: u64, stat: u16)
        ensures value { self.new ≡ slice_set self.old (tenth % 256)
            (noted (slot_in self.old tenth) tenth stat) }
        ensures size { length self.new ≡ TENTHS }
    {
        let slot = self.slot(tenth).noted(tenth, stat);
        self.slots[(tenth % 256) as usize] = slot;
    }

    /// How many frames of this tenth came.
    pub fn came(&self, tenth: u64) -> u16
        ensures { result ≡ came_in (slot_in self.now tenth) tenth }
    {
        self.slot(tenth).came(tenth)
    }

    /// STAT of the last frame of this tenth, if one came.
    pub fn stat(&self, tenth: u64) -> Option<u16> {
        let slot = self.slot(tenth);
        if slot.came(tenth) > 0 {
            Some(slot.stat)
        } else {
            None
        }
    }

    /// What this tenth is shown as, at `rate` frames a second.
    pub fn cell(&self, tenth: u64, rate: u32) -> Cell
        requires { rate ≤ MAX_RATE }
        ensures { result ≡ cell_of (came_in (slot_in self.now tenth) tenth) (due_in tenth rate) }
    {
        Cell::of(u32::from(self.came(tenth)), due(tenth, rate))
    }
}
