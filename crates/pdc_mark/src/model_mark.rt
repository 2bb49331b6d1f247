//! A mark that nothing can take: the words of `Mark` in their plainest form, for lives without a disk.
ghost use Rattle.std.specs.Prelude.{◌≡◌, false, refl, ⊤};

use crate::fault::MarkFault;
use crate::layout::COUNTS;
use crate::mark::Mark;
use crate::stops::Store;
use crate::stored::Stored;

/// A mark in memory. It never fails.
#[derive(Clone, Copy, Debug, PartialEq, Eq)]
pub struct ModelMark {
    stored: Stored,
}

impl ModelMark {
    ghost use Rattle.pdc_mark.specs.ModelMark.{stored_in};
    ghost use Rattle.pdc_mark.specs.Stored.{first_stored, with_floor, with_start};

    /// A mark that stores this start number and floor, and counts 0.
    pub fn new(start: u32, floor: u64) -> Self
        ensures { stored_in result ≡ with_floor (with_start first_stored start) floor }
    {
        ModelMark {
            stored: Stored {
                start,
                floor,
                ..Stored::first()
            },
        }
    }
}

impl Mark for ModelMark {
    ghost use Rattle.pdc_mark.specs.ModelMark.{stored_in};

    ghost stored = { stored_in };

    ghost is_broken = { λ _. false };

    ghost failures = { λ _. 0 };

    ghost is_safe = { ⊤ };

    fn stored(&self) -> (u32, u64) {
        (self.stored.start, self.stored.floor)
    }

    fn counts(&self) -> [u16; COUNTS] {
        self.stored.counts
    }

    fn begin(&mut self) -> Result<u32, MarkFault> {
        if self.stored.start == u32::MAX {
            return Err(MarkFault::StartsUsedUp);
        }
        self.stored.start += 1;
        Ok(self.stored.start)
    }

    fn reserve(&mut self, floor: u64) -> Result<(), MarkFault> {
        self.stored.floor = floor;
        Ok(())
    }

    fn raise(&mut self, counts: &[u16; COUNTS]) -> Result<(), MarkFault> {
        self.stored.counts = *counts;
        Ok(())
    }

    fn failures(&self) -> u64 {
        0
    }
}

impl Store for ModelMark {
    ghost stops_as = { λ _ _ _. ⊤ };

    ghost never_fails = { tt };

    ghost never_broken = { λ _. refl };

    fn stopped(&mut self) {}

    fn begin_stopped(&mut self, landed: bool) {
        if landed {
            self.stored = self.stored.with_next_start();
        }
    }

    fn reserve_stopped(&mut self, floor: u64, landed: bool) {
        if landed {
            self.stored = self.stored.with_floor(floor);
        }
    }

    fn raise_stopped(&mut self, counts: &[u16; COUNTS], landed: bool) {
        if landed {
            self.stored = self.stored.with_counts(*counts);
        }
    }
}
