//! What is counted of a tenth of a second.
ghost use Rattle.std.specs.Prelude.{◌≡◌};
ghost use Rattle.pdc_watch.specs.Presence.{came_in, noted};

/// A tenth of a second, and the frames of it.
#[derive(Clone, Copy)]
pub struct Slot {
    /// Its number since 1970.
    pub tenth: u64,
    /// How many frames came, at most 65535.
    pub came: u16,
    /// STAT of the last one.
    pub stat: u16,
}

impl Slot {
    /// How many frames of this tenth it counts.
    pub fn came(self, tenth: u64) -> u16
        ensures { result ≡ came_in self tenth }
    {
        if self.tenth == tenth { self.came } else { 0 }
    }

    /// The slot with one more frame of this tenth. One that counted another tenth begins anew.
    pub fn noted(self, tenth: u64, stat: u16) -> Slot
        ensures { result ≡ noted self tenth stat }
    {
        Slot {
            tenth,
            came: self.came(tenth).saturating_add(1),
            stat,
        }
    }
}
