//! How far behind their instants the last frames of a stream came.
ghost use Rattle.std.specs.Prelude.{◌≡◌, ◌≤◌, length, min, slice_get};
ghost use Rattle.pdc_watch.specs.Delays.{place_of_share};
ghost use Rattle.pdc_watch.specs.declared.delays.TheConstants.{DELAYS};

use std::alloc::{AllocError, Global};

/// Of how many frames the delays are kept, the last ones: a minute and more at 60 frames a second.
pub const DELAYS: usize = 4096;

/// How far behind their instants the last frames came: a ring, in which each frame has the place of its number's remainder by 4096.
#[derive(Drop)]
pub struct Delays {
    /// In ms, at most 65535.
    delays: Vec<u16>,
    /// How many frames came.
    frames: u64,
    pub ghost size: { length delays.items ≡ DELAYS },
}

/// Where the one stands that so many of a hundred do not exceed, of so many in rising order (nearest rank).
pub fn place_of(count: usize, share: usize) -> usize
    requires count { count ≤ DELAYS }
    requires share { share ≤ 100 }
    ensures { result ≡ place_of_share count share }
{
    ((count * share + 99) / 100).saturating_sub(1)
}

/// The delay that so many of a hundred do not exceed, of these in rising order; none where there is none.
pub fn percentile(sorted: &[u16], share: usize) -> Option<u16>
    requires { share ≤ 100 }
    ensures { result ≡ slice_get sorted.now (place_of_share (min (length sorted.now) DELAYS) share) }
{
    let place = place_of(sorted.len().min(DELAYS), share);
    sorted.get(place).copied()
}

impl Delays {
    /// No frame yet.
    ///
    /// # Errors
    ///
    /// [`AllocError`] where there is no memory for the ring, which is all that it ever takes.
    pub fn new(alloc: Global) -> Result<Delays, AllocError> {
        Ok(Delays {
            delays: vec![in alloc; 0u16; DELAYS]?,
            frames: 0,
        })
    }

    /// A frame came so many ms behind its instant.
    pub fn note(&mut self, delay: u64) {
        self.delays[(self.frames % 4096) as usize] = u16::try_from(delay).unwrap_or(u16::MAX);
        self.frames = self.frames.saturating_add(1);
    }

    /// The delays that are kept, in rising order.
    ///
    /// # Errors
    ///
    /// [`AllocError`] where there is no memory for them.
    pub fn sorted(&self, alloc: Global) -> Result<Vec<u16>, AllocError> {
        let kept = self.frames.min(DELAYS as u64) as usize;
        let delays = self.delays.as_slice().get(..kept).unwrap_or(&[]);
        let mut sorted = Vec::from_slice(alloc, delays)?;
        sorted.sort()?;
        Ok(sorted)
    }
}
