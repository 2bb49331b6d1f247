//! A sink that goes on.
ghost use Rattle.std.specs.Prelude.{◌≡◌, List, ℕ};

use pdc_ports::{Sink, SinkFault};
use std::sync::atomic::{AtomicU64, Ordering};

/// Hands each frame to the inner sink. What that refuses is counted in a counter that others read, and it goes on: a frame that could not be
/// sent is lost for its reader alone.
#[derive(Drop)]
pub struct CountingSink<'a, K: Sink + Drop> {
    pub inner: K,
    unsent: &'a AtomicU64,
    /// How many frames the inner sink refused. It stays at its greatest value.
    pub refused: u64,
}

impl<'a, K: Sink + Drop> CountingSink<'a, K> {
    /// Sends by `inner`, and counts in `unsent` what it refuses.
    pub fn new(inner: K, unsent: &'a AtomicU64) -> CountingSink<'a, K>
        ensures { (result.inner ≡ inner) × (result.refused ≡ 0) }
    {
        CountingSink {
            inner,
            unsent,
            refused: 0,
        }
    }
}

/// The inner sink took what this one was handed, in the same order, each frame but those that it refused, which were counted one by one.
impl<'a, K: Sink + Drop> Sink for CountingSink<'a, K> {
    ghost use Rattle.pdc_journal.specs.Among.{AreAmong, AreCounted};
    ghost use Rattle.std.proofs.Common.{[], refl};

    ghost took = { λ before now given. (some : List (List ℕ)) × K.took before.inner now.inner some
        × AreAmong some given × AreCounted before.refused now.refused some given };

    ghost nothing = { λ s. ([], K.nothing s.inner, refl, λ _. refl) };

    ghost failures_of = { λ s. K.failures_of s.inner };

    fn send(&mut self, bytes: &[u8]) -> Result<(), SinkFault> {
        match self.inner.send(bytes) {
            Ok(()) => {}
            Err(SinkFault) => {
                self.refused = self.refused.saturating_add(1);
                self.unsent.fetch_add(1, Ordering::Relaxed);
            }
        }
        Ok(())
    }

    fn failures(&self) -> u64 {
        self.inner.failures()
    }
}
