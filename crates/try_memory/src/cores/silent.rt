//! A sink that takes no memory.
ghost use Rattle.std.specs.Prelude.{List, ℕ};

use pdc_ports::{Sink, SinkFault};

/// Takes each frame, and tells nothing of what it took.
#[derive(Drop)]
pub struct Silent;

impl Sink for Silent {
    ghost took = { λ _ _ _. Unit {0} };

    ghost nothing = { λ _. tt };

    ghost failures_of = { λ _. 0 };

    fn send(&mut self, _bytes: &[u8]) -> Result<(), SinkFault> {
        Ok(())
    }

    fn failures(&self) -> u64 {
        0
    }
}
