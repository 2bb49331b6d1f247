//! A sink in memory that fails at a chosen frame.
ghost use Rattle.std.specs.Prelude.{◌≡◌, List, ℕ};

use pdc_threads::{MemorySink, Outlet, Sink, SinkFault};

/// Keeps frames in memory, and fails at the frame of this number, from 1, and at each further one.
#[derive(Drop)]
pub struct Fused {
    pub inner: MemorySink,
    pub fails_at: u32,
    pub sent: u32,
    pub failures: u64,
}

/// It tells nothing of what it took.
impl Sink for Fused {
    ghost took = { λ _ _ _. Unit {0} };

    ghost nothing = { λ _. tt };

    ghost failures_of = { λ s. s.failures };

    fn send(&mut self, bytes: &[u8]) -> Result<(), SinkFault> {
        self.sent = self.sent.saturating_add(1);
        if self.sent < self.fails_at && self.inner.send(bytes).is_ok() {
            return Ok(());
        }
        self.failures = self.failures.saturating_add(1);
        Err(SinkFault)
    }

    fn failures(&self) -> u64 {
        self.failures
    }
}

impl Outlet for Fused {}
