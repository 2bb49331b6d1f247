//! Where frames go.
ghost use Rattle.std.specs.Prelude.{◌≡◌, ◌≤◌, ◌<◌, ◌++◌, ◌∷◌, ℕ, List, OnErr, OnOk, [], map};
ghost use Rattle.pdc_ports.specs.Failures.{HasRisen};

use std::alloc::{AllocError, Global};

/// A sink failed.
#[derive(Clone, Copy, Debug, PartialEq, Eq)]
pub struct SinkFault;

/// Where frames go. It may tell what it took: in `took before now given` it took exactly these frames, in order, from the one state to
/// the other. A sink that tells nothing says that of any frames.
pub trait Sink {
    ghost took: { Self → Self → List (List ℕ) → Type 0 };

    // From a state to itself it took nothing.
    ghost nothing: { (s : Self) → took s s [] };

    ghost failures_of: { Self → ℕ };

    /// Hands a frame on.
    ///
    /// # Errors
    ///
    /// [`SinkFault`] where its device failed, or it has no memory.
    fn send(&mut self, bytes: &[u8]) -> Result<(), SinkFault>
        ensures ok { OnOk result ((before : Self) (given : List (List ℕ)) →
            took before self.old given → took before self.new (given ++ bytes.now ∷ [])) }
        ensures err { OnErr result ((before : Self) (given : List (List ℕ)) →
            took before self.old given → took before self.new given) }
        ensures cause { OnErr result (HasRisen (failures_of self.old) (failures_of self.new)) }
        ensures more { failures_of self.old ≤ failures_of self.new };

    /// How often it failed. It stays at its greatest value.
    fn failures(&self) -> u64
        ensures { result ≡ failures_of self.now };
}

/// Keeps the frames in memory. A growth that is refused is a fault.
#[derive(Drop)]
pub struct MemorySink {
    alloc: Global,
    /// The frames, in order.
    pub frames: Vec<Vec<u8>>,
    /// How often a growth was refused.
    pub failures: u64,
}

impl MemorySink {
    /// It has taken nothing.
    pub fn new(alloc: Global) -> MemorySink
        ensures { (result.frames.items ≡ []) × (result.failures ≡ 0) }
    {
        MemorySink {
            alloc,
            frames: Vec::new(alloc),
            failures: 0,
        }
    }

    /// Keeps a copy of the bytes.
    fn keep(&mut self, bytes: &[u8]) -> Result<(), AllocError>
        ensures ok { OnOk result (map (λ frame. frame.items) self.new.frames.items ≡
            map (λ frame. frame.items) self.old.frames.items ++ bytes.now ∷ []) }
        ensures err { OnErr result (map (λ frame. frame.items) self.new.frames.items ≡
            map (λ frame. frame.items) self.old.frames.items) }
        ensures failures { self.new.failures ≡ self.old.failures }
    {
        let mut copy = Vec::new(self.alloc);
        copy.extend_from_slice(bytes)?;
        self.frames.push(copy)?;
        Ok(())
    }
}

impl Sink for MemorySink {
    ghost use Rattle.std.specs.Prelude.{◌++◌, ◌≡◌, map};
    ghost use Rattle.std.proofs.Common.{sym};
    ghost use Rattle.std.proofs.lemmas.List.{append-nil};

    ghost took = { λ before now given. map (λ frame. frame.items) now.frames.items ≡
        map (λ frame. frame.items) before.frames.items ++ given };

    ghost nothing = { λ s. sym (append-nil (map (λ frame. frame.items) s.frames.items)) };

    ghost failures_of = { λ s. s.failures };

    fn send(&mut self, bytes: &[u8]) -> Result<(), SinkFault> {
        if self.keep(bytes).is_ok() {
            return Ok(());
        }
        self.failures = self.failures.saturating_add(1);
        Err(SinkFault)
    }

    fn failures(&self) -> u64 {
        self.failures
    }
}
