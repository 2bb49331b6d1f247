//! Cores of which each life can be begun.
ghost use Rattle.std.specs.Prelude.{◌≡◌, ℕ, [], IfOk, List, OnErr};
ghost use Rattle.pdc_align.specs.pdc_memory.Asking.{SomeWasRefused};
ghost use Rattle.pdc_align.specs.pdc_life.Given.{Given};
ghost use Rattle.pdc_align.specs.pdc_life.Life.{Entry};
ghost use Rattle.pdc_align.specs.pdc_row.declared.output.Output.{Output as OutputData};

use crate::core_trait::Core;
use pdc_align::{MAX_PMUS, Output};
use std::alloc::{AllocError, Global};

/// A core that is opened for the first life of its owner from settings, and from whose settings another one is opened: the next life.
pub trait Opens: Core + Drop {
    // What is given to a life by the settings, and by a start number, a floor and counts; what counts as now is 0 until a tick.
    ghost given_with: { Self.Settings → (start floor : ℕ) → List ℕ → Given };

    // What its frames say of it, by its settings.
    ghost output_of: { Self.Settings → OutputData };

    /// What its frames say of itself.
    fn output(&self) -> Output
        ensures settings { result ≡ output_of (Self.settings_of self.now) }
        ensures life { (g : Given) (E : List Entry) → Self.stands_for self.now g E →
            result ≡ g.output };

    /// A core of these settings at the start of a life: the number of the start, the instant up to which all is published, and
    /// for each column the count below which no section is held.
    ///
    /// # Errors
    ///
    /// [`AllocError`] where a request for memory was refused.
    fn open_first(
        alloc: Global,
        settings: Self::Settings,
        start: u32,
        floor: u64,
        counts: &[u16; MAX_PMUS],
    ) -> Result<Self, AllocError>
        ensures stands { IfOk result (λ first. Self.stands_for first
            (given_with settings start floor counts.now) []) }
        ensures settings { IfOk result (λ first. Self.settings_of first ≡ settings) }
        ensures popped { IfOk result (λ first. Self.popped_of first ≡ floor) }
        ensures refused { OnErr result SomeWasRefused };

    /// A core of the same settings at the start of a life: the number of the start, the instant up to which all is published, and
    /// for each column the count below which no section is held.
    ///
    /// # Errors
    ///
    /// [`AllocError`] where a request for memory was refused.
    fn open_next(
        &self,
        alloc: Global,
        start: u32,
        floor: u64,
        counts: &[u16; MAX_PMUS],
    ) -> Result<Self, AllocError>
        ensures stands { IfOk result (λ next. Self.stands_for next
            (given_with (Self.settings_of self.now) start floor counts.now) []) }
        ensures settings { IfOk result (λ next. Self.settings_of next ≡ Self.settings_of self.now) }
        ensures popped { IfOk result (λ next. Self.popped_of next ≡ floor) }
        ensures refused { OnErr result SomeWasRefused };
}
