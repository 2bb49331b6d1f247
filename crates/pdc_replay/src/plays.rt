//! Records that are played.
ghost use Rattle.std.specs.Prelude.{◌≡◌, ℕ, List, OnOk, false};
ghost use Rattle.pdc_life.specs.Answer.{Rules};
ghost use Rattle.pdc_life.specs.Given.{Given};
ghost use Rattle.pdc_life.specs.Life.{Entry as LifeEntry};
ghost use Rattle.pdc_record.specs.Carried.{is_carried};
ghost use Rattle.pdc_replay.specs.Passed.{Passes, IsNumbered, number_after};

use crate::halt::Halt;
use pdc_core::Reads;
use pdc_record::Entry;

/// A life that is played again, entry by entry, and what is known of it.
pub trait Plays {
    /// How it reads what arrives.
    type Settings: Reads;

    // What arrives is answered by these rules,
    ghost rules: { Rules };

    // and what bytes may say is read by these settings.
    ghost settings_of: { Self → Self.Settings };

    // It is at this life, which begins with what is given.
    ghost stands_for: { Self → Given → List LifeEntry → Type 0 };

    // The number of its next step.
    ghost next_of: { Self → ℕ };

    /// Plays an entry.
    ///
    /// # Errors
    ///
    /// Why the replay halts.
    fn play(&mut self, entry: &Entry<'_>) -> Result<(), Halt>
        // It passes only where it says what the life does next. Steps from before the first one of a file are passed over or carried over.
        ensures as_recorded { (g : Given) (E : List LifeEntry) → stands_for self.old g E →
            is_carried entry.now (next_of self.old) ≡ false →
            OnOk result (Passes rules (Self.Settings.says (settings_of self.old)) g E
            (stands_for self.new g) entry.now.what) }
        // A step that passes has the number of the next one.
        ensures next { is_carried entry.now (next_of self.old) ≡ false →
            OnOk result (IsNumbered entry.now (next_of self.old)) }
        ensures after { is_carried entry.now (next_of self.old) ≡ false →
            OnOk result (next_of self.new ≡ number_after entry.now.what (next_of self.old)) }
        ensures settings { settings_of self.new ≡ settings_of self.old };
}
