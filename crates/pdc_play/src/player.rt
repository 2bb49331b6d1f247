//! Who plays events.
ghost use Rattle.std.specs.Prelude.{◌≡◌, ℕ, List, Option, IfOk, IfErr, IsErrOf};
ghost use Rattle.std.specs.Option.{option_copied};
ghost use Rattle.pdc_history.specs.Handed.{asked_of};
ghost use Rattle.pdc_history.specs.declared.event_fault.Fault.{Fault};
ghost use Rattle.pdc_history.specs.declared.event_fault.Fault.TheVariants.{NoMemory};
ghost use Rattle.pdc_history.specs.declared.reply.Reply.{Reply};
ghost use Rattle.pdc_history.specs.Asked.{Asked};

use pdc_history::{Event, Fault, Reply};

/// Who plays events. After a refused event all is as before it.
pub trait Plays {
    // From one state to another an event may be replied so.
    ghost replies: { Self → Asked → Reply → Self → Type 0 };

    // An event may be refused so.
    ghost refuses: { Self → Asked → Fault → Type 0 };

    // For want of memory it is refused only where this is so.
    ghost wants: { Type 0 };

    // The frames that were sent, by their numbers.
    ghost frames: { Self → ℕ → Option (List ℕ) };

    /// Plays an event.
    ///
    /// # Errors
    ///
    /// Why the event is refused.
    fn play_event(&mut self, event: &Event) -> Result<Reply, Fault>
        ensures reply { IfOk result (λ reply. replies self.old (asked_of event.now) reply self.new) }
        ensures refused { IfErr result (λ fault. refuses self.old (asked_of event.now) fault) }
        ensures same { IfErr result (λ _. self.new ≡ self.old) }
        ensures memory { IsErrOf result NoMemory → wants };

    /// The frame of this number, from 0, among all that were sent.
    fn frame(&self, number: usize) -> Option<&[u8]>
        ensures { option_copied result ≡ frames self.now number };
}
