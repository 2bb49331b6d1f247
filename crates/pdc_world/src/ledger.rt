//! What was sent and published.
ghost use Rattle.std.specs.Prelude.{◌≡◌, ◌≤◌, ◌<◌, ◌∷◌, ◌++◌, [], IfOk, IsOk, IsTrue, OnErr};
ghost use Rattle.std.specs.Prelude.{OnOk, length, true, vec_capacity, vec_len};
ghost use Rattle.pdc_core.specs.pdc_memory.Asking.{SomeWasRefused};
ghost use Rattle.pdc_history.specs.declared.reply.Published.{Published};
ghost use Rattle.pdc_frame.specs.declared.limits.TheConstants.{MAX_SIZE};
ghost use Rattle.pdc_history.specs.Sent.{IsOfNone};
ghost use Rattle.pdc_world.specs.Ledger.{IsReady, ledger_has_room, ledger_view};

use pdc_core::Core;
use pdc_frame::{Buffer, MAX_SIZE};
use pdc_history::{Published, Sent, Who, make_room};
use pdc_life::Settings;
use std::alloc::{AllocError, Global};

/// What was sent and published, and room to write a frame.
#[derive(Drop)]
pub(crate) struct Ledger {
    /// All frames that were ever sent.
    pub(crate) sent: Sent,
    /// The rows that were published.
    pub(crate) published: Vec<Published>,
    /// Where the next frame is written.
    pub(crate) frame: Vec<u8>,
}

impl Ledger {
    ghost use Rattle.pdc_world.specs.Ledger.{IsReady, ledger_has_room, ledger_view};

    /// Nothing was sent. It fails where a request for memory was refused.
    pub(crate) fn new(alloc: Global, settings: Settings) -> Result<Ledger, AllocError>
        ensures none { IfOk result (λ ledger. ledger_view ledger ≡
            record { table = settings; frames = []; published = [] }) }
        ensures refused { OnErr result SomeWasRefused }
    {
        Ok(Ledger {
            sent: Sent::new(alloc, settings)?,
            published: Vec::new(alloc),
            frame: Vec::new(alloc),
        })
    }

    /// Makes room for one frame and one row more. Where there is room, it takes no memory; it fails where a request for it was refused.
    pub(crate) fn make_room(&mut self) -> Result<(), AllocError>
        ensures ready { OnOk result (IsReady self.new) }
        ensures made { OnOk result (ledger_has_room self.new ≡ true) }
        ensures same { ledger_view self.new ≡ ledger_view self.old }
        ensures room { IsTrue (ledger_has_room self.old) → IsOk result }
        ensures err { OnErr result (ledger_has_room self.new ≡ ledger_has_room self.old) }
        ensures refused { OnErr result SomeWasRefused }
    {
        self.sent.reserve()?;
        make_room(&mut self.published, 1)?;
        self.frame.clear();
        self.frame.make_room(MAX_SIZE)
    }

    /// The frame that was written joins those that were sent.
    pub(crate) fn send_written(&mut self)
        requires room { IsTrue self.old.sent.has_room }
        requires most { length self.old.frame.items ≤ MAX_SIZE }
        requires of_none { IsOfNone self.old.sent.settings self.old.frame.items }
        ensures table { self.new.sent.settings ≡ self.old.sent.settings }
        ensures frames { self.new.sent.frames ≡ self.old.sent.frames ++ self.old.frame.items ∷ [] }
        ensures published { self.new.published ≡ self.old.published }
    {
        self.sent.push_reserved(self.frame.as_slice());
    }

    /// The row of the frame that was written last joins those that were published, with the number of its frame.
    pub(crate) fn list(&mut self, row: Published)
        requires { vec_len self.old.published < vec_capacity self.old.published }
        ensures sent { self.new.sent ≡ self.old.sent }
        ensures published { self.new.published.items ≡ self.old.published.items ++ row ∷ [] }
    {
        self.published.push_reserved(row);
    }
}
