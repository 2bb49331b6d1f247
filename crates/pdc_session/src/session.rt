//! A session: the commands of a stream and their replies.
ghost use Rattle.std.specs.Prelude.{◌≡◌, ◌+◌, ◌<◌, ◌≤◌, ◌++◌, ℕ, List, [], ◌∷◌, Option, Some};
ghost use Rattle.std.specs.Prelude.{None, false, length, take, IfOk, OnOk, OnErr, IsErrOf, IsOk};
ghost use Rattle.pdc_frame.specs.Frame.{fields_of};
ghost use Rattle.pdc_frame.specs.Stream.{HasTaken, IsBad};
ghost use Rattle.pdc_frame.specs.declared.step.Step.TheVariants.{More};
ghost use Rattle.pdc_frame.specs.declared.command.Command.{Command};
ghost use Rattle.pdc_frame.specs.declared.header.TheConstants.{MAX_TEXT};
ghost use Rattle.pdc_session.specs.Served.{IsFed, IsNew};
ghost use Rattle.pdc_frame.specs.declared.limits.TheConstants.{MAX_SIZE};
ghost use Rattle.pdc_memory.specs.Asking.{WasRefused};
ghost use Rattle.pdc_session.specs.Session.{HasAnswered, HasRoom, LacksOne, Tells, needed_of};
ghost use Rattle.pdc_session.specs.Session.{told_after, reply_of};

use crate::fault::SessionFault;
use crate::serving::Serving;
use crate::subscription::Subscription;
use pdc_cfg::write_config;
use pdc_frame::{
    Buffer, Command, Frame, Framer, Kind, Step, StreamId, read_command, streams_split_in_one_way,
    write_header,
};
use std::alloc::{AllocError, Allocator, Global};
use std::marker::Model;

/// The command that the frame tells the stream `id`.
fn command_to(id: StreamId, frame: &Frame) -> Option<Command>
    ensures { Tells id.value (fields_of frame.now) result }
{
    if frame.id.value != id.value {
        return None;
    }
    match read_command(frame) {
        Ok(command) => Some(command),
        Err(_) => None,
    }
}

/// Keeps what the command tells, and appends the reply to it.
fn obey<B: Buffer>(
    id: StreamId,
    command: Option<Command>,
    serving: &Serving,
    told: &mut Subscription,
    out: &mut B,
) -> Result<(), AllocError>
    requires header { length serving.now.header.now ≤ MAX_TEXT }
    ensures ok { OnOk result (B.content out.new ≡ B.content out.old ++
        reply_of id.value serving.now command) }
    ensures told { told.new ≡ told_after told.old command }
    ensures err { OnErr result ((B.content out.new ≡ B.content out.old)
        × (B.capacity out.new ≡ B.capacity out.old)) }
    ensures room { length (B.content out.old) +
        length (reply_of id.value serving.now command) ≤ B.capacity out.old → IsOk result }
    ensures in_place { length (B.content out.old) +
        length (reply_of id.value serving.now command) ≤ B.capacity out.old →
        B.capacity out.new ≡ B.capacity out.old }
    ensures refused { OnErr result (B.refused out.new (needed_of serving.now command)) }
{
    match command {
        Some(Command::DataOff) => told.on = false,
        Some(Command::DataOn) => told.on = true,
        Some(Command::SendHeader) => return write_header(id, serving.soc, serving.header, out),
        Some(Command::SendCfg1) => {
            return write_config(&serving.layout, Kind::Cfg1, id, serving.soc, out);
        }
        Some(Command::SendCfg2) => {
            return write_config(&serving.layout, Kind::Cfg2, id, serving.soc, out);
        }
        Some(Command::SendCfg3) | None => told.ignored = told.ignored.saturating_add(1),
    }
    Ok(())
}

/// Takes in a piece of the stream, and appends the replies to the frames that end in it.
fn hear<B: Buffer, A: Allocator>(
    id: StreamId,
    framer: &mut Framer<A>,
    told: &mut Subscription,
    piece: &[u8],
    serving: &Serving,
    out: &mut B,
) -> Result<(), SessionFault>
    requires header { length serving.now.header.now ≤ MAX_TEXT }
    requires good { IsBad framer.old.step → ⊥ }
    ensures good { OnOk result (IsBad framer.new.step → ⊥) }
    ensures ok { OnOk result (HasAnswered id.value serving.now piece.now framer.old told.old
        (B.content out.old) framer.new told.new (B.content out.new)) }
    ensures bad { IsErrOf result SessionFault.BadStream → IsBad framer.new.step
        × (n : ℕ) × (n ≤ length piece.now)
        × HasAnswered id.value serving.now (take n piece.now) framer.old told.old
        (B.content out.old) framer.new told.new (B.content out.new) }
    ensures memory { IsErrOf result SessionFault.NoMemory
        → (n : ℕ) × (n ≤ length piece.now)
        × LacksOne id.value serving.now (take n piece.now) framer.old told.old (B.content out.old)
        framer.new told.new (B.content out.new) (B.capacity out.new) (B.refused out.new) }
    ensures in_place { length (B.content out.new) ≤ B.capacity out.old →
        B.capacity out.new ≡ B.capacity out.old }
{
    let mut at = 0;
    while at < piece.len() {
        let (taken, step) = framer.feed(&piece[at..]);
        at += taken;
        match step {
            Step::More => {}
            Step::Whole => {
                let command = command_to(id, &framer.fields());
                match obey(id, command, serving, told, out) {
                    Ok(()) => {}
                    Err(_) => return Err(SessionFault::NoMemory),
                }
            }
            Step::Bad(_) => return Err(SessionFault::BadStream),
        }
    }
    Ok(())
}

/// A session with a consumer: it finds the command frames in what the consumer sends, and answers them.
#[derive(Drop)]
pub struct Session<A: Allocator = Global> {
    id: StreamId,
    framer: Framer<A>,
    told: Subscription,
    ended: Option<SessionFault>,
}

impl<A: Allocator> Model for Session<A> {
    ghost use Rattle.std.specs.Prelude.{◌≡◌, None};
    ghost use Rattle.pdc_frame.specs.Stream.{IsBad};
    ghost use Rattle.pdc_session.specs.Session.{SessionView};

    ghost Value = { SessionView };

    ghost view = { λ s. record { id = s.id.value; held = s.framer; told = s.told; ended = s.ended } };

    ghost invariant = { λ s. record {
      good : s.ended ≡ None → IsBad s.framer.step → ⊥;
    } };
}

impl<A: Allocator> Session<A> {
    /// A session of the stream `id`, to which no byte came yet.
    ///
    /// # Errors
    ///
    /// [`AllocError`] where a request for room for the longest frame was refused.
    pub fn new(alloc: A, id: StreamId) -> Result<Session<A>, AllocError>
        ensures id { IfOk result (λ session. session.id ≡ id.value) }
        ensures is_new { IfOk result (λ session. IsNew session) }
        ensures refused { OnErr result (WasRefused MAX_SIZE) }
    {
        Ok(Session {
            id,
            framer: Framer::new(alloc)?,
            told: Subscription {
                on: false,
                ignored: 0,
            },
            ended: None,
        })
    }

    /// Whether data was asked for: what the last DataOn or DataOff said, at first not.
    pub fn on(&self) -> bool
        ensures { result ≡ self.now.told.on }
    {
        self.told.on
    }

    /// How many frames had no effect: those of another id or kind, SendCfg3, and those that say no command. It stays at its greatest
    /// value.
    pub fn ignored(&self) -> u64
        ensures { result ≡ self.now.told.ignored }
    {
        self.told.ignored
    }

    /// Takes in a piece of what the consumer sends, and appends to `out` the reply to each command frame that ends in it, in order.
    /// The text of the header has at most 65519 bytes.
    ///
    /// # Errors
    ///
    /// `BadStream` where the stream shows a fault, `NoMemory` where `out` has no room for a reply and its request for it was refused. `out`
    /// has the replies to the frames before. Either ends the session: each later call answers it again, and changes nothing.
    pub fn feed<B: Buffer>(
        &mut self,
        piece: &[u8],
        serving: &Serving,
        out: &mut B,
    ) -> Result<(), SessionFault>
        requires { length serving.now.header.now ≤ MAX_TEXT }
        ensures id { self.new.id ≡ self.old.id }
        ensures ended { OnErr result ((fault : SessionFault) → IsErrOf result fault →
            self.new.ended ≡ Some fault) }
        ensures goes_on { OnOk result ((self.old.ended ≡ None) × (self.new.ended ≡ None)) }
        ensures stays { (fault : SessionFault) → self.old.ended ≡ Some fault
            → IsErrOf result fault × (self.new ≡ self.old) × (out.new ≡ out.old) }
        ensures ok { OnOk result (HasAnswered self.old.id serving.now piece.now self.old.held
            self.old.told (B.content out.old) self.new.held self.new.told (B.content out.new)) }
        ensures bad { self.old.ended ≡ None → IsErrOf result SessionFault.BadStream →
            IsBad self.new.held.step
            × (n : ℕ) × (n ≤ length piece.now)
            × HasAnswered self.old.id serving.now (take n piece.now) self.old.held self.old.told
            (B.content out.old) self.new.held self.new.told (B.content out.new) }
        ensures memory { self.old.ended ≡ None → IsErrOf result SessionFault.NoMemory
            → (n : ℕ) × (n ≤ length piece.now)
            × LacksOne self.old.id serving.now (take n piece.now) self.old.held self.old.told
            (B.content out.old) self.new.held self.new.told (B.content out.new)
            (B.capacity out.new) (B.refused out.new) }
        // Where there was room for the replies, no memory is wanted,
        ensures room { self.old.ended ≡ None →
            HasRoom self.old.id serving.now piece.now self.old.held self.old.told
            (B.content out.old) (B.capacity out.old)
            → IsErrOf result SessionFault.NoMemory → ⊥ }
        ensures in_place { length (B.content out.new) ≤ B.capacity out.old →
            B.capacity out.new ≡ B.capacity out.old }
        // So for every way to cut a stream into pieces it is answered alike.
        ensures stream { IsFed serving.now piece.now self.old (B.content out.old) self.new
            (B.content out.new) }
    {
        streams_split_in_one_way();
        if let Some(fault) = self.ended {
            return Err(fault);
        }
        let answer = hear(
            self.id,
            &mut self.framer,
            &mut self.told,
            piece,
            serving,
            out,
        );
        if let Err(fault) = answer {
            self.ended = Some(fault);
        }
        answer
    }
}
