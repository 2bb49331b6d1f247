//! The ruled channel between the aligner and the sender, and its steps.
ghost use Rattle.std.specs.Prelude.{◌≡◌, Bool, true, false, ℕ, [], ◌∷◌, ◌++◌, List, IfSome, IfNone};
ghost use Rattle.crossbeam_channel.specs.Claims.{view, IsSeatAt};
ghost use Rattle.crossbeam_channel.specs.Ends.{receives_on};
ghost use Rattle.pdc_pipe.specs.declared.message.Message.TheVariants.{Data, Layout, End};
ghost use Rattle.pdc_pipe.specs.Sequence.{is_end, IsClosedBy};
ghost use Rattle.pdc_pipe.specs.Pipe.{log, Piped};
ghost use Rattle.pdc_pipe.specs.Writing.{GoesOn, IsOpen, put_by};

use crate::message::Message;
use crate::writer::Writer;
use crossbeam_channel::protocol::{Join, Lesson, Outcome, Protocol, Split};
use crossbeam_channel::{Pass, RuledReceiver, RuledSender};
use std::alloc::Global;
use std::collections::LinkedList;
use std::sync::Wait;

/// How many messages the channel holds.
pub const CAPACITY: usize = 64;

/// Whether a pass may put and take, whether it has closed, what it has put and taken. No value of it is made.
pub struct Log {
    pub puts: bool,
    pub takes: bool,
    pub closed: bool,
    pub put: LinkedList<Message>,
    pub taken: LinkedList<Message>,
}

pub struct InOrder;

impl Protocol<Message, Log> for InOrder {
    ghost use Rattle.std.specs.Prelude.{true, false, []};
    ghost use Rattle.pdc_pipe.specs.Pipe.{log, Piped};

    ghost holds = { Piped };

    ghost first = { log true true false [] [] };
}

pub struct Roles;

impl Split<Log> for Roles {
    ghost use Rattle.std.specs.Prelude.{true, false, []};
    ghost use Rattle.pdc_pipe.specs.Pipe.{log};

    ghost left = { λ v. log true false v.closed v.put [] };

    ghost right = { λ v. log false true false [] v.taken };
}

impl Join<Log> for Roles {
    ghost use Rattle.std.specs.Prelude.{true, false, []};
    ghost use Rattle.pdc_pipe.specs.Pipe.{log};

    ghost both = { λ v w. log true true v.closed v.put w.taken };

    ghost spent = { log false false false [] [] };
}

pub struct Puts;

impl Outcome<Message, Log> for Puts {
    ghost then = { λ v x w. w ≡ log v.puts v.takes v.closed (v.put ++ x ∷ []) v.taken };
}

impl Lesson<Message, Log> for Puts {
    ghost fact = { λ v items. Unit {0} };
}

pub struct Closes;

impl Outcome<Message, Log> for Closes {
    ghost then = { λ v x w. w ≡ log v.puts v.takes true (v.put ++ x ∷ []) v.taken };
}

impl Lesson<Message, Log> for Closes {
    ghost fact = { λ v items. Unit {0} };
}

pub struct Takes;

impl Outcome<Message, Log> for Takes {
    ghost then = { λ v x w. w ≡ log v.puts v.takes v.closed v.put (v.taken ++ x ∷ []) };
}

impl Lesson<Message, Log> for Takes {
    ghost fact = { λ v items. Unit {0} };
}

pub struct Total;

impl Outcome<Message, Log> for Total {
    ghost then = { λ v x w. Unit {0} };
}

impl Lesson<Message, Log> for Total {
    ghost fact = { λ v items. (v.put ≡ v.taken ++ items) × IsClosedBy v.closed v.put };
}

pub type Sender = RuledSender<Message, Log, InOrder>;

pub type Receiver = RuledReceiver<Message, Log, InOrder>;

/// Puts a message that is no end mark. False where the channel's other end is gone.
pub fn put<R: Wait>(rt: &R, writer: &mut Writer, message: Message) -> bool
    requires goes { is_end message ≡ false }
    requires open { IsOpen writer.old }
    ensures on { GoesOn writer.old writer.new }
    ensures put { result ≡ true → put_by writer.new ≡ put_by writer.old ++ message ∷ [] }
    ensures not { result ≡ false → put_by writer.new ≡ put_by writer.old }
{
    let Writer { to, pass, .. } = writer;
    to.send_as::<Puts, R>(rt, pass, message).is_ok()
}

/// Puts the end mark. False where the channel's other end is gone.
pub fn close<R: Wait>(rt: &R, writer: &mut Writer) -> bool
    requires open { IsOpen writer.old }
    ensures same { writer.new.to ≡ writer.old.to }
    ensures closed { (view writer.new.pass).closed ≡ result }
    ensures put { result ≡ true → put_by writer.new ≡ put_by writer.old ++ End ∷ [] }
    ensures not { result ≡ false → put_by writer.new ≡ put_by writer.old }
{
    let Writer { to, pass, .. } = writer;
    to.send_as::<Closes, R>(rt, pass, Message::End).is_ok()
}

/// Takes the next message. None where the channel's other end is gone.
pub fn take_next<R: Wait>(
    rt: &R,
    receiver: &Receiver,
    pass: &mut Pass<Message, Log>,
) -> Option<Message>
    requires seat { IsSeatAt (receives_on receiver.now) pass.old
        × (view pass.old ≡ log false true false [] (view pass.old).taken) }
    ensures seat { IsSeatAt (receives_on receiver.now) pass.new
        × (view pass.new ≡ log false true false [] (view pass.new).taken) }
    ensures took { IfSome result (λ m. (view pass.new).taken ≡ (view pass.old).taken ++ m ∷ []) }
    ensures none { IfNone result ((view pass.new).taken ≡ (view pass.old).taken) }
{
    receiver.recv_as::<Takes, R>(rt, pass).ok()
}
