//! The sender: hands what it takes to the sink.
ghost use Rattle.std.specs.Prelude.{◌≡◌, ◌≤◌, ◌+◌, ◌++◌, ◌∷◌, ℕ, List, [], false, true};
ghost use Rattle.crossbeam_channel.specs.Claims.{IsSeatAt, view};
ghost use Rattle.crossbeam_channel.specs.Ends.{receives_on};
ghost use Rattle.pdc_pipe.specs.Pipe.{log};
ghost use Rattle.pdc_pipe.specs.Sequence.{bytes_of};
ghost use Rattle.pdc_pipe.specs.declared.message.Message.{Message};
ghost use Rattle.pdc_pipe.specs.declared.message.Message.TheVariants.{End};
ghost use Rattle.pdc_ports.specs.Failures.{HasRisen};

use crate::message::Message;
use crate::outlet::Outlet;
use crate::pipe::{Log, Receiver, take_next};
use crate::spares::Returns;
use crossbeam_channel::Pass;
use std::sync::Wait;

/// How the sender ended.
#[derive(Clone, Copy, Debug, PartialEq, Eq)]
pub enum Ended {
    /// It took the end mark, and handed on all before it.
    AtEndMark,
    /// The sink failed.
    SinkFault,
    /// The channel's other end is gone.
    AlignerGone,
}

/// Hands what it takes to the sink, up to the end mark or the sink's first fault, and gives its memory back.
fn hand_on<K: Outlet, R: Wait>(
    rt: &R,
    back: &Returns,
    receiver: &Receiver,
    pass: &mut Pass<Message, Log>,
    sink: &mut K,
) -> Ended
    requires seat { IsSeatAt (receives_on receiver.now) pass.old
        × (view pass.old ≡ log false true false [] []) }
    ensures seat { IsSeatAt (receives_on receiver.now) pass.new
        × (view pass.new ≡ log false true false [] (view pass.new).taken) }
    ensures took { (given : List (List ℕ)) × (rest : List (List ℕ))
        × K.took sink.old sink.new given × (bytes_of (view pass.new).taken ≡ given ++ rest) }
    ensures whole { result ≡ Ended.AtEndMark →
        K.took sink.old sink.new (bytes_of (view pass.new).taken)
        × ((body : List Message) × ((view pass.new).taken ≡ body ++ End ∷ [])) }
    ensures fault { result ≡ Ended.SinkFault →
        HasRisen (K.failures_of sink.old) (K.failures_of sink.new) }
{
    for _ in rt.forever() {
        match take_next(rt, receiver, pass) {
            Some(Message::Data(row)) => {
                let mut row = row;
                let sent = sink.send_data(&mut row);
                back.give(rt, row.into_row());
                if sent.is_err() {
                    return Ended::SinkFault;
                }
            }
            Some(Message::Layout(frame)) => {
                if sink.send_layout(&frame).is_err() {
                    return Ended::SinkFault;
                }
            }
            Some(Message::End) => return Ended::AtEndMark,
            None => return Ended::AlignerGone,
        }
    }
    unreachable!()
}

/// Takes up to the end mark, and hands nothing on. The memory of each row is given back.
fn drain<R: Wait>(rt: &R, back: &Returns, receiver: &Receiver, pass: &mut Pass<Message, Log>)
    requires seat { IsSeatAt (receives_on receiver.now) pass.old
        × (view pass.old ≡ log false true false [] (view pass.old).taken) }
    ensures seat { IsSeatAt (receives_on receiver.now) pass.new
        × (view pass.new ≡ log false true false [] (view pass.new).taken) }
    ensures more { (rest : List Message) × ((view pass.new).taken ≡ (view pass.old).taken ++ rest) }
{
    for _ in rt.forever() {
        match take_next(rt, receiver, pass) {
            Some(Message::Data(row)) => back.give(rt, row.into_row()),
            Some(Message::Layout(_frame)) => {}
            Some(Message::End) => return,
            None => return,
        }
    }
    unreachable!()
}

/// Hands what it takes to the sink, each frame whole and once. After a fault of the sink it hands nothing more on, and goes on taking up to
/// the end mark, so that the aligner is not held.
pub fn send_out<K: Outlet, R: Wait>(
    rt: &R,
    back: &Returns,
    receiver: &Receiver,
    pass: &mut Pass<Message, Log>,
    sink: &mut K,
) -> Ended
    requires seat { IsSeatAt (receives_on receiver.now) pass.old
        × (view pass.old ≡ log false true false [] []) }
    ensures seat { IsSeatAt (receives_on receiver.now) pass.new
        × (view pass.new ≡ log false true false [] (view pass.new).taken) }
    // What the sink took is a prefix of what was taken,
    ensures took { (given : List (List ℕ)) × (rest : List (List ℕ))
        × K.took sink.old sink.new given × (bytes_of (view pass.new).taken ≡ given ++ rest) }
    // all of it, up to the end mark, where it ended there,
    ensures whole { result ≡ Ended.AtEndMark →
        K.took sink.old sink.new (bytes_of (view pass.new).taken)
        × ((body : List Message) × ((view pass.new).taken ≡ body ++ End ∷ [])) }
    // and the sink failed where it ended by that.
    ensures fault { result ≡ Ended.SinkFault →
        HasRisen (K.failures_of sink.old) (K.failures_of sink.new) }
{
    let ended = hand_on(rt, back, receiver, pass, sink);
    if ended == Ended::SinkFault {
        drain(rt, back, receiver, pass);
    }
    ended
}
