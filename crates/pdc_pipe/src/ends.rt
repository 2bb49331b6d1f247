//! A channel with its two ends, the sender in a thread of its own, and what is known once it was joined.
ghost use Rattle.std.specs.Prelude.{◌≡◌, ◌++◌, IfOk, List, [], false, true};
ghost use Rattle.crossbeam_channel.specs.Claims.{IsSeatAt, view};
ghost use Rattle.crossbeam_channel.specs.Ends.{receives_on, sends_on};
ghost use Rattle.pdc_pipe.specs.HandedOn.{HasHandedOn, HasSinkCause};
ghost use Rattle.pdc_pipe.specs.Pipe.{log};
ghost use Rattle.pdc_pipe.specs.Writing.{IsOpen, put_by};

use crate::message::Message;
use crate::outlet::Outlet;
use crate::pipe::{CAPACITY, InOrder, Log, Receiver, Roles, Total};
use crate::senders::{Ended, send_out};
use crate::spares::{Returns, spare_channel};
use crate::writer::Writer;
use crossbeam_channel::{Pass, bounded_with};
use pdc_ports::Sink;
use std::alloc::{AllocError, Global};
use std::snapshot::Snapshot;
use std::sync::Wait;
use std::thread::Promise;

/// Both ends of a channel, each with its pass.
#[derive(Drop)]
pub struct Ends {
    /// The aligner's end.
    pub writer: Writer,
    /// The sender's end.
    pub from: Receiver,
    /// By which the sender takes.
    pub reader: Pass<Message, Log>,
    /// Where the sender gives rows back.
    pub back: Returns,
}

/// A channel with nothing in it, and none of the rows that go round.
///
/// # Errors
///
/// Where there is no memory for it.
pub fn channel(alloc: Global) -> Result<Ends, AllocError>
    ensures { IfOk result (λ ends. (receives_on ends.from ≡ sends_on ends.writer.to)
        × IsOpen ends.writer × (put_by ends.writer ≡ [])
        × (IsSeatAt (receives_on ends.from) ends.reader
        × (view ends.reader ≡ log false true false [] []))) }
{
    let (to, from, mut pass) = bounded_with::<Message, Log, InOrder, Global>(alloc, CAPACITY)?;
    let (spares, back) = spare_channel(alloc)?;
    let reader = to.another::<Roles>(&mut pass);
    Ok(Ends {
        writer: Writer { to, pass, spares },
        from,
        reader,
        back,
    })
}

/// What the sender's thread hands back.
#[derive(Drop)]
pub struct Sent<K> {
    /// The sink that it was given.
    pub sink: K,
    /// The pass by which it took.
    pub pass: Pass<Message, Log>,
    /// How it ended.
    pub ended: Ended,
}

/// What the sender's thread promises, of the sink that it was given and the end that it takes from.
#[derive(Drop)]
pub struct HandsOn<'a, K> {
    /// The sink as it was given.
    pub sink: Snapshot<K>,
    /// The end that it takes from.
    pub from: &'a Receiver,
}

impl<'a, K: Sink> Promise<Sent<K>> for HandsOn<'a, K> {
    ghost use Rattle.std.specs.Prelude.{◌≡◌, ℕ, List, [], ◌++◌, true, false};
    ghost use Rattle.crossbeam_channel.specs.Claims.{view, IsSeatAt};
    ghost use Rattle.crossbeam_channel.specs.Ends.{receives_on};
    ghost use Rattle.pdc_pipe.specs.HandedOn.{HasHandedOn, HasSinkCause};
    ghost use Rattle.pdc_pipe.specs.Pipe.{log};

    ghost kept_by = { λ p r. IsSeatAt (receives_on p.from.now) r.pass
        × (view r.pass ≡ log false true false [] (view r.pass).taken)
        × HasHandedOn (K.took p.sink.value r.sink) (view r.pass).taken r.ended
        × HasSinkCause r.ended (K.failures_of p.sink.value) (K.failures_of r.sink) };
}

/// As [`send_out`], of a sink that is its own.
pub fn send_owned<K: Outlet, R: Wait>(
    rt: &R,
    back: Returns,
    from: &Receiver,
    pass: Pass<Message, Log>,
    sink: K,
) -> Sent<K>
    requires { IsSeatAt (receives_on from.now) pass × (view pass ≡ log false true false [] []) }
    ensures { IsSeatAt (receives_on from.now) result.pass
        × (view result.pass ≡ log false true false [] (view result.pass).taken)
        × HasHandedOn (K.took sink result.sink) (view result.pass).taken result.ended
        × HasSinkCause result.ended (K.failures_of sink) (K.failures_of result.sink) }
{
    let mut pass = pass;
    let mut sink = sink;
    let ended = send_out(rt, &back, from, &mut pass, &mut sink);
    Sent { sink, pass, ended }
}

/// Joins both passes, and hands back the sink and how the sender ended. What the sink took are the first of the frames that were put, where
/// they are the first of those that were taken.
pub fn settle<K: Sink>(writer: Writer, sent: Sent<K>) -> (K, Ended)
    requires reader { IsSeatAt (sends_on writer.to) sent.pass × ((view sent.pass).takes ≡ true) }
    ensures back { (result.0 ≡ sent.sink) × (result.1 ≡ sent.ended) }
    ensures handed { (before : K) →
        HasHandedOn (K.took before sent.sink) (view sent.pass).taken sent.ended →
        HasHandedOn (K.took before result.0) (put_by writer) result.1 }
{
    let Writer {
        to,
        pass: own,
        spares: _,
    } = writer;
    let mut own = own;
    let Sent { sink, pass, ended } = sent;
    to.absorb::<Roles>(&mut own, pass);
    to.learn_as::<Total>(&mut own);
    (sink, ended)
}
