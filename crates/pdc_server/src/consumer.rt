//! One session, turn by turn.
ghost use Rattle.std.specs.Prelude.{◌≡◌, ◌⊎◌, ◌≤◌, ◌<◌, OnErr, IsErrOf, take, Some, None, false};
ghost use Rattle.std.specs.Prelude.{OnOk, IfOk, IfErr, vec_len};
ghost use Rattle.pdc_server.specs.declared.limits.TheConstants.{PIECE_LEN};
ghost use Rattle.pdc_server.specs.Places.{first_place, replied, seen_after};
ghost use Rattle.pdc_server.specs.Turn.{HasEnded, HasTurned, IsMade, dated_at, has_bytes};
ghost use Rattle.pdc_server.specs.Turn.{place_after};
ghost use Rattle.pdc_session.specs.Served.{IsNew};
ghost use Rattle.pdc_session.specs.pdc_memory.Asking.{SomeWasRefused, WasRefused};
ghost use Rattle.pdc_frame.specs.declared.limits.TheConstants.{MAX_SIZE};
ghost use Rattle.pdc_session.specs.declared.fault.SessionFault.TheVariants.{NoMemory as SessionNoMemory};

use crate::ended::Ended;
use crate::hearing::{Question, answer, append_data};
use crate::limits::PIECE_LEN;
use crate::naming::Naming;
use crate::place::{Place, Seen, seen_after};
use crate::recent::Recent;
use crate::stamp::Stamp;
use crate::traffic::{read_once, write_out};
use pdc_frame::StreamId;
use pdc_session::{Session, SessionFault, blank_piece};
use std::alloc::{AllocError, Global};
use std::io::{Read, Write};
use std::marker::PhantomData;
use std::sync::Wait;

/// A consumer that is connected to the stream that is kept: its session, and where it stands in the stream.
#[derive(Drop)]
pub struct Consumer<N: Naming> {
    session: Session,
    id: StreamId,
    place: Place,
    /// Whether bytes came in the last turn that read.
    heard: bool,
    piece: Vec<u8>,
    layout: Vec<u8>,
    out: Vec<u8>,
    of: PhantomData<N>,
    pub ghost of_stream: { session.id ≡ id.value },
    pub ghost of_kept: { id.value ≡ N.stream.id },
    pub ghost has_room: { vec_len piece ≡ PIECE_LEN },
}

/// The stamp of the layout that replies were made of, where any were made.
fn replied(stamp: Option<Stamp>, replies: &[u8]) -> Option<Stamp>
    ensures { result ≡ replied stamp replies.now }
{
    if replies.is_empty() { None } else { stamp }
}

/// Where a consumer stands in the stream once it has these replies, made of the layout with a stamp.
fn place_after(place: Place, stamp: Option<Stamp>, replies: &[u8]) -> Place
    ensures { result ≡ place_after place stamp replies.now }
{
    Place {
        got: place.got,
        seen: seen_after(place.seen, replied(stamp, replies)),
    }
}

impl<N: Naming> Consumer<N> {
    ghost use Rattle.pdc_server.specs.Consumer.{got_in, heard_in, id_in, is_silent_in, place_in};
    ghost use Rattle.pdc_server.specs.Consumer.{session_in, standing_in};

    /// A consumer of the stream whose frames are kept there, that sent nothing yet.
    ///
    /// # Errors
    ///
    /// [`AllocError`] where a request for room for the longest frame, or for a read, was refused.
    pub fn new(alloc: Global, recent: &Recent<N>) -> Result<Consumer<N>, AllocError>
        ensures id { IfOk result (λ consumer. id_in consumer ≡ N.stream.id) }
        ensures is_new { IfOk result (λ consumer. IsNew (session_in consumer)) }
        ensures place { IfOk result (λ consumer. place_in consumer ≡ first_place) }
        ensures heard { IfOk result (λ consumer. heard_in consumer ≡ false) }
        ensures refused { OnErr result (WasRefused MAX_SIZE ⊎ WasRefused PIECE_LEN) }
    {
        let id = recent.id();
        Ok(Consumer {
            session: Session::new(alloc, id)?,
            id,
            place: Place {
                got: 0,
                seen: Seen::Nothing,
            },
            heard: false,
            piece: blank_piece(alloc, PIECE_LEN)?,
            layout: Vec::new(alloc),
            out: Vec::new(alloc),
            of: PhantomData,
        })
    }

    /// Up to which instant it got data.
    pub fn got(&self) -> u64
        ensures { result ≡ got_in self.now }
    {
        self.place.got
    }

    /// Where it stands in the stream.
    pub fn place(&self) -> Place
        ensures { result ≡ place_in self.now }
    {
        self.place
    }

    /// Whether it gets data.
    pub fn wants_data(&self) -> bool
        ensures { result ≡ (session_in self.now).told.on }
    {
        self.session.on()
    }

    /// Whether bytes came in the last turn that read.
    pub fn was_heard(&self) -> bool
        ensures { result ≡ heard_in self.now }
    {
        self.heard
    }

    /// Whether it sent nothing in the last turn, and gets no data.
    pub fn is_silent(&self) -> bool
        ensures { result ≡ is_silent_in self.now }
    {
        !self.heard && !self.session.on()
    }

    /// Notes whether bytes came, and makes what is to be written once so many did: the replies to the commands that end there, and behind
    /// them, while data is on, what it is given of the stream next.
    fn make<R: Wait>(
        &mut self,
        rt: &R,
        recent: &Recent<N>,
        soc: u32,
        count: usize,
    ) -> Result<(), Ended>
        requires { count ≤ vec_len self.old.piece }
        ensures id { id_in self.new ≡ id_in self.old }
        ensures heard { heard_in self.new ≡ has_bytes (take count self.old.piece.items) }
        ensures ok { OnOk result (IsMade None (dated_at N.stream soc) (id_in self.old)
            (take count self.old.piece.items) (standing_in self.old) (standing_in self.new)
            self.new.out.items) }
        ensures err { IfErr result (λ ended. IsMade (Some ended) (dated_at N.stream soc)
            (id_in self.old) (take count self.old.piece.items) (standing_in self.old)
            (standing_in self.new) self.new.out.items) }
        ensures refused { IsErrOf result Ended.NoMemory → SomeWasRefused }
        ensures denied { (session_in self.old).ended ≡ None →
            IsErrOf result (Ended.Session SessionFault.NoMemory) → SomeWasRefused }
    {
        self.heard = count > 0;
        self.out.clear();
        let was_on = self.session.on();
        let question = Question {
            id: self.id,
            soc,
            piece: &self.piece[..count],
        };
        let stamp = answer(
            rt,
            recent,
            &question,
            &mut self.session,
            &mut self.layout,
            &mut self.out,
        )?;
        let place = place_after(self.place, stamp, &self.out);
        self.place = append_data(rt, &self.session, recent, place, !was_on, &mut self.out)?;
        Ok(())
    }

    /// Reads once what the consumer sends, and writes the replies to the commands that end there, dated with the second `soc`, and behind
    /// them, while data is on, what it is given of the stream next: data frames above what it got, of the layout that it has, or the frame
    /// of the layout that it is to have before any other.
    ///
    /// # Errors
    ///
    /// Why the session ended. Replies to commands before a fault of the session, and before a want of memory, are written.
    pub fn turn<S: Read + Write, R: Wait>(
        &mut self,
        rt: &R,
        recent: &Recent<N>,
        soc: u32,
        stream: &mut S,
    ) -> Result<(), Ended>
        ensures id { id_in self.new ≡ id_in self.old }
        ensures stream { id_in self.old ≡ N.stream.id }
        ensures ok { OnOk result (HasTurned S.remaining S.contents (dated_at N.stream soc)
            (id_in self.old) (standing_in self.old) (standing_in self.new) stream.old stream.new) }
        ensures ended { IfErr result (HasEnded S.remaining S.contents (dated_at N.stream soc)
            (id_in self.old) (standing_in self.old) (standing_in self.new) stream.old stream.new) }
        ensures refused { IsErrOf result Ended.NoMemory → SomeWasRefused }
        ensures denied { (session_in self.old).ended ≡ None →
            IsErrOf result (Ended.Session SessionFault.NoMemory) → SomeWasRefused }
    {
        let count = read_once(stream, &mut self.piece)?;
        let made = self.make(rt, recent, soc, count);
        write_out(rt, recent, stream, &self.out)?;
        made
    }
}
