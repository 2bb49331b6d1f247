//! The client.
ghost use Rattle.std.specs.Prelude.{◌≡◌, ◌⊎◌, ◌≤◌, ◌<◌, ◌+◌, ◌-◌, ℕ, [], length, None, IfOk};
ghost use Rattle.std.specs.Prelude.{IsErrOf, IsOkAnd, OnErr, OnOk, is_err};
ghost use Rattle.std.specs.Io.KnownBytes.{Appends};
ghost use Rattle.pdc_frame.specs.Frame.{Fields, IsFrame, spelling_of};
ghost use Rattle.pdc_frame.specs.Stream.{HasTaken};
ghost use Rattle.pdc_frame.specs.Command.{command_fields};
ghost use Rattle.pdc_memory.specs.Asking.{WasRefused};
ghost use Rattle.pdc_session.specs.Counted.{faults_after, is_device, reads_after};
ghost use Rattle.pdc_session.specs.Search.{Searches};
ghost use Rattle.pdc_session.specs.declared.telling.TheConstants.{COMMAND_SOC};
ghost use Rattle.pdc_session.specs.declared.search.TheConstants.{MAX_READS};
ghost use Rattle.pdc_frame.specs.declared.frame.Kind.TheVariants.{Cfg2, DataFrame, HeaderFrame};
ghost use Rattle.pdc_session.specs.declared.client_fault.ClientFault.{ClientFault};
ghost use Rattle.pdc_session.specs.declared.unread.TheConstants.{PIECE_LEN};
ghost use Rattle.pdc_frame.specs.declared.limits.TheConstants.{MAX_SIZE};

use crate::client_fault::ClientFault;
use crate::counting::Counting;
use crate::search::{MAX_READS, find_frame};
use crate::telling::tell;
use crate::unread::Unread;
use pdc_frame::{Command, Framer, Kind, StreamId};
use pdc_memory::copy_of;
use std::alloc::{AllocError, Allocator, Global};
use std::io::{Read, Write};

/// A client of the sender of one stream, over a reader and writer. Frames of other streams and kinds are passed over, and commands are
/// dated with second 0. What was read behind an answer is kept for the next one.
#[derive(Drop)]
pub struct Pdc<S, A: Allocator = Global> {
    id: StreamId,
    stream: Counting<S>,
    framer: Framer<A>,
    unread: Unread<A>,
    reads_left: u32,
    ended: Option<ClientFault>,
}

impl<S: Read + Write, A: Allocator> Pdc<S, A> {
    ghost use Rattle.pdc_session.specs.Client.{KeepsFaults, ended_in, faults_in, held_in, id_in};
    ghost use Rattle.pdc_session.specs.Client.{reads_in, reads_left_in, stream_in, unread_in};

    /// A client of the stream `id`. It reads and writes nothing yet.
    ///
    /// # Errors
    ///
    /// [`AllocError`] where a request for room for the longest frame, or for a read, was refused. The reader and writer is let go then.
    pub fn new(alloc: A, id: StreamId, stream: S) -> Result<Pdc<S, A>, AllocError>
    where
        S: Drop,
        A: Copy,
        ensures id { IfOk result (λ pdc. id_in pdc ≡ id.value) }
        ensures stream { IfOk result (λ pdc. stream_in pdc ≡ stream) }
        ensures held { IfOk result (λ pdc. HasTaken [] [] (held_in pdc)) }
        ensures unread { IfOk result (λ pdc. unread_in pdc ≡ []) }
        ensures ended { IfOk result (λ pdc. ended_in pdc ≡ None) }
        ensures reads { IfOk result (λ pdc. reads_in pdc ≡ 0) }
        ensures faults { IfOk result (λ pdc. faults_in pdc ≡ 0) }
        ensures refused { OnErr result (WasRefused MAX_SIZE ⊎ WasRefused PIECE_LEN) }
    {
        Ok(Pdc {
            id,
            stream: Counting::new(stream),
            framer: Framer::new(alloc)?,
            unread: Unread::new(alloc)?,
            reads_left: MAX_READS,
            ended: None,
        })
    }

    /// How many reads the last search for a frame had left of [`MAX_READS`].
    pub fn reads_left(&self) -> u32
        ensures { result ≡ reads_left_in self.now }
    {
        self.reads_left
    }

    /// How often its stream was read. It stays at its greatest value.
    pub fn reads(&self) -> u64
        ensures { result ≡ reads_in self.now }
    {
        self.stream.reads()
    }

    /// How often a read or a write of its stream failed; a read that was interrupted did not. It stays at its greatest value.
    pub fn faults(&self) -> u64
        ensures { result ≡ faults_in self.now }
    {
        self.stream.faults()
    }

    /// Writes a command.
    fn order(&mut self, command: Command) -> Result<(), ClientFault>
        ensures keeps { KeepsFaults self.old self.new result }
        ensures ok { OnOk result (Appends (S.contents (stream_in self.old))
            (S.contents (stream_in self.new)) (spelling_of
            (command_fields (id_in self.old) COMMAND_SOC command))) }
        ensures fault { ended_in self.old ≡ None →
            OnErr result (IsErrOf result ClientFault.Device) }
        ensures held { held_in self.new ≡ held_in self.old }
        ensures unread { unread_in self.new ≡ unread_in self.old }
        ensures reads { reads_in self.new ≡ reads_in self.old }
        ensures device { ended_in self.old ≡ None →
            faults_in self.new ≡ faults_after (is_err result) (faults_in self.old) }
    {
        if let Some(fault) = self.ended {
            return Err(fault);
        }
        let answer = tell(self.id, command, &mut self.stream);
        if let Err(fault) = answer {
            self.ended = Some(fault);
        }
        answer
    }

    /// Reads up to the end of the next frame of this kind.
    fn find(&mut self, kind: Kind) -> Result<(), ClientFault>
        ensures keeps { KeepsFaults self.old self.new result }
        ensures searches { ended_in self.old ≡ None →
            Searches (id_in self.old) kind (held_in self.old) (unread_in self.old)
            (S.remaining (stream_in self.old)) (held_in self.new) (unread_in self.new)
            (S.remaining (stream_in self.new)) (reads_left_in self.new) result }
        ensures memory { ended_in self.old ≡ None → IsErrOf result ClientFault.NoMemory → ⊥ }
        ensures reads { ended_in self.old ≡ None →
            (reads_left_in self.new ≤ MAX_READS)
            × (reads_in self.new ≡ reads_after (MAX_READS - reads_left_in self.new)
            (reads_in self.old)) }
        ensures device { ended_in self.old ≡ None →
            faults_in self.new ≡ faults_after (is_device result) (faults_in self.old) }
        ensures few { reads_in self.new ≤ reads_in self.old + MAX_READS }
    {
        if let Some(fault) = self.ended {
            return Err(fault);
        }
        self.reads_left = MAX_READS;
        let answer = find_frame(
            self.id,
            kind,
            &mut self.framer,
            &mut self.unread,
            &mut self.stream,
            &mut self.reads_left,
        );
        if let Err(fault) = answer {
            self.ended = Some(fault);
        }
        answer
    }

    /// Ends the client for want of memory, where the copy of an answer wanted it.
    fn keep_copy<B: Allocator>(
        &mut self,
        copy: Result<Vec<u8, B>, AllocError>,
    ) -> Result<Vec<u8, B>, ClientFault>
        requires { ended_in self.old ≡ None }
        ensures keeps { KeepsFaults self.old self.new result }
        ensures ok { IfOk result (λ bytes. IsOkAnd copy (λ kept. bytes.items ≡ kept.items)) }
        ensures held { held_in self.new ≡ held_in self.old }
        ensures unread { unread_in self.new ≡ unread_in self.old }
        ensures stream { stream_in self.new ≡ stream_in self.old }
        ensures reads_left { reads_left_in self.new ≡ reads_left_in self.old }
        ensures reads { reads_in self.new ≡ reads_in self.old }
        ensures faults { faults_in self.new ≡ faults_in self.old }
        ensures fault { OnErr result (IsErrOf result ClientFault.NoMemory) }
        ensures refused { (n : ℕ) → OnErr copy (WasRefused n) → OnErr result (WasRefused n) }
    {
        match copy {
            Ok(bytes) => Ok(bytes),
            Err(_) => {
                self.ended = Some(ClientFault::NoMemory);
                Err(ClientFault::NoMemory)
            }
        }
    }

    /// The bytes of the next data frame.
    ///
    /// # Errors
    ///
    /// `NoAnswer` where none came within [`MAX_FRAMES`](crate::MAX_FRAMES) frames and [`MAX_READS`] reads, or before
    /// the end of the input; `BadStream` where the stream shows a fault; `Device` where a read failed; `NoMemory` where a
    /// request for the answer's bytes was refused. Each ends the client: every later call answers it again.
    pub fn get<B: Allocator>(&mut self, alloc: B) -> Result<Vec<u8, B>, ClientFault>
        ensures keeps { KeepsFaults self.old self.new result }
        ensures searches { ended_in self.old ≡ None →
            Searches (id_in self.old) DataFrame (held_in self.old) (unread_in self.old)
            (S.remaining (stream_in self.old)) (held_in self.new) (unread_in self.new)
            (S.remaining (stream_in self.new)) (reads_left_in self.new) result }
        ensures answer { IfOk result (λ bytes. bytes.items ≡ (held_in self.new).bytes) }
        ensures refused { ended_in self.old ≡ None → IsErrOf result ClientFault.NoMemory →
            WasRefused (length (held_in self.new).bytes) }
        ensures few { reads_in self.new ≤ reads_in self.old + MAX_READS }
        ensures reads { ended_in self.old ≡ None →
            (reads_left_in self.new ≤ MAX_READS)
            × (reads_in self.new ≡ reads_after (MAX_READS - reads_left_in self.new)
            (reads_in self.old)) }
        ensures device { ended_in self.old ≡ None →
            faults_in self.new ≡ faults_after (is_device result) (faults_in self.old) }
    {
        self.find(Kind::DataFrame)?;
        let copy = copy_of(alloc, self.framer.frame());
        self.keep_copy(copy)
    }

    /// Asks for the CFG-2 frame, and answers the bytes of the next one.
    ///
    /// # Errors
    ///
    /// Those of [`get`](Pdc::get), and `Device` where the command could not be written.
    pub fn get_config<B: Allocator>(&mut self, alloc: B) -> Result<Vec<u8, B>, ClientFault>
        ensures keeps { KeepsFaults self.old self.new result }
        ensures searches { ended_in self.old ≡ None → IsErrOf result ClientFault.Device
            ⊎ ((asked : S) × Appends (S.contents (stream_in self.old)) (S.contents asked)
            (spelling_of (command_fields (id_in self.old) COMMAND_SOC Command.SendCfg2))
            × Searches (id_in self.old) Cfg2 (held_in self.old) (unread_in self.old)
            (S.remaining asked) (held_in self.new) (unread_in self.new)
            (S.remaining (stream_in self.new)) (reads_left_in self.new) result) }
        ensures answer { IfOk result (λ bytes. bytes.items ≡ (held_in self.new).bytes) }
        ensures refused { ended_in self.old ≡ None → IsErrOf result ClientFault.NoMemory →
            WasRefused (length (held_in self.new).bytes) }
        ensures few { reads_in self.new ≤ reads_in self.old + MAX_READS }
        ensures reads { ended_in self.old ≡ None →
            IsErrOf result ClientFault.Device ⊎ ((reads_left_in self.new ≤ MAX_READS)
            × (reads_in self.new ≡ reads_after (MAX_READS - reads_left_in self.new)
            (reads_in self.old))) }
        ensures device { ended_in self.old ≡ None →
            faults_in self.new ≡ faults_after (is_device result) (faults_in self.old) }
    {
        self.order(Command::SendCfg2)?;
        self.find(Kind::Cfg2)?;
        let copy = copy_of(alloc, self.framer.frame());
        self.keep_copy(copy)
    }

    /// Asks for the header frame, and answers the text of the next one.
    ///
    /// # Errors
    ///
    /// Those of [`get`](Pdc::get), and `Device` where the command could not be written.
    pub fn get_header<B: Allocator>(&mut self, alloc: B) -> Result<Vec<u8, B>, ClientFault>
        ensures keeps { KeepsFaults self.old self.new result }
        ensures searches { ended_in self.old ≡ None → IsErrOf result ClientFault.Device
            ⊎ ((asked : S) × Appends (S.contents (stream_in self.old)) (S.contents asked)
            (spelling_of (command_fields (id_in self.old) COMMAND_SOC Command.SendHeader))
            × Searches (id_in self.old) HeaderFrame (held_in self.old) (unread_in self.old)
            (S.remaining asked) (held_in self.new) (unread_in self.new)
            (S.remaining (stream_in self.new)) (reads_left_in self.new) result) }
        ensures answer { IfOk result (λ text. (f : Fields) × IsFrame (held_in self.new).bytes f
            × (text.items ≡ f.payload)) }
        ensures refused { ended_in self.old ≡ None → IsErrOf result ClientFault.NoMemory →
            (f : Fields) × IsFrame (held_in self.new).bytes f × WasRefused (length f.payload) }
        ensures few { reads_in self.new ≤ reads_in self.old + MAX_READS }
        ensures reads { ended_in self.old ≡ None →
            IsErrOf result ClientFault.Device ⊎ ((reads_left_in self.new ≤ MAX_READS)
            × (reads_in self.new ≡ reads_after (MAX_READS - reads_left_in self.new)
            (reads_in self.old))) }
        ensures device { ended_in self.old ≡ None →
            faults_in self.new ≡ faults_after (is_device result) (faults_in self.old) }
    {
        self.order(Command::SendHeader)?;
        self.find(Kind::HeaderFrame)?;
        let copy = copy_of(alloc, self.framer.fields().payload);
        self.keep_copy(copy)
    }

    /// Asks for data.
    ///
    /// # Errors
    ///
    /// `Device` where the command could not be written. It ends the client: every later call answers it again.
    pub fn start(&mut self) -> Result<(), ClientFault>
        ensures keeps { KeepsFaults self.old self.new result }
        ensures ok { OnOk result (Appends (S.contents (stream_in self.old))
            (S.contents (stream_in self.new)) (spelling_of
            (command_fields (id_in self.old) COMMAND_SOC Command.DataOn))) }
        ensures fault { ended_in self.old ≡ None →
            OnErr result (IsErrOf result ClientFault.Device) }
        ensures held { held_in self.new ≡ held_in self.old }
        ensures unread { unread_in self.new ≡ unread_in self.old }
        ensures reads { reads_in self.new ≡ reads_in self.old }
        ensures device { ended_in self.old ≡ None →
            faults_in self.new ≡ faults_after (is_err result) (faults_in self.old) }
    {
        self.order(Command::DataOn)
    }

    /// Asks for no more data.
    ///
    /// # Errors
    ///
    /// Those of [`start`](Pdc::start).
    pub fn stop(&mut self) -> Result<(), ClientFault>
        ensures keeps { KeepsFaults self.old self.new result }
        ensures ok { OnOk result (Appends (S.contents (stream_in self.old))
            (S.contents (stream_in self.new)) (spelling_of
            (command_fields (id_in self.old) COMMAND_SOC Command.DataOff))) }
        ensures fault { ended_in self.old ≡ None →
            OnErr result (IsErrOf result ClientFault.Device) }
        ensures held { held_in self.new ≡ held_in self.old }
        ensures unread { unread_in self.new ≡ unread_in self.old }
        ensures reads { reads_in self.new ≡ reads_in self.old }
        ensures device { ended_in self.old ≡ None →
            faults_in self.new ≡ faults_after (is_err result) (faults_in self.old) }
    {
        self.order(Command::DataOff)
    }

    /// Asks for no more data, and gives the reader and writer back, with the fault where it met one or had ended before. A client that
    /// had ended writes nothing.
    pub fn quit(self) -> (S, Result<(), ClientFault>)
        ensures ok { OnOk result.1 (Appends (S.contents (stream_in self)) (S.contents result.0)
            (spelling_of (command_fields (id_in self) COMMAND_SOC Command.DataOff))) }
        ensures fault { ended_in self ≡ None →
            OnErr result.1 (IsErrOf result.1 ClientFault.Device) }
        ensures goes_on { OnOk result.1 (ended_in self ≡ None) }
        ensures stays { (fault : ClientFault) → ended_in self ≡ Some fault →
            IsErrOf result.1 fault × (result.0 ≡ stream_in self) }
    {
        let mut pdc = self;
        let answer = pdc.order(Command::DataOff);
        (pdc.stream.into_inner(), answer)
    }
}
