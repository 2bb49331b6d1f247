//! What is done with the stream of a connection.
ghost use Rattle.std.specs.Prelude.{◌≡◌, ◌≤◌, ℕ, List, [], ◌++◌, IfOk, Ok, OnErr, false, length};
ghost use Rattle.pdc_frame.specs.declared.limits.TheConstants.{MAX_SIZE};
ghost use Rattle.pdc_session.specs.Counting.{inner_of};
ghost use Rattle.pdc_network.specs.Streamed.{BringsBytes, BringsNothing, HasRun, IsDone};
ghost use Rattle.pdc_network.specs.Streamed.{TakesFront, WasLetGo};
ghost use Rattle.pdc_network.specs.Came.{fits_in, frames_in};

use crate::loss::Loss;
use crate::receive::is_idle;
use pdc_frame::{Command, Framer, Step, StreamId};
use pdc_session::{Counting, Unread, tell};
use std::io::{Read, Write};

/// What came of a stream.
pub(crate) enum Came {
    /// Nothing, in this while.
    Nothing,
    /// Bytes, in which no frame ends.
    Piece,
    /// A frame of so many bytes.
    Frame(usize),
}

/// Tells the stream a command.
pub(crate) fn order<S: Read + Write>(
    id: StreamId,
    command: Command,
    stream: &mut Counting<S>,
) -> Result<(), Loss>
    ensures runs { BringsNothing S.remaining S.contents id.value (inner_of stream.old)
        (inner_of stream.new) }
{
    match tell(id, command, stream) {
        Ok(()) => Ok(()),
        Err(_) => Err(Loss::Untold),
    }
}

/// Lets a stream go.
#[tactic(auto, unfolding(crate::specs::Streamed::WasLetGo))]
pub(crate) fn let_go<S: Drop>(stream: Counting<S>)
    ensures { WasLetGo (inner_of stream) }
{
    drop(stream);
}

/// Tells the stream to send its configuration, and then its data.
pub(crate) fn ask<S: Read + Write>(id: StreamId, stream: &mut Counting<S>) -> Result<(), Loss>
    ensures runs { BringsNothing S.remaining S.contents id.value (inner_of stream.old)
        (inner_of stream.new) }
{
    order(id, Command::SendCfg2, stream)?;
    order(id, Command::DataOn, stream)
}

/// Reads once. Answers whether bytes came.
fn read_more<S: Read + Write>(unread: &mut Unread, stream: &mut Counting<S>) -> Result<bool, Loss>
    requires { unread.old ≡ [] }
    ensures runs { BringsBytes S.remaining S.contents (inner_of stream.old) (inner_of stream.new)
        unread.old unread.new }
    ensures none { result ≡ Ok false → unread.new ≡ [] }
    ensures err { OnErr result (unread.new ≡ []) }
{
    match unread.fill(stream) {
        Ok(count) => {
            if count == 0 {
                return Err(Loss::Closed);
            }
            Ok(true)
        }
        Err(error) => {
            if !is_idle(error.kind()) {
                return Err(Loss::Failed(error));
            }
            Ok(false)
        }
    }
}

/// Reads once, where no byte is left. Answers whether there are bytes.
fn read<S: Read + Write>(unread: &mut Unread, stream: &mut Counting<S>) -> Result<bool, Loss>
    ensures runs { BringsBytes S.remaining S.contents (inner_of stream.old) (inner_of stream.new)
        unread.old unread.new }
    ensures none { result ≡ Ok false → unread.new ≡ [] }
    ensures err { OnErr result (unread.new ≡ []) }
{
    if unread.bytes().is_empty() {
        return read_more(unread, stream);
    }
    Ok(true)
}

/// Takes the bytes up to the end of the next frame, and copies it to the front of the buffer, which has room for the longest one.
fn cut(framer: &mut Framer, unread: &mut Unread, buffer: &mut [u8]) -> Result<Came, Loss>
    requires { MAX_SIZE ≤ length buffer.old }
    ensures kept { length buffer.new ≡ length buffer.old }
    ensures fits { IfOk result (λ came. fits_in came (length buffer.new)) }
    ensures takes { TakesFront framer.old unread.old framer.new unread.new
        (frames_in result buffer.new) }
    ensures done { frames_in result buffer.new ≡ [] → IsDone framer.new unread.new }
{
    let (taken, step) = framer.feed(unread.bytes());
    unread.skip(taken);
    match step {
        Step::More => Ok(Came::Piece),
        Step::Bad(fault) => Err(Loss::NoFrame(fault)),
        Step::Whole => {
            let frame = framer.frame();
            buffer[..frame.len()].copy_from_slice(frame);
            Ok(Came::Frame(frame.len()))
        }
    }
}

/// The next frame, copied to the front of the buffer, which has room for the longest one. Each byte that was read is taken once.
pub(crate) fn take<S: Read + Write>(
    stream: &mut Counting<S>,
    framer: &mut Framer,
    unread: &mut Unread,
    buffer: &mut [u8],
) -> Result<Came, Loss>
    requires { MAX_SIZE ≤ length buffer.old }
    ensures kept { length buffer.new ≡ length buffer.old }
    ensures fits { IfOk result (λ came. fits_in came (length buffer.new)) }
    ensures runs { (id : ℕ) (made : S) (frames : List (List ℕ))
        → HasRun S.remaining S.contents id made (inner_of stream.old) framer.old unread.old frames
        → HasRun S.remaining S.contents id made (inner_of stream.new) framer.new unread.new
        (frames ++ frames_in result buffer.new) }
    ensures done { frames_in result buffer.new ≡ [] → IsDone framer.new unread.new }
{
    if read(unread, stream)? {
        cut(framer, unread, buffer)
    } else {
        Ok(Came::Nothing)
    }
}
