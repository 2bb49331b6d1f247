//! The next frame of a stream and a kind, in what a reader gives.
ghost use Rattle.std.specs.Prelude.{◌≡◌, ◌≤◌, ◌-◌, ◌⊎◌, ◌∷◌, [], true, false, OnOk, IsErrOf};
ghost use Rattle.std.specs.Io.KnownBytes.{Consumes, IsAtEnd};
ghost use Rattle.pdc_frame.specs.declared.step.Step.TheVariants.{Whole};
ghost use Rattle.pdc_frame.specs.Stream.{IsBad};
ghost use Rattle.pdc_session.specs.Counted.{faults_after, is_device, reads_after};
ghost use Rattle.pdc_session.specs.Counting.{faults_of, inner_of, reads_of};
ghost use Rattle.pdc_session.specs.Search.{Follows, IsOther, IsWanted, Searches};

use crate::client_fault::ClientFault;
use crate::counting::{Counting, is_interrupt};
use crate::unread::Unread;
use pdc_frame::{Framer, Kind, Step, StreamId};
use std::alloc::Allocator;
use std::io::Read;

/// The most frames that a call looks through.
pub const MAX_FRAMES: u32 = 1000;

/// The most reads of a call.
pub const MAX_READS: u32 = 1_000_000;

/// Reads once, where no byte is left. A read that was interrupted brings none.
fn read_more<R: Read, A: Allocator>(
    unread: &mut Unread<A>,
    reader: &mut Counting<R>,
) -> Result<(), ClientFault>
    requires { unread.old ≡ [] }
    ensures ok { OnOk result (Consumes (R.remaining (inner_of reader.old))
        (R.remaining (inner_of reader.new)) unread.new) }
    ensures end { IsErrOf result ClientFault.NoAnswer →
        IsAtEnd (R.remaining (inner_of reader.new)) }
    ensures bad { IsErrOf result ClientFault.BadStream → ⊥ }
    ensures memory { IsErrOf result ClientFault.NoMemory → ⊥ }
    ensures reads { reads_of reader.new ≡ reads_after 1 (reads_of reader.old) }
    ensures faults { faults_of reader.new ≡ faults_after (is_device result) (faults_of reader.old) }
{
    match unread.fill(reader) {
        Ok(0) => Err(ClientFault::NoAnswer),
        Ok(_) => Ok(()),
        Err(error) if is_interrupt(&error) => Ok(()),
        Err(_) => Err(ClientFault::Device),
    }
}

/// Reads up to the end of a frame, with at most so many reads.
fn next_frame<R: Read, A: Allocator>(
    framer: &mut Framer<A>,
    unread: &mut Unread<A>,
    reader: &mut Counting<R>,
    reads: &mut u32,
) -> Result<(), ClientFault>
    ensures ok { OnOk result (Follows framer.old unread.old (R.remaining (inner_of reader.old))
        (framer.new.bytes ∷ []) framer.new unread.new (R.remaining (inner_of reader.new))) }
    ensures whole { OnOk result (framer.new.step ≡ Whole) }
    ensures bad { IsErrOf result ClientFault.BadStream → IsBad framer.new.step }
    ensures no_answer { IsErrOf result ClientFault.NoAnswer →
        (reads.new ≡ 0) ⊎ IsAtEnd (R.remaining (inner_of reader.new)) }
    ensures memory { IsErrOf result ClientFault.NoMemory → ⊥ }
    ensures few { reads.new ≤ reads.old }
    ensures reads { reads_of reader.new ≡
        reads_after (reads.old - reads.new) (reads_of reader.old) }
    ensures faults { faults_of reader.new ≡ faults_after (is_device result) (faults_of reader.old) }
{
    loop {
        let (taken, step) = framer.feed(unread.bytes());
        unread.skip(taken);
        match step {
            Step::Whole => return Ok(()),
            Step::Bad(_) => return Err(ClientFault::BadStream),
            Step::More => {}
        }
        if *reads == 0 {
            return Err(ClientFault::NoAnswer);
        }
        *reads -= 1;
        read_more(unread, reader)?;
    }
}

/// Whether the frame is of this stream and kind.
fn is_wanted<A: Allocator>(framer: &Framer<A>, id: StreamId, kind: Kind) -> bool
    requires { framer.now.step ≡ Whole }
    ensures wanted { result ≡ true → IsWanted id.value kind framer.now.bytes }
    ensures other { result ≡ false → IsOther id.value kind framer.now.bytes }
{
    let frame = framer.fields();
    frame.id.value == id.value && frame.kind == kind
}

/// Reads up to the end of the next frame of this stream and kind, and passes the others over. `reads` is how many reads are left.
///
/// # Errors
///
/// `NoAnswer` where it did not come within the frames and reads of a call, or before the end of the input; `BadStream` where the
/// stream shows a fault; `Device` where a read failed.
pub fn find_frame<R: Read, A: Allocator>(
    id: StreamId,
    kind: Kind,
    framer: &mut Framer<A>,
    unread: &mut Unread<A>,
    reader: &mut Counting<R>,
    reads: &mut u32,
) -> Result<(), ClientFault>
    ensures searches { Searches id.value kind framer.old unread.old
        (R.remaining (inner_of reader.old)) framer.new unread.new
        (R.remaining (inner_of reader.new)) reads.new result }
    ensures memory { IsErrOf result ClientFault.NoMemory → ⊥ }
    ensures few { reads.new ≤ reads.old }
    ensures reads { reads_of reader.new ≡
        reads_after (reads.old - reads.new) (reads_of reader.old) }
    ensures faults { faults_of reader.new ≡ faults_after (is_device result) (faults_of reader.old) }
{
    for _ in 0..MAX_FRAMES {
        next_frame(framer, unread, reader, reads)?;
        if is_wanted(framer, id, kind) {
            return Ok(());
        }
    }
    Err(ClientFault::NoAnswer)
}
