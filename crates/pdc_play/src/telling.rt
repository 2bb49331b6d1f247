//! An event played, and what is printed of it.
ghost use Rattle.std.specs.Prelude.{◌≡◌, IsErrOf, Ok, Some};
ghost use Rattle.pdc_history.specs.pdc_memory.Asking.{SomeWasRefused};
ghost use Rattle.pdc_history.specs.declared.event_fault.Fault.TheVariants.{NoMemory};
ghost use Rattle.pdc_play.specs.Written.{asked_in};
ghost use Rattle.pdc_play.specs.Run.{Comes, EndsHere, PlaysOn, Refuses, Replies};
ghost use Rattle.pdc_play.specs.Script.{frame_of};
ghost use Rattle.pdc_play.specs.declared.ending.Ending.TheVariants.{Refused};

use crate::ending::Ending;
use crate::fault::PlayFault;
use crate::line::{NotRead, read_event};
use crate::player::Plays;
use crate::printed::{write_fault, write_not_an_event, write_reply};
use crate::written::Written;
use pdc_history::Reply;
use std::alloc::Global;
use std::io::Write;

/// The frame that a reply tells of, or no bytes.
fn frame_told<'a, P: Plays>(player: &'a P, reply: &Reply) -> &'a [u8]
    ensures { result.now ≡ frame_of (P.frames player.now) reply.now }
{
    match reply {
        Reply::Published {
            published: Some(row),
            ..
        } => player.frame(row.number).unwrap_or(&[]),
        _ => &[],
    }
}

/// Plays the event, and prints the line of its reply, or why it is refused as the event of the number `at`.
fn play_written<P: Plays, W: Write>(
    written: &Written,
    at: u64,
    player: &mut P,
    writer: &mut W,
) -> Result<Option<Ending>, PlayFault>
    ensures comes { Comes (Replies P.replies P.frames player.old (asked_in written.now) player.new
        (W.contents writer.old) (W.contents writer.new))
        (λ end. Refuses P.refuses player.old (asked_in written.now) player.new at end
        (W.contents writer.old) (W.contents writer.new)) result }
    ensures refused { result ≡ Ok (Some (Refused NoMemory)) → P.wants }
    ensures denied { IsErrOf result PlayFault.Memory → SomeWasRefused }
    ensures long { IsErrOf result PlayFault.TooLong → ⊥ }
{
    match player.play_event(&written.event()) {
        Ok(reply) => {
            let frame = frame_told(player, &reply);
            write_reply(&reply, frame, writer).map_err(PlayFault::Write)?;
            Ok(None)
        }
        Err(fault) => {
            write_fault(fault, at, writer).map_err(PlayFault::Write)?;
            Ok(Some(Ending::Refused(fault)))
        }
    }
}

/// Plays the text of a line, and prints what is told of it: it is the line of the number `number`, and would be the event of the number `at`.
pub fn play_text<P: Plays, W: Write>(
    alloc: Global,
    text: &[u8],
    number: u64,
    at: u64,
    player: &mut P,
    writer: &mut W,
) -> Result<Option<Ending>, PlayFault>
    ensures comes { Comes (PlaysOn P.replies P.frames player.old text.now player.new
        (W.contents writer.old) (W.contents writer.new))
        (λ end. EndsHere P.refuses player.old text.now player.new number at end
        (W.contents writer.old) (W.contents writer.new)) result }
    ensures refused { result ≡ Ok (Some (Refused NoMemory)) → P.wants }
    ensures denied { IsErrOf result PlayFault.Memory → SomeWasRefused }
    ensures long { IsErrOf result PlayFault.TooLong → ⊥ }
{
    if text.is_empty() {
        return Ok(None);
    }
    match read_event(alloc, text) {
        Ok(written) => play_written(&written, at, player, writer),
        Err(NotRead::NotAnEvent) => {
            write_not_an_event(number, writer).map_err(PlayFault::Write)?;
            Ok(Some(Ending::NotAnEvent))
        }
        Err(NotRead::NoMemory) => Err(PlayFault::Memory),
    }
}
