//! The run of a script over a reader and a writer.
ghost use Rattle.std.specs.Prelude.{◌≡◌, ◌+◌, ◌≤◌, ℕ, List, Option, IfOk, IsErrOf, Ok, Some};
ghost use Rattle.std.specs.Io.KnownBytes.{Consumes, IsAtEnd};
ghost use Rattle.pdc_history.specs.pdc_memory.Asking.{SomeWasRefused};
ghost use Rattle.pdc_history.specs.declared.event_fault.Fault.TheVariants.{NoMemory};
ghost use Rattle.pdc_play.specs.Counted.{reader_of, reads_of};
ghost use Rattle.pdc_play.specs.Run.{HasEnded, ReadsOn, Stands};
ghost use Rattle.pdc_play.specs.Script.{counted};
ghost use Rattle.pdc_play.specs.declared.ending.Ending.TheVariants.{Played, Refused};

use crate::counted::CountedReader;
use crate::ending::Ending;
use crate::fault::PlayFault;
use crate::piece::Piece;
use crate::player::Plays;
use crate::script::Script;
use std::alloc::Global;
use std::io::{ErrorKind, Read, Write};

/// The most reads of a run.
pub const MAX_READS: u32 = 1_000_000;

/// Reads once, and plays each line that what came ends, or the last one at the end of the input. A read that was interrupted brings no
/// byte.
fn play_piece<P: Plays, R: Read, W: Write>(
    script: &mut Script,
    piece: &mut Piece,
    player: &mut P,
    reader: &mut CountedReader<R>,
    writer: &mut W,
) -> Result<Option<Ending>, PlayFault>
    ensures comes { (first : P) (start : Option (List ℕ)) (read : List ℕ) →
        Stands P.replies P.frames first start read script.old.begun.items script.old.lines
        script.old.events player.old (W.contents writer.old)
        → ReadsOn P.replies P.refuses P.frames first start read script.new.begun.items
        script.new.lines script.new.events player.new
        (R.remaining (reader_of reader.old)) (R.remaining (reader_of reader.new))
        (W.contents writer.new) result }
    ensures reads { reads_of reader.new ≡ counted (reads_of reader.old + 1) }
    ensures long { IsErrOf result PlayFault.TooLong → ⊥ }
    ensures refused { result ≡ Ok (Some (Refused NoMemory)) → P.wants }
    ensures denied { IsErrOf result PlayFault.Memory → SomeWasRefused }
{
    match piece.fill(reader) {
        Ok(0) => Ok(Some(script.end(player, writer)?)),
        Ok(len) => script.feed(&piece.bytes[..len], player, writer),
        Err(error) if error.kind() == ErrorKind::Interrupted => Ok(None),
        Err(error) => Err(PlayFault::Read(error)),
    }
}

/// Plays a script line by line, and prints what each event is replied; what was printed is flushed before each read, so that the script
/// can come from a live source. The run ends with the first line that is no event, and with the first event that is refused: what
/// stands before it was played and printed.
///
/// # Errors
///
/// The first failure of the reader or the writer, an input that goes on after [`MAX_READS`] reads, or want of memory: a request for
/// some was refused.
pub fn run_script<P: Plays, R: Read, W: Write>(
    alloc: Global,
    player: &mut P,
    reader: &mut CountedReader<R>,
    writer: &mut W,
) -> Result<Ending, PlayFault>
    ensures ends { IfOk result (λ end. (read : List ℕ)
        × Consumes (R.remaining (reader_of reader.old)) (R.remaining (reader_of reader.new)) read
        × HasEnded P.replies P.refuses P.frames player.old (W.contents writer.old)
        (IsAtEnd (R.remaining (reader_of reader.new))) read end
        player.new (W.contents writer.new)) }
    ensures whole { result ≡ Ok Played → IsAtEnd (R.remaining (reader_of reader.new)) }
    // The input is read so often at most, and is too long only where it was.
    ensures reads { reads_of reader.new ≤ reads_of reader.old + MAX_READS }
    ensures long { IsErrOf result PlayFault.TooLong →
        counted (reads_of reader.old + MAX_READS) ≤ reads_of reader.new }
    ensures refused { result ≡ Ok (Refused NoMemory) → P.wants }
    ensures denied { IsErrOf result PlayFault.Memory → SomeWasRefused }
{
    let mut script = Script::new(alloc);
    let mut piece = Piece::new(alloc)?;
    for _ in 0..MAX_READS {
        let comes = play_piece(&mut script, &mut piece, player, reader, writer)?;
        writer.flush().map_err(PlayFault::Write)?;
        if let Some(ending) = comes {
            return Ok(ending);
        }
    }
    Err(PlayFault::TooLong)
}
