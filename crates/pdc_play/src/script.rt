//! A script, taken in pieces.
ghost use Rattle.std.specs.Prelude.{◌≡◌, ◌++◌, ◌∷◌, [], ℕ, List, Option, IfOk, IsErrOf, Ok, Some};
ghost use Rattle.std.specs.Str.Lines.{strip_carriage_return};
ghost use Rattle.pdc_history.specs.pdc_memory.Asking.{SomeWasRefused};
ghost use Rattle.pdc_history.specs.declared.event_fault.Fault.TheVariants.{NoMemory};
ghost use Rattle.pdc_play.specs.Run.{Comes, HasEnded, HasEndedEarly, Stands};
ghost use Rattle.pdc_play.specs.Script.{events_of};
ghost use Rattle.pdc_play.specs.declared.ending.Ending.TheVariants.{Refused};

use crate::ending::Ending;
use crate::fault::PlayFault;
use crate::player::Plays;
use crate::telling::play_text;
use pdc_history::make_room;
use std::alloc::Global;
use std::io::Write;

/// What is kept from one piece to the next.
#[derive(Drop)]
pub struct Script {
    alloc: Global,
    /// What was read of the next line.
    begun: Vec<u8>,
    /// The number of lines before it; it stays at its greatest value.
    lines: u64,
    /// The number of events among them.
    events: u64,
}

/// The line without the CR at its end.
fn without_return(line: &[u8]) -> &[u8]
    ensures { result.now ≡ strip_carriage_return line.now }
{
    if line.last() == Some(&b'\r') {
        return &line[..line.len() - 1];
    }
    line
}

/// How many events a played text is.
fn events_of_text(text: &[u8]) -> u64
    ensures { result ≡ events_of text.now }
{
    if text.is_empty() { 0 } else { 1 }
}

impl Script {
    /// With no byte read.
    pub fn new(alloc: Global) -> Script
        ensures begun { result.begun.items ≡ [] }
        ensures lines { result.lines ≡ 0 }
        ensures events { result.events ≡ 0 }
    {
        Script {
            alloc,
            begun: Vec::new(alloc),
            lines: 0,
            events: 0,
        }
    }

    /// Plays the line that LF ends.
    fn end_line<P: Plays, W: Write>(
        &mut self,
        player: &mut P,
        writer: &mut W,
    ) -> Result<Option<Ending>, PlayFault>
        ensures comes { (first : P) (start : Option (List ℕ)) (read : List ℕ) →
            Stands P.replies P.frames first start read self.old.begun.items self.old.lines
            self.old.events player.old (W.contents writer.old)
            → Comes (Stands P.replies P.frames first start (read ++ 10 ∷
            []) self.new.begun.items self.new.lines self.new.events player.new
            (W.contents writer.new))
            (λ end. (more : List ℕ) →
            HasEndedEarly P.replies P.refuses P.frames first start (read ++ 10 ∷
            more) end player.new (W.contents writer.new)) result }
        ensures refused { result ≡ Ok (Some (Refused NoMemory)) → P.wants }
        ensures denied { IsErrOf result PlayFault.Memory → SomeWasRefused }
        ensures long { IsErrOf result PlayFault.TooLong → ⊥ }
    {
        let text = without_return(&self.begun);
        let lines = self.lines.saturating_add(1);
        let at = self.events.saturating_add(1);
        let events = self.events.saturating_add(events_of_text(text));
        if let Some(ending) = play_text(self.alloc, text, lines, at, player, writer)? {
            return Ok(Some(ending));
        }
        self.begun.clear();
        self.lines = lines;
        self.events = events;
        Ok(None)
    }

    /// Takes a byte.
    fn take<P: Plays, W: Write>(
        &mut self,
        byte: u8,
        player: &mut P,
        writer: &mut W,
    ) -> Result<Option<Ending>, PlayFault>
        ensures comes { (first : P) (start : Option (List ℕ)) (read : List ℕ) →
            Stands P.replies P.frames first start read self.old.begun.items self.old.lines
            self.old.events player.old (W.contents writer.old)
            → Comes (Stands P.replies P.frames first start (read ++ byte ∷
            []) self.new.begun.items self.new.lines self.new.events player.new
            (W.contents writer.new))
            (λ end. (more : List ℕ) →
            HasEndedEarly P.replies P.refuses P.frames first start (read ++ byte ∷
            more) end player.new (W.contents writer.new)) result }
        ensures refused { result ≡ Ok (Some (Refused NoMemory)) → P.wants }
        ensures denied { IsErrOf result PlayFault.Memory → SomeWasRefused }
        ensures long { IsErrOf result PlayFault.TooLong → ⊥ }
    {
        if byte == b'\n' {
            return self.end_line(player, writer);
        }
        make_room(&mut self.begun, 1)?;
        self.begun.push_reserved(byte);
        Ok(None)
    }

    /// Takes what was read, and plays each line that it ends.
    pub fn feed<P: Plays, W: Write>(
        &mut self,
        piece: &[u8],
        player: &mut P,
        writer: &mut W,
    ) -> Result<Option<Ending>, PlayFault>
        ensures comes { (first : P) (start : Option (List ℕ)) (read : List ℕ) →
            Stands P.replies P.frames first start read self.old.begun.items self.old.lines
            self.old.events player.old (W.contents writer.old)
            → Comes (Stands P.replies P.frames first start (read ++
            piece.now) self.new.begun.items self.new.lines self.new.events player.new
            (W.contents writer.new))
            (λ end. HasEndedEarly P.replies P.refuses P.frames first start (read ++
            piece.now) end player.new (W.contents writer.new)) result }
        ensures refused { result ≡ Ok (Some (Refused NoMemory)) → P.wants }
        ensures denied { IsErrOf result PlayFault.Memory → SomeWasRefused }
        ensures long { IsErrOf result PlayFault.TooLong → ⊥ }
    {
        for byte in piece {
            if let Some(ending) = self.take(*byte, player, writer)? {
                return Ok(Some(ending));
            }
        }
        Ok(None)
    }

    /// Plays the last line, which the end of the input ends.
    pub fn end<P: Plays, W: Write>(
        &mut self,
        player: &mut P,
        writer: &mut W,
    ) -> Result<Ending, PlayFault>
        ensures comes { (first : P) (start : Option (List ℕ)) (read : List ℕ) →
            Stands P.replies P.frames first start read self.old.begun.items self.old.lines
            self.old.events player.old (W.contents writer.old)
            → IfOk result (λ end. HasEnded P.replies P.refuses P.frames first start (Unit {0}) read
            end player.new (W.contents writer.new)) }
        ensures refused { result ≡ Ok (Refused NoMemory) → P.wants }
        ensures denied { IsErrOf result PlayFault.Memory → SomeWasRefused }
        ensures long { IsErrOf result PlayFault.TooLong → ⊥ }
    {
        let lines = self.lines.saturating_add(1);
        let at = self.events.saturating_add(1);
        let ending = play_text(self.alloc, &self.begun, lines, at, player, writer)?;
        Ok(ending.unwrap_or(Ending::Played))
    }
}
