//! Room, threads and channels that are asked for.
ghost use Rattle.std.specs.Prelude.{◌≡◌, ◌+◌, ◌++◌, ◌∷◌, [], length, IfOk, OnErr, OnOk, false};
ghost use Rattle.std.specs.Prelude.{true, vec_len};
ghost use Rattle.crossbeam_channel.specs.Claims.{IsSeatAt, view};
ghost use Rattle.crossbeam_channel.specs.Ends.{receives_on, sends_on};
ghost use Rattle.pdc_hub.specs.pdc_memory.Asking.{WasRefused};
ghost use Rattle.pdc_pipe.specs.Pipe.{log};
ghost use Rattle.pdc_pipe.specs.Writing.{IsOpen, put_by};
ghost use Rattle.pdc_threads.specs.Wanted.{LackedRoom, WasDenied};

use pdc_hub::{make_room, with_room};
use pdc_pipe::{Ends, channel};
use std::alloc::{AllocError, Global};
use std::sync::Wait;
use std::thread::SpawnError;

/// A buffer of so many bytes.
///
/// # Errors
///
/// [`AllocError`] where a request for them was refused.
pub fn buffer(alloc: Global, count: usize) -> Result<Vec<u8>, AllocError>
    ensures refused { OnErr result (WasRefused count) }
{
    let mut bytes = with_room(alloc, count)?;
    for _ in 0..count {
        bytes.push_reserved(0);
    }
    Ok(bytes)
}

/// Puts an item behind those of a list.
///
/// # Errors
///
/// [`AllocError`] where a request for its place was refused; the list is as it was.
pub fn append<T: Drop>(items: &mut Vec<T>, item: T) -> Result<(), AllocError>
    ensures ok { OnOk result (items.new.items ≡ items.old.items ++ item ∷ []) }
    ensures len { OnOk result (vec_len items.new ≡ vec_len items.old + 1) }
    ensures err { OnErr result (items.new.items ≡ items.old.items) }
    ensures refused { OnErr result (WasRefused 1) }
{
    make_room(items, 1)?;
    items.push_reserved(item);
    Ok(())
}

/// The channel of a run, and the rows that go round.
///
/// # Errors
///
/// [`AllocError`] where the library of channels gives none, or a request for the memory of a row was refused.
#[tactic(auto, unfolding(crate::specs::Wanted::WasDenied))]
pub fn ring<R: Wait>(rt: &R, alloc: Global) -> Result<Ends, AllocError>
    ensures ends { IfOk result (λ ends. (receives_on ends.from ≡ sends_on ends.writer.to)
        × IsOpen ends.writer × (put_by ends.writer ≡ [])
        × (IsSeatAt (receives_on ends.from) ends.reader
        × (view ends.reader ≡ log false true false [] []))) }
    ensures lacked { OnErr result LackedRoom }
{
    let ends = match channel(alloc) {
        Ok(ends) => ends,
        Err(error) => return Err(error),
    };
    ends.back.fill(rt, alloc)?;
    Ok(ends)
}

/// The system was asked for a thread and gave none, as who has what it hands back for that shows.
#[tactic(auto, unfolding(crate::specs::Wanted::WasDenied))]
pub fn note_denied<F>(_refused: &SpawnError<F>)
    ensures { WasDenied }
{}
