//! A whole stream, cut into its frames.
ghost use Rattle.std.specs.Prelude.{◌≡◌, ◌≤◌, ◌++◌, ℕ, List, Option, length, take, map, flat_map};
ghost use Rattle.std.specs.Prelude.{IfOk, OnErr, MatchOption, None, [], ◌∷◌, OnOk};
ghost use Rattle.pdc_memory.specs.Asking.{SomeWasRefused};
ghost use Rattle.pdc_frame.specs.declared.fault.FrameFault.{FrameFault};
ghost use Rattle.pdc_frame.specs.Stream.{Splits, IsBad, GoesOn};

use crate::fault::FrameFault;
use crate::framer::Framer;
use crate::step::Step;
use pdc_memory::{copy_of, make_room};
use std::alloc::{AllocError, Allocator};

/// Keeps a copy of the frame behind the others.
fn keep<A: Allocator + Copy>(
    alloc: A,
    frame: &[u8],
    frames: &mut Vec<Vec<u8, A>, A>,
) -> Result<(), AllocError>
    ensures kept { OnOk result (map (λ f. f.items) frames.new.items ≡
        map (λ f. f.items) frames.old.items ++ frame.now ∷ []) }
    ensures refused { OnErr result SomeWasRefused }
{
    let copy = copy_of(alloc, frame)?;
    make_room(frames, 1)?;
    frames.push_reserved(copy);
    Ok(())
}

/// Adds the frames that end in this piece, up to a fault.
fn add_frames<A: Allocator + Copy>(
    alloc: A,
    framer: &mut Framer<A>,
    piece: &[u8],
    frames: &mut Vec<Vec<u8, A>, A>,
) -> Result<Option<FrameFault>, AllocError>
    requires { IsBad framer.old.step → ⊥ }
    ensures none { IfOk result (λ fault. fault ≡ None → (IsBad framer.new.step → ⊥)
        × GoesOn piece.now (map (λ f. f.items) frames.old.items) framer.old
        (map (λ f. f.items) frames.new.items) framer.new) }
    ensures some { IfOk result (λ fault. (why : FrameFault) → fault ≡ Some why →
        (framer.new.step ≡ Step.Bad why)
        × (n : ℕ) × GoesOn (take n piece.now) (map (λ f. f.items) frames.old.items) framer.old
        (map (λ f. f.items) frames.new.items) framer.new) }
    ensures refused { OnErr result SomeWasRefused }
{
    let mut at = 0;
    while at < piece.len() {
        let (taken, step) = framer.feed(&piece[at..]);
        at += taken;
        match step {
            Step::More => {}
            Step::Whole => keep(alloc, framer.frame(), frames)?,
            Step::Bad(fault) => return Ok(Some(fault)),
        }
    }
    Ok(None)
}

/// The whole frames of a stream that comes in these pieces, in order, up to a rest that is none, and the fault that
/// ends it if one does.
///
/// # Errors
///
/// [`AllocError`] where a request for a frame, or for a place of one, was refused.
pub fn frames_of<A: Allocator + Copy>(
    alloc: A,
    pieces: &[Vec<u8, A>],
) -> Result<(Vec<Vec<u8, A>, A>, Option<FrameFault>), AllocError>
    // The stream is these frames, and then a rest that is none.
    ensures split { IfOk result (λ found. (rest : List ℕ)
        × Splits (flat_map (λ piece. piece.items) pieces.now) (map (λ f. f.items) found.0.items)
        rest found.1) }
    // No other frames are, so it doesn't matter how the stream was cut into pieces.
    ensures only { IfOk result (λ found. (frames : List (List ℕ)) (rest : List ℕ)
        (fault : Option FrameFault)
        → Splits (flat_map (λ piece. piece.items) pieces.now) frames rest fault →
        (map (λ f. f.items) found.0.items ≡ frames) × (found.1 ≡ fault)) }
    ensures refused { OnErr result SomeWasRefused }
{
    let mut framer = Framer::new(alloc)?;
    let mut frames = Vec::new(alloc);
    for piece in pieces {
        if let Some(fault) = add_frames(alloc, &mut framer, piece, &mut frames)? {
            return Ok((frames, Some(fault)));
        }
    }
    Ok((frames, None))
}
