//! The frames of a stream that comes in pieces.
//!
//! ```text
//! stream   AA 02 00 1A .. 26 23 AA 02 00 1A .. 26 23 AA 02 00
//! pieces   |---------|------------------------|-------------|
//! steps    More      Whole    More            Whole    More
//! held     4         26       11              26       3 bytes
//! ```
ghost use Rattle.std.specs.Prelude.{◌≡◌, ◌+◌, ◌-◌, ◌<◌, ◌≤◌, ◌++◌, ◌⊎◌, ℕ, List, [], length};
ghost use Rattle.std.specs.Prelude.{take, IfOk, OnErr, MatchOption};
ghost use Rattle.pdc_memory.specs.Asking.{WasRefused};
ghost use Rattle.pdc_frame.specs.Frame.{Fields, Fits, IsFrame, fields_of, spelling_of};
ghost use Rattle.pdc_frame.specs.Stream.{IsGoing, Shows, IsAt, IsBad, HasTaken, pending_of};
ghost use Rattle.pdc_frame.specs.Stream.{given_at};

use crate::fault::FrameFault;
use crate::frame::Frame;
use crate::held::HeldBytes;
use crate::limits::{MAX_SIZE, OVERHEAD, SIZE_PLACE, SYNC_BYTE};
use crate::reading::{fields_of_whole, is_sync, read_frame};
use crate::step::Step;
use pdc_words::read_word;
use std::alloc::{AllocError, Allocator, Global};
use std::marker::Model;

/// The number of bytes up to the end of FRAMESIZE.
const SIZE_END: usize = 4;

/// Finds the frames of a stream, in whatever pieces it comes.
#[derive(Drop)]
pub struct Framer<A: Allocator = Global> {
    held: HeldBytes<A>,
    step: Step,
}

impl<A: Allocator> Model for Framer<A> {
    ghost use Rattle.std.specs.Prelude.{◌≤◌};
    ghost use Rattle.pdc_frame.specs.declared.limits.TheConstants.{MAX_SIZE};
    ghost use Rattle.pdc_frame.specs.Stream.{Held, IsAt};

    ghost Value = { Held };

    ghost view = { λ f. record { bytes = f.held.items; step = f.step; room = f.held.capacity } };

    ghost invariant = { λ f. record {
      room : MAX_SIZE ≤ f.held.capacity;
      at : IsAt f.held.items
          f.step;
    } };
}

/// What SYNC and FRAMESIZE say so far.
fn header_fault(held: &[u8]) -> Option<FrameFault>
    requires some { 0 < length held.now }
    requires few { length held.now ≤ SIZE_END }
    requires before { IsGoing (take (length held.now - 1) held.now) }
    ensures { MatchOption result (IsGoing held.now) (λ fault. Shows held.now fault) }
{
    match held.len() {
        1 if held[0] != SYNC_BYTE => Some(FrameFault::BadSync),
        2 if !is_sync(held[0], held[1]) => Some(FrameFault::BadSync),
        SIZE_END if usize::from(read_word(held, SIZE_PLACE)) < OVERHEAD => Some(FrameFault::Short),
        _ => None,
    }
}

/// Takes bytes up to the end of FRAMESIZE.
fn take_header<A: Allocator>(held: &mut HeldBytes<A>, piece: &[u8]) -> (usize, Step)
    requires room { MAX_SIZE ≤ held.old.capacity }
    requires going { IsGoing held.old.items }
    ensures room { held.new.capacity ≡ held.old.capacity }
    ensures taken { result.0 ≤ length piece.now }
    ensures bytes { held.new.items ≡ held.old.items ++ take result.0 piece.now }
    ensures at { IsAt held.new.items result.1 }
    ensures more { result.1 ≡ Step.More →
        (result.0 ≡ length piece.now) ⊎ (SIZE_END ≤ length held.new.items) }
    ensures not_whole { result.1 ≡ Step.Whole → ⊥ }
    ensures some { length held.old.items < SIZE_END → 0 < length piece.now → 0 < result.0 }
{
    let mut taken = 0;
    while held.len() < SIZE_END && taken < piece.len() {
        held.push(piece[taken]);
        taken += 1;
        if let Some(fault) = header_fault(held.as_slice()) {
            return (taken, Step::Bad(fault));
        }
    }
    (taken, Step::More)
}

/// Takes bytes up to the end of the frame.
fn take_rest<A: Allocator>(held: &mut HeldBytes<A>, piece: &[u8]) -> (usize, Step)
    requires room { MAX_SIZE ≤ held.old.capacity }
    requires going { IsGoing held.old.items }
    requires header { SIZE_END ≤ length held.old.items }
    ensures room { held.new.capacity ≡ held.old.capacity }
    ensures taken { result.0 ≤ length piece.now }
    ensures bytes { held.new.items ≡ held.old.items ++ take result.0 piece.now }
    ensures at { IsAt held.new.items result.1 }
    ensures more { result.1 ≡ Step.More → result.0 ≡ length piece.now }
    ensures some { 0 < length piece.now → 0 < result.0 }
{
    let wanted = usize::from(read_word(held.as_slice(), SIZE_PLACE)) - held.len();
    if piece.len() < wanted {
        held.append(piece);
        return (piece.len(), Step::More);
    }
    held.append(&piece[..wanted]);
    match read_frame(held.as_slice()) {
        Ok(_) => (wanted, Step::Whole),
        Err(fault) => (wanted, Step::Bad(fault)),
    }
}

/// Takes bytes up to the end of a frame, of the piece, or the byte that shows a fault.
fn take_frame<A: Allocator>(held: &mut HeldBytes<A>, piece: &[u8]) -> (usize, Step)
    requires room { MAX_SIZE ≤ held.old.capacity }
    requires going { IsGoing held.old.items }
    ensures room { held.new.capacity ≡ held.old.capacity }
    ensures taken { result.0 ≤ length piece.now }
    ensures bytes { held.new.items ≡ held.old.items ++ take result.0 piece.now }
    ensures at { IsAt held.new.items result.1 }
    ensures more { result.1 ≡ Step.More → result.0 ≡ length piece.now }
    ensures some { 0 < length piece.now → 0 < result.0 }
{
    let (taken, step) = take_header(held, piece);
    if step != Step::More || held.len() < SIZE_END {
        return (taken, step);
    }
    let (more, step) = take_rest(held, &piece[taken..]);
    (taken + more, step)
}

/// The same behind an answer: after a whole frame the next one begins, and a fault stands.
fn take_next<A: Allocator>(held: &mut HeldBytes<A>, last: Step, piece: &[u8]) -> (usize, Step)
    requires room { MAX_SIZE ≤ held.old.capacity }
    requires at { IsAt held.old.items last }
    ensures room { held.new.capacity ≡ held.old.capacity }
    ensures taken { result.0 ≤ length piece.now }
    ensures bytes { held.new.items ≡ pending_of last held.old.items ++ take result.0 piece.now }
    ensures at { IsAt held.new.items result.1 }
    ensures more { result.1 ≡ Step.More → result.0 ≡ length piece.now }
    ensures some { (IsBad last → ⊥) → 0 < length piece.now → 0 < result.0 }
    ensures bad { IsBad last → (result.0 ≡ 0) × (result.1 ≡ last) }
{
    match last {
        Step::Bad(_) => return (0, last),
        Step::Whole => held.clear(),
        Step::More => {}
    }
    take_frame(held, piece)
}

impl<A: Allocator> Framer<A> {
    /// Reserves room for the longest frame, once.
    ///
    /// # Errors
    ///
    /// [`AllocError`] where there is no memory for it.
    pub fn new(alloc: A) -> Result<Framer<A>, AllocError>
        ensures bytes { IfOk result (λ framer. framer.bytes ≡ []) }
        ensures step { IfOk result (λ framer. framer.step ≡ Step.More) }
        ensures room { IfOk result (λ framer. framer.room ≡ MAX_SIZE) }
        ensures stream { IfOk result (λ framer. HasTaken [] [] framer) }
        ensures refused { OnErr result (WasRefused MAX_SIZE) }
    {
        Ok(Framer {
            held: HeldBytes::with_capacity(alloc, MAX_SIZE)?,
            step: Step::More,
        })
    }

    /// Takes bytes of the piece up to the end of a frame, of the piece, or the byte that shows a fault, and answers
    /// how many, and what the bytes since the end of the last frame are. It takes no memory. After [`Step::Bad`] it
    /// takes no byte and answers that fault again.
    pub fn feed(&mut self, piece: &[u8]) -> (usize, Step)
        ensures taken { result.0 ≤ length piece.now }
        ensures bytes { self.new.bytes ≡ pending_of self.old.step self.old.bytes ++
            take result.0 piece.now }
        ensures step { self.new.step ≡ result.1 }
        ensures room { self.new.room ≡ self.old.room }
        ensures at { IsAt self.new.bytes result.1 }
        // It stops for a frame, a fault or the end of the piece alone,
        ensures more { result.1 ≡ Step.More → result.0 ≡ length piece.now }
        // takes at least one byte of a piece that has one,
        ensures some { (IsBad self.old.step → ⊥) → 0 < length piece.now → 0 < result.0 }
        // and a fault stands. So over a whole stream the frames given are the stream's, in order.
        ensures bad { IsBad self.old.step → (result.0 ≡ 0) × (result.1 ≡ self.old.step) }
        ensures stream { (stream : List ℕ) (frames : List (List ℕ)) →
            HasTaken stream frames self.old
            → HasTaken (stream ++ take result.0 piece.now) (frames ++
            given_at result.1 self.new.bytes) self.new }
        // With nothing pending, a frame that was written is given at its last byte, whatever comes behind it.
        ensures written { (f : Fields) (rest : List ℕ) →
            pending_of self.old.step self.old.bytes ≡ [] → Fits f →
            piece.now ≡ spelling_of f ++ rest
            → (result.0 ≡ length (spelling_of f)) × (result.1 ≡ Step.Whole)
            × (self.new.bytes ≡ spelling_of f) }
    {
        let (taken, step) = take_next(&mut self.held, self.step, piece);
        self.step = step;
        (taken, step)
    }

    /// The fields of the frame, after [`Step::Whole`] and until the next feed. Its check word is not computed again.
    pub fn fields(&self) -> Frame<'_>
        requires { self.now.step ≡ Step.Whole }
        ensures { IsFrame self.now.bytes (fields_of result) }
    {
        fields_of_whole(self.held.as_slice())
    }

    /// The bytes since the end of the last frame; after [`Step::Whole`] and until the next feed, the frame.
    pub fn frame(&self) -> &[u8]
        ensures bytes { result.now ≡ self.now.bytes }
        ensures at { IsAt result.now self.now.step }
    {
        let _ = self.step;
        self.held.as_slice()
    }
}
