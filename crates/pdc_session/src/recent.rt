//! The frames that were sent last.
ghost use Rattle.std.specs.Prelude.{◌≡◌, ◌⊎◌, ◌+◌, ◌<◌, ◌≤◌, ◌++◌, ℕ, [], ◌∷◌, length, map, true};
ghost use Rattle.std.specs.Prelude.{false, None, IfOk, IsOk, OnOk, OnErr};
ghost use Rattle.pdc_memory.specs.Asking.{WasRefused};
ghost use Rattle.pdc_session.specs.Recent.{AreRising, above, bytes_of, frame_of, greatest_of};
ghost use Rattle.pdc_session.specs.Recent.{is_old, last_256, pushed};

use pdc_frame::Buffer;
use pdc_memory::{Held, HeldQueue};
use std::alloc::{AllocError, Allocator, Global};
use std::marker::Model;

/// How many frames are kept.
pub const KEPT_FRAMES: usize = 256;

/// A frame that was sent, and its instant.
#[derive(Drop)]
struct SentFrame<A: Allocator> {
    instant: u64,
    bytes: Held<u8, A>,
}

/// The last 256 frames pushed, in the order of their instants.
#[derive(Drop)]
pub struct Frames<A: Allocator = Global> {
    ring: HeldQueue<SentFrame<A>, A>,
    greatest: Option<u64>,
}

impl<A: Allocator> Model for Frames<A> {
    ghost use Rattle.std.specs.Prelude.{◌≡◌, ◌≤◌, length, map};
    ghost use Rattle.pdc_session.specs.Recent.{AreCovered, AreRising, RecentView, frame_of};
    ghost use Rattle.pdc_session.specs.declared.recent.TheConstants.{KEPT_FRAMES};

    ghost Value = { RecentView };

    ghost view = { λ f. record { frames = map frame_of f.ring.items; greatest = f.greatest } };

    ghost invariant = { λ f. record {
      room : f.ring.capacity ≡ KEPT_FRAMES;
      rising : AreRising (map frame_of f.ring.items);
      covered : AreCovered f.greatest (map frame_of f.ring.items);
      few : length (map frame_of f.ring.items) ≤ KEPT_FRAMES;
    } };
}

/// How many bytes the frames above the instant have; none where a `usize` cannot tell.
fn len_above<A: Allocator>(frames: &HeldQueue<SentFrame<A>, A>, instant: u64) -> Option<usize>
    ensures some { (n : ℕ) → result ≡ Some n →
        n ≡ length (bytes_of (above instant (map frame_of frames.now.items))) }
    ensures none { result ≡ None → usize.MAX < length
        (bytes_of (above instant (map frame_of frames.now.items))) }
{
    let mut wanted: usize = 0;
    for place in 0..frames.len() {
        let frame = frames.item(place);
        if instant < frame.instant {
            wanted = wanted.checked_add(frame.bytes.len())?;
        }
    }
    Some(wanted)
}

/// Appends the frames above the instant, for which there is room, and answers the greatest of their instants and this one.
fn append_above<B: Buffer, A: Allocator>(
    frames: &HeldQueue<SentFrame<A>, A>,
    instant: u64,
    out: &mut B,
) -> u64
    requires { length (B.content out.old) +
        length (bytes_of (above instant (map frame_of frames.now.items))) ≤ B.capacity out.old }
    ensures bytes { B.content out.new ≡ B.content out.old ++
        bytes_of (above instant (map frame_of frames.now.items)) }
    ensures in_place { B.capacity out.new ≡ B.capacity out.old }
    ensures greatest { result ≡ greatest_of instant (above instant (map frame_of frames.now.items)) }
{
    let mut greatest = instant;
    for place in 0..frames.len() {
        let frame = frames.item(place);
        if instant < frame.instant {
            out.append_bytes(frame.bytes.as_slice());
            greatest = greatest.max(frame.instant);
        }
    }
    greatest
}

/// Keeps a frame behind the others; the oldest of 256 goes.
fn keep_last<A: Allocator>(frames: &mut HeldQueue<SentFrame<A>, A>, frame: SentFrame<A>)
    requires { frames.old.capacity ≡ KEPT_FRAMES }
    ensures items { map frame_of frames.new.items ≡
        last_256 (map frame_of frames.old.items ++ frame_of frame ∷ []) }
    ensures room { frames.new.capacity ≡ KEPT_FRAMES }
{
    if frames.len() >= KEPT_FRAMES {
        frames.pop_front();
    }
    frames.push_back(frame);
}

impl<A: Allocator> Frames<A> {
    /// No frame yet.
    ///
    /// # Errors
    ///
    /// [`AllocError`] where a request for room for them was refused.
    pub fn new(alloc: A) -> Result<Frames<A>, AllocError>
        ensures frames { IfOk result (λ frames. frames ≡ record { frames = []; greatest = None }) }
        ensures refused { OnErr result (WasRefused KEPT_FRAMES) }
    {
        Ok(Frames {
            ring: HeldQueue::with_capacity(alloc, KEPT_FRAMES)?,
            greatest: None,
        })
    }

    /// Keeps a frame whose instant is above the greatest one, and the first of any instant; the oldest of 256 goes. A frame at or below
    /// the greatest changes nothing.
    ///
    /// # Errors
    ///
    /// [`AllocError`] where a request for the frame's bytes was refused. Nothing is changed then.
    pub fn push(&mut self, alloc: A, instant: u64, bytes: &[u8]) -> Result<(), AllocError>
        ensures later { is_old self.old.greatest instant ≡ false →
            OnOk result (self.new ≡ pushed self.old instant bytes.now) }
        ensures old { is_old self.old.greatest instant ≡ true → OnOk result (self.new ≡ self.old) }
        ensures err { OnErr result (self.new ≡ self.old) }
        ensures new { OnErr result (is_old self.old.greatest instant ≡ false) }
        ensures refused { OnErr result (WasRefused (length bytes.now)) }
    {
        if self.is_old(instant) {
            return Ok(());
        }
        let bytes = Held::copy_of(alloc, bytes)?;
        keep_last(&mut self.ring, SentFrame { instant, bytes });
        self.greatest = Some(instant);
        Ok(())
    }

    /// Appends, in order, the frames whose instant is above the given one, and answers the greatest of their instants; the given one
    /// where there is none.
    ///
    /// # Errors
    ///
    /// [`AllocError`] where `out` has no room for them, and its request for it was refused; where a `usize` cannot tell how many bytes they
    /// have, its request for as many as it can tell. `out` is unchanged then.
    pub fn after<B: Buffer>(&self, instant: u64, out: &mut B) -> Result<u64, AllocError>
        ensures bytes { OnOk result (B.content out.new ≡ B.content out.old ++
            bytes_of (above instant self.now.frames)) }
        ensures greatest { IfOk result (λ greatest. greatest ≡
            greatest_of instant (above instant self.now.frames)) }
        ensures rising { AreRising (above instant self.now.frames) }
        ensures few { length self.now.frames ≤ KEPT_FRAMES }
        ensures err { OnErr result (B.content out.new ≡ B.content out.old) }
        ensures room { length (B.content out.old) +
            length (bytes_of (above instant self.now.frames)) ≤ B.capacity out.old
            → length (bytes_of (above instant self.now.frames)) ≤ usize.MAX → IsOk result }
        ensures in_place { length (B.content out.old) +
            length (bytes_of (above instant self.now.frames)) ≤ B.capacity out.old →
            B.capacity out.new ≡ B.capacity out.old }
        ensures refused { OnErr result (B.refused out.new
            (length (bytes_of (above instant self.now.frames)))
            ⊎ ((usize.MAX < length (bytes_of (above instant self.now.frames)))
            × (B.refused out.new usize.MAX ⊎ (usize.MAX ≤ B.capacity out.new)))) }
    {
        let Some(wanted) = len_above(&self.ring, instant) else {
            out.make_room(usize::MAX)?;
            return Err(AllocError);
        };
        out.make_room(wanted)?;
        Ok(append_above(&self.ring, instant, out))
    }

    /// Whether the instant is not above the greatest one.
    fn is_old(&self, instant: u64) -> bool
        ensures { result ≡ is_old self.now.greatest instant }
    {
        match self.greatest {
            Some(greatest) => instant <= greatest,
            None => false,
        }
    }
}
