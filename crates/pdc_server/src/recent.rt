//! The lock round what was sent last.
ghost use Rattle.std.specs.Prelude.{◌≡◌, ◌++◌, ℕ, List, length, OnErr, OnOk, IfOk};
ghost use Rattle.pdc_session.specs.pdc_memory.Asking.{ForSome, SomeWasRefused, WasRefused};
ghost use Rattle.pdc_session.specs.declared.recent.TheConstants.{KEPT_FRAMES};
ghost use Rattle.pdc_server.specs.Given.{IsGiven};
ghost use Rattle.pdc_server.specs.Remembering.{IsGivenOf, IsPushed, OfFound, OfLeft, laid_out};
ghost use Rattle.pdc_server.specs.Stamps.{first_stamp};
ghost use Rattle.pdc_server.specs.Stream.{IsData, IsLayout, stream_of};

use crate::naming::Naming;
use crate::place::Place;
use crate::remembered::Remembered;
use crate::stamp::Stamp;
use pdc_frame::{Buffer, StreamId};
use pdc_row::{Output, append_layout};
use std::alloc::{AllocError, Global};
use std::rt::Clock;
use std::sync::{Condvar, Mutex, Wait};
use std::time::Duration;

/// The last 256 data frames of a stream that were sent under its last layout, as many of those under the layout before, and its last layout
/// frame. Each call takes the lock once, and may wait for it; none holds it for longer than a copy of what is asked for.
#[derive(Drop)]
pub struct Recent<N: Naming> {
    remembered: Mutex<Remembered<N>>,
    /// Who waits for a frame is woken by it.
    woken: Condvar,
    id: StreamId,
    pub ghost id_is: { id.value ≡ N.stream.id },
}

/// The layout frame before the first adoption of a life with this start: the own section alone.
fn first_layout(alloc: Global, output: &Output, start: u32) -> Result<Vec<u8>, AllocError>
    ensures layout { IfOk result (λ layout. IsLayout (stream_of output.now) (first_stamp start)
        layout.items) }
    ensures refused { OnErr result SomeWasRefused }
{
    let mut layout = Vec::new(alloc);
    append_layout(output, start, 0, &[], 0, &mut layout)?;
    Ok(layout)
}

impl<N: Naming> Recent<N> {
    /// No data frame yet. The layout is the own section alone, as before the first adoption of a life with this start.
    ///
    /// # Errors
    ///
    /// [`AllocError`] where a request for the ring, or for the layout frame, was refused.
    pub fn new(alloc: Global, output: &Output, start: u32) -> Result<Recent<N>, AllocError>
        requires { N.stream ≡ stream_of output.now }
        ensures refused { OnErr result SomeWasRefused }
    {
        let layout = first_layout(alloc, output, start)?;
        Ok(Recent {
            remembered: Mutex::new(Remembered::new(alloc, Stamp { start, change: 0 }, layout)?),
            woken: Condvar::new(),
            id: output.id,
        })
    }

    /// The id of the stream.
    pub fn id(&self) -> StreamId
        ensures { result.value ≡ N.stream.id }
    {
        self.id
    }

    /// Keeps a data frame of this instant, of the layout with this stamp, if that layout is in force and the instant is above all before; the
    /// oldest of 256 goes. Whether the layout is in force.
    ///
    /// # Errors
    ///
    /// [`AllocError`] where a request for the frame's bytes was refused. Nothing is kept then.
    #[tactic(auto, unfolding(crate::specs::Remembering::WasFound, crate::specs::Remembering::WasLeft))]
    pub fn push<R: Wait>(
        &self,
        rt: &R,
        alloc: Global,
        stamp: Stamp,
        instant: u64,
        bytes: &[u8],
    ) -> Result<bool, AllocError>
        requires { ∥ IsData N.stream stamp instant bytes.now ∥₁ }
        ensures kept { IfOk result (λ is_kept. OfLeft
            (λ memory later. IsPushed is_kept memory stamp instant bytes.now later)) }
        ensures refused { OnErr result (WasRefused (length bytes.now)) }
    {
        let mut held = self.remembered.lock(rt);
        if !held.is_in_force(stamp) {
            return Ok(false);
        }
        held.push(alloc, instant, bytes)?;
        held.note(instant);
        self.woken.notify_all();
        Ok(true)
    }

    /// Waits until there is something to give one at this place, or no more is to be, and at most so long.
    pub fn wait_for_more<R: Wait + Clock>(&self, rt: &R, place: Place, most: Duration) {
        let held = self.remembered.lock(rt);
        let _woken = self
            .woken
            .wait_timeout_while(rt, held, most, |remembered| !remembered.wakes(place));
    }

    /// Appends what one at this place is given next, and answers where he stands then: the frames above what he got, of the layout in force
    /// if he has it; else those of the layout before, if he has that one and not all of them; else the frame of the layout in force. To one
    /// who has just asked for data none of the layout before are given.
    ///
    /// # Errors
    ///
    /// [`AllocError`] where `out` has no room for it, and its request for it was refused. `out` is unchanged then.
    #[tactic(auto, unfolding(crate::specs::Remembering::WasFound))]
    pub fn after<B: Buffer, R: Wait>(
        &self,
        rt: &R,
        place: Place,
        is_fresh: bool,
        out: &mut B,
    ) -> Result<Place, AllocError>
        ensures ok { IfOk result (λ now. IsGiven N.stream place (B.content out.old) now
            (B.content out.new)) }
        ensures given { IfOk result (λ now. OfFound
            (λ memory. IsGivenOf memory place is_fresh (B.content out.old) now
            (B.content out.new))) }
        ensures err { OnErr result (B.content out.new ≡ B.content out.old) }
        ensures refused { OnErr result (ForSome (B.refused out.new)) }
    {
        self.remembered.lock(rt).after(place, is_fresh, out)
    }

    /// Keeps the frame of the layout with this stamp, which is in force from now on, in place of the one before.
    ///
    /// # Errors
    ///
    /// [`AllocError`] where it is another layout than before, and a request for room for its frames was refused. Nothing is kept then.
    #[tactic(auto, unfolding(crate::specs::Remembering::WasFound, crate::specs::Remembering::WasLeft))]
    pub fn keep_layout<R: Wait>(
        &self,
        rt: &R,
        alloc: Global,
        stamp: Stamp,
        layout: Vec<u8>,
    ) -> Result<(), AllocError>
        requires { IsLayout N.stream stamp layout.items }
        ensures kept { OnOk result (OfLeft (λ memory later. later ≡
            laid_out memory stamp layout.items)) }
        ensures refused { OnErr result (WasRefused KEPT_FRAMES) }
    {
        self.remembered.lock(rt).keep_layout(alloc, stamp, layout)
    }

    /// Appends a copy of the layout frame that was kept last, and answers its stamp.
    ///
    /// # Errors
    ///
    /// [`AllocError`] where `out` has no room for it, and its request for it was refused. `out` is unchanged then.
    #[tactic(auto, unfolding(crate::specs::Remembering::WasFound))]
    pub fn layout<B: Buffer, R: Wait>(&self, rt: &R, out: &mut B) -> Result<Stamp, AllocError>
        ensures kept { IfOk result (λ stamp. OfFound (λ memory. (stamp ≡ memory.stamp)
            × (B.content out.new ≡ B.content out.old ++ memory.layout))) }
        ensures ok { IfOk result (λ stamp. (frame : List ℕ) × ∥ IsLayout N.stream stamp frame ∥₁
            × (B.content out.new ≡ B.content out.old ++ frame)) }
        ensures err { OnErr result (B.content out.new ≡ B.content out.old) }
        ensures refused { OnErr result (ForSome (B.refused out.new)) }
    {
        self.remembered.lock(rt).layout(out)
    }

    /// No more is to be kept.
    pub fn close<R: Wait>(&self, rt: &R) {
        self.remembered.lock(rt).closed = true;
        self.woken.notify_all();
    }

    /// Whether no more is to be kept.
    pub fn closed<R: Wait>(&self, rt: &R) -> bool {
        self.remembered.lock(rt).closed
    }
}
