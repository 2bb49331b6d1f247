//! What is held under the lock.
ghost use Rattle.std.specs.Prelude.{◌≡◌, ◌++◌, ℕ, List, [], length, true, false, OnErr, OnOk, IfOk};
ghost use Rattle.pdc_server.specs.Given.{IsGiven};
ghost use Rattle.pdc_server.specs.Places.{Takes, takes};
ghost use Rattle.pdc_server.specs.Stream.{AreData, IsData, IsLayout};
ghost use Rattle.pdc_server.specs.declared.place.Seen.TheVariants.{Layout};
ghost use Rattle.pdc_session.specs.pdc_memory.Asking.{ForSome, WasRefused};
ghost use Rattle.pdc_session.specs.declared.recent.TheConstants.{KEPT_FRAMES};
ghost use Rattle.pdc_session.specs.Recent.{above, bytes_of, greatest_of, is_old, pushed};

use crate::naming::Naming;
use crate::place::{Place, Seen};
use crate::stamp::{Stamp, is_stamp};
use pdc_frame::Buffer;
use pdc_session::Frames;
use std::alloc::{AllocError, Global};
use std::marker::PhantomData;
use std::mem;

/// The last data frames of the layout in force, that layout's frame, the last data frames of the layout before it, and whether more are to
/// come.
#[derive(Drop)]
pub struct Remembered<N: Naming> {
    frames: Frames,
    /// The greatest instant of those, at first 0.
    last: u64,
    /// Of the layout in force.
    stamp: Stamp,
    layout: Vec<u8>,
    older: Frames,
    /// The greatest instant of those, at first 0.
    older_last: u64,
    older_stamp: Stamp,
    pub closed: bool,
    of: PhantomData<N>,
    pub ghost are_data: { ∥ AreData N.stream stamp frames.frames ∥₁ },
    pub ghost is_layout: { ∥ IsLayout N.stream stamp layout.items ∥₁ },
    pub ghost were_data: { ∥ AreData N.stream older_stamp older.frames ∥₁ },
}

impl<N: Naming> Remembered<N> {
    ghost use Rattle.pdc_server.specs.Remembering.{IsGivenOf, kept_with, laid_out, memory_of};
    ghost use Rattle.pdc_server.specs.Remembering.{no_frames};
    ghost use Rattle.pdc_server.specs.Stamps.{is_stamp};

    /// No data frame yet, and this layout frame.
    pub fn new(alloc: Global, stamp: Stamp, layout: Vec<u8>) -> Result<Remembered<N>, AllocError>
        requires { ∥ IsLayout N.stream stamp layout.items ∥₁ }
        ensures refused { OnErr result (WasRefused KEPT_FRAMES) }
        ensures kept { IfOk result (λ remembered. (remembered.frames.frames ≡ [])
            × (remembered.stamp ≡ stamp) × (remembered.layout ≡ layout)
            × (remembered.closed ≡ false)) }
    {
        Ok(Remembered {
            frames: Frames::new(alloc)?,
            last: 0,
            stamp,
            layout,
            older: Frames::new(alloc)?,
            older_last: 0,
            older_stamp: stamp,
            closed: false,
            of: PhantomData,
        })
    }

    /// Whether the layout with this stamp is in force.
    pub fn is_in_force(&self, stamp: Stamp) -> bool
        ensures same { result ≡ true → self.now.stamp ≡ stamp }
        ensures is { result ≡ is_stamp self.now.stamp stamp }
    {
        is_stamp(self.stamp, stamp)
    }

    /// Keeps a data frame of this instant, which is of the layout in force, as `pdc_session`'s `Frames` does.
    pub fn push(&mut self, alloc: Global, instant: u64, bytes: &[u8]) -> Result<(), AllocError>
        requires { ∥ IsData N.stream self.old.stamp instant bytes.now ∥₁ }
        ensures kept { OnOk result (memory_of self.new
            ≡ record (memory_of self.old) { frames = kept_with self.old.frames instant bytes.now }) }
        ensures later { is_old self.old.frames.greatest instant ≡ false
            → OnOk result (self.new.frames ≡ pushed self.old.frames instant bytes.now) }
        ensures old { is_old self.old.frames.greatest instant ≡ true →
            OnOk result (self.new.frames ≡ self.old.frames) }
        ensures err { OnErr result (self.new ≡ self.old) }
        ensures refused { OnErr result (WasRefused (length bytes.now)) }
    {
        self.frames.push(alloc, instant, bytes)
    }

    /// Notes that a frame of this instant is kept.
    pub fn note(&mut self, instant: u64)
        ensures { memory_of self.new ≡ memory_of self.old }
    {
        self.last = self.last.max(instant);
    }

    /// Whether one at this place is to be woken: there is something to give him, or no more is to be.
    pub fn wakes(&self, place: Place) -> bool {
        self.closed || !self.takes(place) || place.got < self.last
    }

    /// Whether one at this place may be given data frames of the layout in force next.
    fn takes(&self, place: Place) -> bool
        ensures bool { result ≡ takes place.seen self.now.stamp }
        ensures fits { result ≡ true → Takes place.seen self.now.stamp }
    {
        match place.seen {
            Seen::Nothing => true,
            Seen::Layout(stamp) => is_stamp(stamp, self.stamp),
            Seen::Unsure => false,
        }
    }

    /// Whether one at this place is still to be given data frames of the layout before.
    fn lags(&self, place: Place) -> bool
        ensures { result ≡ true → Takes place.seen self.now.older_stamp }
    {
        match place.seen {
            Seen::Layout(stamp) => {
                is_stamp(stamp, self.older_stamp) && place.got < self.older_last
            }
            _ => false,
        }
    }

    /// Appends the frames above what one at this place got, and answers where he stands then.
    fn give<B: Buffer>(&self, place: Place, out: &mut B) -> Result<Place, AllocError>
        requires { Takes place.seen self.now.stamp }
        ensures ok { IfOk result (λ now. IsGiven N.stream place (B.content out.old) now
            (B.content out.new)) }
        ensures bytes { OnOk result (B.content out.new ≡ B.content out.old ++
            bytes_of (above place.got self.now.frames.frames)) }
        ensures greatest { IfOk result (λ now. now.got ≡
            greatest_of place.got (above place.got self.now.frames.frames)) }
        ensures seen { IfOk result (λ now. now.seen ≡ Layout self.now.stamp) }
        ensures err { OnErr result (B.content out.new ≡ B.content out.old) }
        ensures refused { OnErr result (ForSome (B.refused out.new)) }
    {
        let got = self.frames.after(place.got, out)?;
        Ok(Place {
            got,
            seen: Seen::Layout(self.stamp),
        })
    }

    /// The same of the frames of the layout before.
    fn give_older<B: Buffer>(&self, place: Place, out: &mut B) -> Result<Place, AllocError>
        requires { Takes place.seen self.now.older_stamp }
        ensures bytes { OnOk result (B.content out.new ≡ B.content out.old ++
            bytes_of (above place.got self.now.older.frames)) }
        ensures greatest { IfOk result (λ now. now.got ≡
            greatest_of place.got (above place.got self.now.older.frames)) }
        ensures seen { IfOk result (λ now. now.seen ≡ Layout self.now.older_stamp) }
        ensures ok { IfOk result (λ now. IsGiven N.stream place (B.content out.old) now
            (B.content out.new)) }
        ensures err { OnErr result (B.content out.new ≡ B.content out.old) }
        ensures refused { OnErr result (ForSome (B.refused out.new)) }
    {
        let got = self.older.after(place.got, out)?;
        Ok(Place {
            got,
            seen: Seen::Layout(self.older_stamp),
        })
    }

    /// Appends the layout frame, and answers where one stands then who stood here.
    fn tell_layout<B: Buffer>(&self, place: Place, out: &mut B) -> Result<Place, AllocError>
        ensures ok { IfOk result (λ now. IsGiven N.stream place (B.content out.old) now
            (B.content out.new)) }
        ensures bytes { OnOk result (B.content out.new ≡ B.content out.old ++
            self.now.layout.items) }
        ensures got { IfOk result (λ now. now.got ≡ place.got) }
        ensures seen { IfOk result (λ now. now.seen ≡ Layout self.now.stamp) }
        ensures err { OnErr result (B.content out.new ≡ B.content out.old) }
        ensures refused { OnErr result (B.refused out.new (length self.now.layout.items)) }
    {
        self.layout(out)?;
        Ok(Place {
            got: place.got,
            seen: Seen::Layout(self.stamp),
        })
    }

    /// Appends what one at this place is given next, and answers where he stands then: the frames above what he got, of the layout in force
    /// if he has it; else those of the layout before, if he has that one and not all of them; else the frame of the layout in force. To one
    /// who has just asked for data none of the layout before are given.
    pub fn after<B: Buffer>(
        &self,
        place: Place,
        is_fresh: bool,
        out: &mut B,
    ) -> Result<Place, AllocError>
        ensures ok { IfOk result (λ now. IsGiven N.stream place (B.content out.old) now
            (B.content out.new)) }
        ensures given { IfOk result (λ now. IsGivenOf (memory_of self.now) place is_fresh
            (B.content out.old) now (B.content out.new)) }
        ensures all { takes place.seen self.now.stamp ≡ true
            → OnOk result (B.content out.new ≡ B.content out.old
            ++ bytes_of (above place.got self.now.frames.frames)) }
        ensures fresh { is_fresh ≡ true → IfOk result (λ now. now.seen ≡ Layout self.now.stamp) }
        ensures err { OnErr result (B.content out.new ≡ B.content out.old) }
        ensures refused { OnErr result (ForSome (B.refused out.new)) }
    {
        if self.takes(place) {
            return self.give(place, out);
        }
        if !is_fresh && self.lags(place) {
            return self.give_older(place, out);
        }
        self.tell_layout(place, out)
    }

    /// Keeps the frame of the layout in force, in place of the one before.
    fn repeat_layout(&mut self, layout: Vec<u8>)
        requires { ∥ IsLayout N.stream self.old.stamp layout.items ∥₁ }
        ensures { (self.new.frames ≡ self.old.frames) × (self.new.stamp ≡ self.old.stamp)
            × (self.new.layout ≡ layout) × (self.new.closed ≡ self.old.closed)
            × (self.new.older ≡ self.old.older) × (self.new.older_stamp ≡ self.old.older_stamp) }
    {
        self.layout = layout;
    }

    /// The layout with this frame is in force from now on: no frame of it is kept yet.
    fn change_layout(&mut self, none: Frames, stamp: Stamp, layout: Vec<u8>)
        requires layout { ∥ IsLayout N.stream stamp layout.items ∥₁ }
        requires none { none ≡ no_frames }
        ensures { (self.new.frames ≡ none) × (self.new.older ≡ self.old.frames)
            × (self.new.older_stamp ≡ self.old.stamp) × (self.new.stamp ≡ stamp)
            × (self.new.layout ≡ layout)
            × (self.new.closed ≡ self.old.closed) }
    {
        self.older = mem::replace(&mut self.frames, none);
        self.older_last = self.last;
        self.last = 0;
        self.older_stamp = self.stamp;
        self.stamp = stamp;
        self.layout = layout;
    }

    /// Keeps the frame of the layout with this stamp, which is in force from now on.
    ///
    /// # Errors
    ///
    /// [`AllocError`] where it is another layout than before, and there is no memory for its frames. Nothing is kept then.
    pub fn keep_layout(
        &mut self,
        alloc: Global,
        stamp: Stamp,
        layout: Vec<u8>,
    ) -> Result<(), AllocError>
        requires { ∥ IsLayout N.stream stamp layout.items ∥₁ }
        ensures ok { OnOk result ((self.new.stamp ≡ stamp) × (self.new.layout ≡ layout)) }
        ensures laid { OnOk result (memory_of self.new ≡
            laid_out (memory_of self.old) stamp layout.items) }
        ensures err { OnErr result (self.new ≡ self.old) }
        ensures refused { OnErr result (WasRefused KEPT_FRAMES) }
    {
        if self.is_in_force(stamp) {
            self.repeat_layout(layout);
            return Ok(());
        }
        let none = Frames::new(alloc)?;
        self.change_layout(none, stamp, layout);
        Ok(())
    }

    /// Appends the layout frame, and answers its stamp.
    pub fn layout<B: Buffer>(&self, out: &mut B) -> Result<Stamp, AllocError>
        ensures frame { IfOk result (λ stamp. (frame : List ℕ) × ∥ IsLayout N.stream stamp frame ∥₁
            × (B.content out.new ≡ B.content out.old ++ frame)) }
        ensures ok { OnOk result (B.content out.new ≡ B.content out.old ++ self.now.layout.items) }
        ensures stamp { IfOk result (λ stamp. stamp ≡ self.now.stamp) }
        ensures err { OnErr result (B.content out.new ≡ B.content out.old) }
        ensures refused { OnErr result (B.refused out.new (length self.now.layout.items)) }
    {
        out.make_room(self.layout.len())?;
        out.append_bytes(&self.layout);
        Ok(self.stamp)
    }
}
