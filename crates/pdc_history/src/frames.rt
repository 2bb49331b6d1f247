//! Frames one behind another.
ghost use Rattle.std.specs.Prelude.{◌≡◌, ◌<◌, ◌≤◌, ◌++◌, ◌∷◌, [], Some, length, OnErr, OnOk};
ghost use Rattle.std.specs.List.{slice_get};
ghost use Rattle.pdc_memory.specs.Asking.{SomeWasRefused};

use pdc_memory::make_room;
use std::alloc::{AllocError, Global};
use std::marker::Model;

/// Where a frame lies among the bytes.
#[derive(Clone, Copy, Debug)]
struct Place {
    start: usize,
    end: usize,
}

/// A list of frames, whose bytes lie one behind another.
#[derive(Drop)]
pub(crate) struct Frames {
    bytes: Vec<u8>,
    places: Vec<Place>,
}

impl Model for Frames {
    ghost use Rattle.std.specs.Prelude.{◌-◌, length, vec_capacity, vec_len};
    ghost use Rattle.std.specs.List.{All};
    ghost use Rattle.pdc_history.specs.SentFrames.{FramesView, IsWithin, frames_in};

    ghost Value = { FramesView };

    ghost view = { λ f. record {
      frames = frames_in f.bytes.items f.places.items;
      places = vec_capacity f.places - vec_len f.places;
      room = vec_capacity f.bytes - vec_len f.bytes;
    } };

    ghost invariant = { λ f. All (IsWithin (length f.bytes.items)) f.places.items };
}

impl Frames {
    /// No frame.
    pub fn new(alloc: Global) -> Frames
        ensures { result.frames ≡ [] }
    {
        Frames {
            bytes: Vec::new(alloc),
            places: Vec::new(alloc),
        }
    }

    /// How many there are.
    pub fn len(&self) -> usize
        ensures { result ≡ length self.now.frames }
    {
        self.places.len()
    }

    /// The frame with this number.
    pub fn at(&self, number: usize) -> &[u8]
        requires { number < length self.now.frames }
        ensures { slice_get self.now.frames number ≡ Some result.now }
    {
        let place = self.places[number];
        &self.bytes[place.start..place.end]
    }

    /// Makes room for one frame more of so many bytes at most.
    ///
    /// # Errors
    ///
    /// [`AllocError`] where there is none, and a request for it was refused. The frames are unchanged then.
    pub fn reserve(&mut self, most: usize) -> Result<(), AllocError>
        ensures frames { self.new.frames ≡ self.old.frames }
        ensures place { OnOk result (0 < self.new.places) }
        ensures room { OnOk result (most ≤ self.new.room) }
        ensures refused { OnErr result SomeWasRefused }
    {
        make_room(&mut self.bytes, most)?;
        make_room(&mut self.places, 1)
    }

    /// Appends a frame for which there is room.
    pub fn push_reserved(&mut self, bytes: &[u8])
        requires place { 0 < self.old.places }
        requires room { length bytes.now ≤ self.old.room }
        ensures { self.new.frames ≡ self.old.frames ++ bytes.now ∷ [] }
    {
        let start = self.bytes.len();
        self.bytes.extend_from_slice(bytes).unwrap();
        let end = self.bytes.len();
        self.places.push_reserved(Place { start, end });
    }
}
