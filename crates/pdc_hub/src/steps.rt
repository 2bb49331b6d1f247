//! The steps since the base, in places that are kept.
ghost use Rattle.std.specs.Prelude.{◌≡◌, ◌+◌, ◌<◌, ◌++◌, ◌∷◌, [], IfOk, OnErr, false, length};
ghost use Rattle.std.specs.Prelude.{slice_index_or, true};
ghost use Rattle.pdc_core.specs.KeptArrival.{taken_view};
ghost use Rattle.pdc_core.specs.Lent.{HasRoomFor, brought_view, has_room, lent_view};
ghost use Rattle.pdc_core.specs.declared.step.CoreStep.TheVariants as step;
ghost use Rattle.pdc_hub.specs.Kept.{IsKept, KeepsArrival};
ghost use Rattle.pdc_memory.specs.Asking.{WasRefused};
ghost use Rattle.pdc_memory.specs.Held.{held_items};

use pdc_core::{CoreStep, KeptArrival, LentData, SHORT_PAYLOAD};
use pdc_memory::Held;
use std::alloc::{AllocError, Global};
use std::marker::Model;
use std::mem;

/// Steps, with room for so many. Where they are cleared their places stay, and data is written over that of one: as many bytes as there are.
#[derive(Drop)]
pub struct Steps {
    /// The places that were written so far.
    places: Held<CoreStep>,
    /// How many of them hold a step, from the first on.
    count: usize,
}

impl Model for Steps {
    ghost use Rattle.std.specs.Prelude.{◌≤◌, length, take};
    ghost use Rattle.pdc_core.specs.declared.step.CoreStep.{CoreStep};
    ghost use Rattle.pdc_memory.specs.Held.{HeldItems, held_items};

    ghost Value = { HeldItems CoreStep };

    ghost view = { λ steps. held_items (take steps.count steps.places.items) steps.places.capacity };

    ghost invariant = { λ steps. steps.count ≤ length steps.places.items };
}

impl Steps {
    /// Room for so many steps, of which none is there.
    ///
    /// # Errors
    ///
    /// [`AllocError`] where a request for that room was refused.
    pub fn with_capacity(alloc: Global, capacity: usize) -> Result<Steps, AllocError>
        ensures held { IfOk result (λ steps. steps ≡ held_items [] capacity) }
        ensures refused { OnErr result (WasRefused capacity) }
    {
        let places = Held::with_capacity(alloc, capacity)?;
        Ok(Steps { places, count: 0 })
    }

    /// How many steps there are.
    #[inline(always)]
    pub fn len(&self) -> usize
        ensures { result ≡ length self.now.items }
    {
        self.count
    }

    /// The step at a place.
    #[inline(always)]
    pub fn item(&self, place: usize) -> &CoreStep
        requires { place < length self.now.items }
        ensures { result.now ≡ slice_index_or self.now.items place result.now }
    {
        self.places.item(place)
    }

    /// Makes them none. Their places stay.
    pub fn clear(&mut self)
        ensures { self.new ≡ held_items [] self.old.capacity }
    {
        self.count = 0;
    }

    /// Appends a step, for which there is room.
    pub fn push(&mut self, step: CoreStep)
        requires { length self.old.items < self.old.capacity }
        ensures items { self.new.items ≡ self.old.items ++ step ∷ [] }
        ensures len { length self.new.items ≡ length self.old.items + 1 }
        ensures capacity { self.new.capacity ≡ self.old.capacity }
    {
        if self.count < self.places.len() {
            *self.places.item_mut(self.count) = step;
            self.count += 1;
        } else {
            self.places.push(step);
            self.count = self.places.len();
        }
    }

    /// Appends that data which is lent arrived for a stream, or else what is kept, for which there is room. What is left of that is to be written
    /// over. It takes no memory: where data cannot be written over what lies at its place, what is kept has room for it.
    #[inline(always)]
    pub fn arrive(&mut self, stream: usize, lent: &Option<LentData<'_>>, taken: &mut KeptArrival)
        requires space { length self.old.items < self.old.capacity }
        requires room { HasRoomFor taken.old lent.now }
        ensures items { KeepsArrival stream (brought_view lent.now taken.old) self.old.items
            self.new.items }
        ensures len { length self.new.items ≡ length self.old.items + 1 }
        ensures capacity { self.new.capacity ≡ self.old.capacity }
    {
        if self.count < self.places.len() {
            write_over(self.places.item_mut(self.count), stream, lent, taken);
            self.count += 1;
        } else {
            self.arrive_anew(stream, lent, taken);
        }
    }

    /// The same where no place was written yet behind the last step. A call of its own, so that the way of the others makes no room for a step.
    #[inline(never)]
    fn arrive_anew(&mut self, stream: usize, lent: &Option<LentData<'_>>, taken: &mut KeptArrival)
        requires space { length self.old.items < self.old.capacity }
        requires room { HasRoomFor taken.old lent.now }
        ensures items { KeepsArrival stream (brought_view lent.now taken.old) self.old.items
            self.new.items }
        ensures len { length self.new.items ≡ length self.old.items + 1 }
        ensures capacity { self.new.capacity ≡ self.old.capacity }
    {
        let step = arrived(stream, lent, taken);
        self.push(step);
    }
}

/// That this arrived for a stream.
fn arrived(stream: usize, lent: &Option<LentData<'_>>, taken: &mut KeptArrival) -> CoreStep
    requires { HasRoomFor taken.old lent.now }
    ensures { IsKept stream (brought_view lent.now taken.old) result }
{
    let taken = match lent {
        Some(data) => copied(data, taken),
        None => mem::replace(taken, KeptArrival::blank()),
    };
    CoreStep::Arrive { stream, taken }
}

/// A copy of data that is lent: long data is written over what is kept, in whose place stands a blank one then.
fn copied(lent: &LentData<'_>, taken: &mut KeptArrival) -> KeptArrival
    requires { has_room taken.old lent.now.payload.now ≡ true }
    ensures { taken_view result ≡ lent_view lent.now }
{
    if lent.payload.len() <= SHORT_PAYLOAD {
        return KeptArrival::of_short(lent);
    }
    let _ = taken.take(lent);
    mem::replace(taken, KeptArrival::blank())
}

/// Makes this step that this arrived for a stream.
#[inline(always)]
fn write_over(
    place: &mut CoreStep,
    stream: usize,
    lent: &Option<LentData<'_>>,
    taken: &mut KeptArrival,
)
    requires { HasRoomFor taken.old lent.now }
    ensures { IsKept stream (brought_view lent.now taken.old) place.new }
{
    if let Some(data) = lent {
        if write_data(place, stream, data) {
            return;
        }
    }
    write_anew(place, stream, lent, taken);
}

/// The same where it cannot be written over what is there. A call of its own for the same reason.
#[inline(never)]
fn write_anew(
    place: &mut CoreStep,
    stream: usize,
    lent: &Option<LentData<'_>>,
    taken: &mut KeptArrival,
)
    requires { HasRoomFor taken.old lent.now }
    ensures { IsKept stream (brought_view lent.now taken.old) place.new }
{
    *place = arrived(stream, lent, taken);
}

/// Writes that this data arrived for a stream over a step, where it can be written over what arrived by that one. Whether it did; else it stays.
#[inline(always)]
fn write_data(place: &mut CoreStep, stream: usize, lent: &LentData<'_>) -> bool
    ensures written { result ≡ true → IsKept stream (lent_view lent.now) place.new }
    ensures none { result ≡ false → place.new ≡ place.old }
{
    if let CoreStep::Arrive {
        stream: own_stream,
        taken,
    } = place
    {
        if taken.take(lent) {
            *own_stream = stream;
            return true;
        }
    }
    false
}
