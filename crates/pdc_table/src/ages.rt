//! The ages of the rows of a ring.
ghost use Rattle.std.specs.Prelude.{◌≡◌, ◌<◌, length, map, replicate, slice_index_or, slice_set};
ghost use Rattle.std.specs.Prelude.{IfOk, OnErr};
ghost use Rattle.pdc_open_row.specs.pdc_memory.Asking.{SomeWasRefused};
ghost use Rattle.pdc_table.specs.AgesView.{earlier};
ghost use Rattle.pdc_table.specs.RingRows.{older};

use pdc_open_row::Held;
use std::alloc::{AllocError, Global};
use std::marker::Model;

/// The age at each place, in ticks. What is kept is the count of ticks at which the age was 0, so that one more tick touches no place.
#[derive(Drop)]
pub struct Ages {
    /// How many ticks were counted.
    ticks: u64,
    /// For each place how many there were when its age was 0.
    since: Held<u64>,
}

impl Model for Ages {
    ghost use Rattle.std.specs.Prelude.{◌≤◌};
    ghost use Rattle.std.specs.List.{All};
    ghost use Rattle.pdc_table.specs.AgesView.{AgesView, ages_at};

    ghost Value = { AgesView };

    ghost view = { λ ages. record {
      items = ages_at ages.ticks ages.since.items;
      capacity = ages.since.capacity;
    } };

    ghost invariant = { λ ages. All (λ since. since ≤ ages.ticks) ages.since.items };
}

impl Ages {
    /// So many places, each of age 0.
    pub fn new(alloc: Global, count: usize) -> Result<Ages, AllocError>
        ensures items { IfOk result (λ ages. ages.items ≡ replicate count 0) }
        ensures refused { OnErr result SomeWasRefused }
    {
        Ok(Ages {
            ticks: 0,
            since: Held::filled(alloc, 0, count)?,
        })
    }

    /// Makes the age at each place that of the others, which are as many.
    pub fn copy(&mut self, other: &Ages)
        requires { length self.old.items ≡ length other.now.items }
        ensures items { self.new.items ≡ other.now.items }
        ensures capacity { self.new.capacity ≡ self.old.capacity }
    {
        self.ticks = other.ticks;
        self.since
            .as_mut_slice()
            .copy_from_slice(other.since.as_slice());
    }

    /// The age at a place.
    #[inline]
    pub fn at(&self, place: usize) -> u64
        requires { place < length self.now.items }
        ensures { result ≡ slice_index_or self.now.items place 0 }
    {
        self.ticks - *self.since.item(place)
    }

    /// Makes the age at a place 0.
    #[inline]
    pub fn begin(&mut self, place: usize)
        requires { place < length self.old.items }
        ensures items { self.new.items ≡ slice_set self.old.items place 0 }
        ensures capacity { self.new.capacity ≡ self.old.capacity }
    {
        *self.since.item_mut(place) = self.ticks;
    }

    /// Counts one more tick at each place.
    #[inline]
    pub fn grow_older(&mut self)
        ensures items { self.new.items ≡ map older self.old.items }
        ensures capacity { self.new.capacity ≡ self.old.capacity }
    {
        if self.ticks < u64::MAX {
            self.ticks += 1;
        } else {
            move_back(self.since.as_mut_slice());
        }
    }
}

/// Where no tick is left to be counted, each age was 0 a tick earlier.
#[inline(never)]
fn move_back(counts: &mut [u64])
    ensures { counts.new ≡ map earlier counts.old }
{
    for since in counts.iter_mut() {
        *since = since.saturating_sub(1);
    }
}
