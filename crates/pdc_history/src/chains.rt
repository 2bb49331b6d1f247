//! Numbers in buckets.
ghost use Rattle.std.specs.Prelude.{◌≡◌, ◌<◌, ◌≤◌, ◌++◌, ◌∷◌, [], length, slice_index, IfOk};
ghost use Rattle.std.specs.Prelude.{OnOk, OnErr};
ghost use Rattle.pdc_memory.specs.Asking.{WasRefused};
ghost use Rattle.pdc_history.specs.Chains.{IsLastBelow};

use pdc_memory::{Held, make_room};
use std::alloc::{AllocError, Global};
use std::marker::Model;

/// A number's place in its bucket.
#[derive(Clone, Copy, Debug)]
struct Entry {
    bucket: usize,
    /// The last number before it that is in the bucket.
    before: Option<usize>,
}

/// The numbers from 0 on, each in one bucket: `lasts` has the last of each bucket.
///
/// ```text
/// lasts    b: Some(4)       c: None    d: Some(3)
/// entries  0: b, None   1: d, None   2: b, Some(0)   3: d, Some(1)   4: b, Some(2)
/// ```
#[derive(Drop)]
pub(crate) struct Chains {
    lasts: Held<Option<usize>>,
    entries: Vec<Entry>,
}

impl Model for Chains {
    ghost use Rattle.std.specs.Prelude.{◌-◌, length, vec_capacity, vec_len};
    ghost use Rattle.pdc_history.specs.Chains.{AreChains, ChainsView, keys_of};

    ghost Value = { ChainsView };

    ghost view = { λ c. record {
      buckets = length c.lasts.items;
      keys = keys_of c.entries.items;
      slots = vec_capacity c.entries - vec_len c.entries;
    } };

    ghost invariant = { λ c. AreChains c.lasts.items c.entries.items };
}

impl Chains {
    /// So many buckets, with no number.
    ///
    /// # Errors
    ///
    /// [`AllocError`] where a request for so many was refused.
    pub fn new(alloc: Global, buckets: usize) -> Result<Chains, AllocError>
        ensures buckets { IfOk result (λ chains. chains.buckets ≡ buckets) }
        ensures keys { IfOk result (λ chains. chains.keys ≡ []) }
        ensures refused { OnErr result (WasRefused buckets) }
    {
        Ok(Chains {
            lasts: Held::filled(alloc, None, buckets)?,
            entries: Vec::new(alloc),
        })
    }

    /// Makes room for one number more.
    ///
    /// # Errors
    ///
    /// [`AllocError`] where there is none, and a request for it was refused. Nothing is changed then.
    pub fn reserve(&mut self) -> Result<(), AllocError>
        ensures room { OnOk result (0 < self.new.slots) }
        ensures keys { self.new.keys ≡ self.old.keys }
        ensures buckets { self.new.buckets ≡ self.old.buckets }
        ensures refused { OnErr result (WasRefused 1) }
    {
        make_room(&mut self.entries, 1)
    }

    /// The next number goes into this bucket.
    pub fn push_reserved(&mut self, bucket: usize)
        requires room { 0 < self.old.slots }
        requires bucket { bucket < self.old.buckets }
        ensures keys { self.new.keys ≡ self.old.keys ++ bucket ∷ [] }
        ensures buckets { self.new.buckets ≡ self.old.buckets }
    {
        let number = self.entries.len();
        let before = *self.lasts.item(bucket);
        self.entries.push_reserved(Entry { bucket, before });
        *self.lasts.item_mut(bucket) = Some(number);
    }

    /// The last number in this bucket.
    pub fn last(&self, bucket: usize) -> Option<usize>
        requires { bucket < self.now.buckets }
        ensures { IsLastBelow self.now.keys bucket (length self.now.keys) result }
    {
        *self.lasts.item(bucket)
    }

    /// The last number before this one that is in its bucket.
    pub fn before(&self, number: usize) -> Option<usize>
        requires { number < length self.now.keys }
        ensures { IsLastBelow self.now.keys (slice_index self.now.keys number) number result }
    {
        self.entries[number].before
    }
}
