//! The bytes that a framer holds.
ghost use Rattle.std.specs.Prelude.{◌≡◌, ◌+◌, ◌<◌, ◌≤◌, ◌++◌, [], ◌∷◌, length, IfOk, OnErr};
ghost use Rattle.pdc_memory.specs.Asking.{WasRefused};

use crate::buffer::Buffer;
use pdc_memory::with_room;
use std::alloc::{AllocError, Allocator};
use std::marker::Model;

/// Bytes in memory that was taken once. What is lent them can ask for no memory by them: they hand out neither their vector nor its
/// allocator.
#[derive(Drop)]
pub struct HeldBytes<A: Allocator> {
    bytes: Vec<u8, A>,
}

impl<A: Allocator> Model for HeldBytes<A> {
    ghost use Rattle.std.specs.Prelude.{vec_capacity};
    ghost use Rattle.pdc_frame.specs.HeldBytes.{HeldBytesView};

    ghost Value = { HeldBytesView };

    ghost view = { λ held. record { items = held.bytes.items; capacity = vec_capacity held.bytes } };
}

impl<A: Allocator> HeldBytes<A> {
    /// Room for so many bytes, of which none is there.
    ///
    /// # Errors
    ///
    /// [`AllocError`] where a request for that room was refused.
    pub fn with_capacity(alloc: A, capacity: usize) -> Result<HeldBytes<A>, AllocError>
        ensures items { IfOk result (λ held. held.items ≡ []) }
        ensures capacity { IfOk result (λ held. held.capacity ≡ capacity) }
        ensures refused { OnErr result (WasRefused capacity) }
    {
        Ok(HeldBytes {
            bytes: with_room(alloc, capacity)?,
        })
    }

    /// How many bytes there are.
    #[inline(always)]
    pub fn len(&self) -> usize
        ensures { result ≡ length self.now.items }
    {
        self.bytes.len()
    }

    /// The bytes.
    #[inline(always)]
    pub fn as_slice(&self) -> &[u8]
        ensures { result.now ≡ self.now.items }
    {
        self.bytes.as_slice()
    }

    /// Appends a byte, for which there is room.
    #[inline(always)]
    pub fn push(&mut self, byte: u8)
        requires { length self.old.items < self.old.capacity }
        ensures items { self.new.items ≡ self.old.items ++ byte ∷ [] }
        ensures capacity { self.new.capacity ≡ self.old.capacity }
    {
        self.bytes.push_reserved(byte);
    }

    /// Appends bytes, for which there is room.
    #[inline(always)]
    pub fn append(&mut self, bytes: &[u8])
        requires { length self.old.items + length bytes.now ≤ self.old.capacity }
        ensures items { self.new.items ≡ self.old.items ++ bytes.now }
        ensures capacity { self.new.capacity ≡ self.old.capacity }
    {
        self.bytes.append_bytes(bytes);
    }

    /// Leaves no bytes. Their room stays.
    #[inline(always)]
    pub fn clear(&mut self)
        ensures items { self.new.items ≡ [] }
        ensures capacity { self.new.capacity ≡ self.old.capacity }
    {
        self.bytes.clear();
    }
}
