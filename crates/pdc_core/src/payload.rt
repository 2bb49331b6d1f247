//! The payload of data that is kept.
ghost use Rattle.std.specs.Prelude.{◌≡◌, ◌≤◌, [], IfOk, IsOk, OnErr, false, length, true};
ghost use Rattle.pdc_align.specs.pdc_memory.Asking.{WasRefused};
ghost use Rattle.pdc_core.specs.KeptArrival.{bytes_of, can_hold};
ghost use Rattle.pdc_core.specs.declared.payload.TheConstants.{SHORT_PAYLOAD};

use pdc_align::{Held, copy_block};
use std::alloc::{AllocError, Global};
use std::fmt;
use std::fmt::{Debug, Formatter};
use std::marker::Model;

/// The most bytes of a PMU's data: 107 words.
pub const SHORT_PAYLOAD: usize = 214;

/// At most 214 bytes, in place. What stands behind them is left there, so that others are written over them without zeros before.
#[derive(Drop)]
pub struct ShortPayload {
    len: usize,
    bytes: [u8; SHORT_PAYLOAD],
}

impl Model for ShortPayload {
    ghost use Rattle.std.specs.Prelude.{◌≤◌, ℕ, List, take};
    ghost use Rattle.pdc_core.specs.declared.payload.TheConstants.{SHORT_PAYLOAD};

    ghost Value = { List ℕ };

    ghost view = { λ payload. take payload.len payload.bytes };

    ghost invariant = { λ payload. payload.len ≤ SHORT_PAYLOAD };
}

impl ShortPayload {
    /// No bytes.
    #[inline(always)]
    pub fn new() -> ShortPayload
        ensures { result ≡ [] }
    {
        ShortPayload {
            len: 0,
            bytes: [0; SHORT_PAYLOAD],
        }
    }

    /// Writes these bytes over those that it has.
    #[inline(always)]
    pub fn set(&mut self, bytes: &[u8])
        requires { length bytes.now ≤ SHORT_PAYLOAD }
        ensures { self.new ≡ bytes.now }
    {
        copy_block(&mut self.bytes[..bytes.len()], bytes);
        self.len = bytes.len();
    }

    /// The bytes.
    #[inline(always)]
    pub fn as_slice(&self) -> &[u8]
        ensures { result.now ≡ self.now }
    {
        &self.bytes[..self.len]
    }
}

/// Its bytes.
impl Debug for ShortPayload {
    fn fmt<W: fmt::Write>(&self, f: &mut Formatter<W>) -> fmt::Result {
        self.as_slice().fmt(f)
    }
}

/// The bytes of a payload. Those of a PMU's data lie in place; longer ones, as a node sends them, on the heap.
#[derive(Debug, Drop)]
pub enum Payload {
    /// At most 214 bytes.
    Short(ShortPayload),
    /// More of them.
    Long(Held<u8>),
}

impl Payload {
    /// A copy of the bytes.
    ///
    /// # Errors
    ///
    /// [`AllocError`] where there are more than 214, and no memory.
    pub fn of(alloc: Global, bytes: &[u8]) -> Result<Payload, AllocError>
        ensures value { IfOk result (λ payload. bytes_of payload ≡ bytes.now) }
        ensures short { length bytes.now ≤ 214 → IsOk result }
        ensures refused { OnErr result (WasRefused (length bytes.now)) }
    {
        if bytes.len() <= SHORT_PAYLOAD {
            return Ok(Payload::in_place(bytes));
        }
        Ok(Payload::Long(Held::copy_of(alloc, bytes)?))
    }

    /// A copy of at most 214 bytes, in place.
    #[inline(always)]
    pub(crate) fn in_place(bytes: &[u8]) -> Payload
        requires { length bytes.now ≤ SHORT_PAYLOAD }
        ensures { bytes_of result ≡ bytes.now }
    {
        let mut short = ShortPayload::new();
        short.set(bytes);
        Payload::Short(short)
    }

    /// Whether these bytes can be written over those that it has without memory: at most 214 over bytes in place, and over bytes on the heap
    /// as many as those.
    #[inline(always)]
    pub fn can_hold(&self, bytes: &[u8]) -> bool
        ensures { result ≡ can_hold self.now bytes.now }
    {
        match self {
            Payload::Short(_) => bytes.len() <= SHORT_PAYLOAD,
            Payload::Long(own) => bytes.len() == own.len(),
        }
    }

    /// Writes these bytes over those that it has, where that takes no memory. Whether it did; else it stays as it was.
    #[inline(always)]
    pub fn set(&mut self, bytes: &[u8]) -> bool
        ensures when { result ≡ can_hold self.old bytes.now }
        ensures value { result ≡ true → bytes_of self.new ≡ bytes.now }
        ensures none { result ≡ false → self.new ≡ self.old }
    {
        match self {
            Payload::Short(own) => {
                if bytes.len() > SHORT_PAYLOAD {
                    return false;
                }
                own.set(bytes);
                true
            }
            Payload::Long(own) => {
                if bytes.len() != own.len() {
                    return false;
                }
                own.as_mut_slice().copy_from_slice(bytes);
                true
            }
        }
    }

    /// The bytes.
    #[inline(always)]
    pub fn as_slice(&self) -> &[u8]
        ensures { result.now ≡ bytes_of self.now }
    {
        match self {
            Payload::Short(bytes) => bytes.as_slice(),
            Payload::Long(own) => own.as_slice(),
        }
    }
}
