//! Bytes that frames are appended to.
ghost use Rattle.std.specs.Prelude.{◌≡◌, ◌+◌, ◌*◌, ◌^◌, ◌<◌, ◌≤◌, ◌++◌, ℕ, List, length};
ghost use Rattle.std.specs.Prelude.{vec_capacity, IsOk, OnOk, OnErr};
ghost use Rattle.pdc_memory.specs.Asking.{WasRefused};

use arrayvec::ArrayVec;
use pdc_memory::make_room;
use std::alloc::{AllocError, Allocator};

/// Bytes that frames are appended to: a `Vec`, whose allocator may give it more room, or an `ArrayVec`, whose room is
/// fixed.
pub trait Buffer {
    // The bytes that it holds,
    ghost content: { Self → List ℕ };

    // how many it can hold without taking memory,
    ghost capacity: { Self → ℕ };

    // how many requests for memory it has made,
    ghost asked: { Self → ℕ };

    // and whether, as it is, its request for so many bytes more was refused.
    ghost refused: { Self → ℕ → Type 0 };

    /// The bytes that it holds.
    fn content(&self) -> &[u8]
        ensures { result.now ≡ content self.now };

    /// Makes room for so many bytes more. The content stays. Where there was room, no memory is taken.
    ///
    /// # Errors
    ///
    /// [`AllocError`] where there was no room and it gets none.
    fn make_room(&mut self, additional: usize) -> Result<(), AllocError>
        ensures bytes { content self.new ≡ content self.old }
        ensures ok { OnOk result (length (content self.new) + additional ≤ capacity self.new) }
        ensures room { length (content self.old) + additional ≤ capacity self.old → IsOk result }
        ensures in_place { length (content self.old) + additional ≤ capacity self.old →
            capacity self.new ≡ capacity self.old }
        ensures err { OnErr result (capacity self.new ≡ capacity self.old) }
        ensures grown { capacity self.old ≤ capacity self.new }
        ensures refused { OnErr result (refused self.new additional) }
        ensures unasked { length (content self.old) + additional ≤ capacity self.old →
            asked self.new ≡ asked self.old };

    /// Appends the bytes, for which there is room. It takes no memory.
    fn append_bytes(&mut self, bytes: &[u8])
        requires { length (content self.old) + length bytes.now ≤ capacity self.old }
        ensures bytes { content self.new ≡ content self.old ++ bytes.now }
        ensures in_place { capacity self.new ≡ capacity self.old }
        ensures unasked { asked self.new ≡ asked self.old };

    /// Appends the bytes, for which there is room: a few, whose number the caller's code tells, so that they are written as numbers. It
    /// takes no memory.
    fn append_few(&mut self, bytes: &[u8])
        requires { length (content self.old) + length bytes.now ≤ capacity self.old }
        ensures bytes { content self.new ≡ content self.old ++ bytes.now }
        ensures in_place { capacity self.new ≡ capacity self.old }
        ensures unasked { asked self.new ≡ asked self.old };
}

/// How many bytes are appended in one step: as many as fill a register.
const BYTES_AT_ONCE: usize = 16;

/// Appends the bytes, for which there is room, one by one.
#[inline(always)]
fn push_each<A: Allocator>(out: &mut Vec<u8, A>, bytes: &[u8])
    requires { length out.old.items + length bytes.now ≤ vec_capacity out.old }
    ensures items { out.new.items ≡ out.old.items ++ bytes.now }
    ensures capacity { vec_capacity out.new ≡ vec_capacity out.old }
{
    for byte in bytes {
        out.push_reserved(*byte);
    }
}

/// Appends the first `N` of the bytes, if there are as many, and answers those behind them. All are read before one is written,
/// so that they are moved in one step.
#[inline(always)]
fn push_part<'a, const N: usize, A: Allocator>(out: &mut Vec<u8, A>, bytes: &'a [u8]) -> &'a [u8]
    requires small { N < 2 ^ 63 }
    requires room { length out.old.items + length bytes.now ≤ vec_capacity out.old }
    ensures items { out.new.items ++ result.now ≡ out.old.items ++ bytes.now }
    ensures room { length out.new.items + length result.now ≤ vec_capacity out.new }
    ensures taken { N ≤ length bytes.now → length result.now + N ≡ length bytes.now }
    ensures few { length bytes.now < 2 * N → length result.now < N }
    ensures capacity { vec_capacity out.new ≡ vec_capacity out.old }
{
    let Some(part) = bytes.first_chunk::<N>() else {
        return bytes;
    };
    let part = *part;
    push_each(out, &part);
    &bytes[N..]
}

impl<A: Allocator> Buffer for Vec<u8, A> {
    ghost content = { λ v. v.items };

    ghost capacity = { λ v. vec_capacity v };

    // The allocator is the vector's own, and counts nothing.
    ghost asked = { λ _. 0 };

    ghost refused = { λ _ n. WasRefused n };

    #[inline]
    fn content(&self) -> &[u8] {
        self.as_slice()
    }

    #[inline]
    fn make_room(&mut self, additional: usize) -> Result<(), AllocError> {
        make_room(self, additional)
    }

    // `extend_from_slice` does not promise that the capacity stays.
    #[inline(always)]
    fn append_bytes(&mut self, bytes: &[u8]) {
        let mut rest = bytes;
        while rest.len() >= BYTES_AT_ONCE {
            rest = push_part::<BYTES_AT_ONCE, A>(self, rest);
        }
        let rest = push_part::<8, A>(self, rest);
        let rest = push_part::<4, A>(self, rest);
        let rest = push_part::<2, A>(self, rest);
        push_part::<1, A>(self, rest);
    }

    #[inline(always)]
    fn append_few(&mut self, bytes: &[u8]) {
        push_each(self, bytes);
    }
}

impl<const N: usize> Buffer for ArrayVec<u8, N> {
    ghost content = { λ v. v.items };

    ghost capacity = { λ _. N };

    // It asks for none,
    ghost asked = { λ _. 0 };

    // and there is none to be had.
    ghost refused = { λ v n. N < length v.items + n };

    #[inline]
    fn content(&self) -> &[u8] {
        self.as_slice()
    }

    #[inline]
    fn make_room(&mut self, additional: usize) -> Result<(), AllocError> {
        if additional <= self.remaining_capacity() {
            Ok(())
        } else {
            Err(AllocError)
        }
    }

    #[inline(always)]
    fn append_bytes(&mut self, bytes: &[u8]) {
        self.try_extend_from_slice(bytes).unwrap();
    }

    #[inline]
    fn append_few(&mut self, bytes: &[u8]) {
        self.append_bytes(bytes);
    }
}
