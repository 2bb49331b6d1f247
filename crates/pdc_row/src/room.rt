//! The memory of a row's frame.
ghost use Rattle.std.specs.Prelude.{◌≡◌, ◌+◌, ◌-◌, ◌≤◌, ◌++◌, ℕ, List, drop, length, take};
ghost use Rattle.std.specs.Int.{w16, to_be_bytes};
ghost use Rattle.pdc_block.specs.Block.{body_len_of, words_in};
ghost use Rattle.pdc_row.specs.pdc_frame.CheckWord.{check_word_of};
ghost use Rattle.pdc_row.specs.pdc_frame.Frame.{fields_of, header_of};
ghost use Rattle.pdc_row.specs.KeptBlocks.{room_in};
ghost use Rattle.pdc_row.specs.Shown.{MayBeShown, ShowsAt};
ghost use Rattle.pdc_row.specs.declared.room.TheConstants.{ROOM_LEN};
ghost use Rattle.pdc_row.specs.declared.row_blocks.TheConstants.{MAX_BLOCKS_LEN};
ghost use Rattle.pdc_row.specs.declared.row_frame.TheConstants.{OWN_BLOCK_LEN};
ghost use Rattle.pdc_row.specs.pdc_frame.declared.limits.TheConstants.{OVERHEAD};

use crate::Offered;
use crate::row_blocks::MAX_BLOCKS_LEN;
use crate::row_frame::{MAX_ROW_LEN, OWN_BLOCK_LEN};
use pdc_block::{CHECK_LEN, FRONT_LEN, Frame, HEADER_LEN, write_ends};
use std::marker::Model;

/// The most bytes of the blocks of a row, and CHK.
const ROOM_LEN: usize = MAX_BLOCKS_LEN + CHECK_LEN;

/// What stands in a row's frame before the blocks and behind them.
#[derive(Clone, Copy)]
pub struct RowEnds {
    /// The fields before the payload, and the own block.
    pub front: [u8; FRONT_LEN],
    /// CHK.
    pub check: [u8; CHECK_LEN],
}

impl RowEnds {
    /// Ends of no meaning, to be written over.
    #[inline(always)]
    pub fn blank() -> RowEnds {
        RowEnds {
            front: [0; FRONT_LEN],
            check: [0; CHECK_LEN],
        }
    }
}

/// The memory of a row's frame. What stands in it behind the place of the front is what it says: the blocks are written there, to the places
/// that they have in the frame, and so it goes out where it is.
#[derive(Drop)]
pub struct Room {
    bytes: [u8; MAX_ROW_LEN],
}

impl Model for Room {
    ghost use Rattle.std.specs.Prelude.{ℕ, List};
    ghost use Rattle.pdc_row.specs.KeptBlocks.{room_in};

    ghost Value = { List ℕ };

    ghost view = { λ room. room_in room.bytes };
}

/// Writes these ends before and behind so many bytes.
#[inline(always)]
fn put_ends(bytes: &mut [u8; MAX_ROW_LEN], ends: &RowEnds, len: usize)
    requires { len ≤ MAX_BLOCKS_LEN }
    ensures framed { take (28 + len + 2) bytes.new ≡
        ends.now.front ++ (take len (room_in bytes.old) ++ ends.now.check) }
    ensures first { take len (room_in bytes.new) ≡ take len (room_in bytes.old) }
{
    bytes[..FRONT_LEN].copy_from_slice(&ends.front);
    let end = FRONT_LEN + len;
    bytes[end..end + CHECK_LEN].copy_from_slice(&ends.check);
}

/// Shows these bytes, and lends this value.
#[inline(always)]
fn lend<V, R, F: FnOnce(&[u8], &mut V) -> R>(bytes: &[u8], to: &mut V, with: F) -> R
    requires { MayBeShown F.FnOnce with bytes.now to.old }
    ensures { ShowsAt F.FnOnce with bytes.now to.old result to.new }
{
    with(bytes, to)
}

impl Room {
    /// Memory with nothing of meaning in it.
    pub fn new() -> Room
        ensures { length result ≡ ROOM_LEN }
    {
        Room {
            bytes: [0; MAX_ROW_LEN],
        }
    }

    /// The same again.
    pub fn copy(&self) -> Room
        ensures { result ≡ self.now }
    {
        Room { bytes: self.bytes }
    }

    /// The bytes from a place to another one.
    #[inline(always)]
    pub fn part(&self, start: usize, end: usize) -> &[u8]
        requires order { start ≤ end }
        requires most { end ≤ ROOM_LEN }
        ensures { result.now ≡ take (end - start) (drop start self.now) }
    {
        &self.bytes[FRONT_LEN + start..FRONT_LEN + end]
    }

    /// So many of the first bytes.
    #[inline(always)]
    pub fn first(&self, len: usize) -> &[u8]
        requires { len ≤ ROOM_LEN }
        ensures { result.now ≡ take len self.now }
    {
        &self.bytes[FRONT_LEN..FRONT_LEN + len]
    }

    /// Writes a block over the bytes from a place to another one, which are as many.
    #[inline(always)]
    pub fn write<B: Offered>(&mut self, start: usize, end: usize, block: &B)
        requires order { start ≤ end }
        requires most { end ≤ ROOM_LEN }
        requires len { end - start ≡ body_len_of (B.view block.now).shape }
        ensures { (more : List ℕ)
            × (self.new ≡ take start self.old ++ (more ++ drop (end - start) (drop start self.old)))
            × (length more ≡ end - start) × (words_in more ≡ (B.view block.now).words) }
    {
        block.write_bytes(&mut self.bytes[FRONT_LEN + start..FRONT_LEN + end]);
    }

    /// Writes bytes over the first ones.
    #[inline(always)]
    pub fn write_first(&mut self, bytes: &[u8])
        requires { length bytes.now ≤ ROOM_LEN }
        ensures { self.new ≡ bytes.now ++ drop (length bytes.now) self.old }
    {
        self.bytes[FRONT_LEN..FRONT_LEN + bytes.len()].copy_from_slice(bytes);
    }

    /// Writes over these ends what stands before and behind so many bytes in a frame with the fields of `head` and this own block. Its check word
    /// is computed over all of it.
    pub fn ends_of(
        &mut self,
        head: &Frame,
        own: &[u8; OWN_BLOCK_LEN],
        len: usize,
        ends: &mut RowEnds,
    )
        requires { len ≤ MAX_BLOCKS_LEN }
        ensures same { self.new ≡ self.old }
        ensures front { ends.new.front ≡
            header_of (fields_of head.now) (OWN_BLOCK_LEN + len + OVERHEAD) ++ own.now }
        ensures check { ends.new.check ≡ to_be_bytes w16 (check_word_of
            (header_of (fields_of head.now) (OWN_BLOCK_LEN + len + OVERHEAD)
            ++ (own.now ++ take len self.old))) }
    {
        self.bytes[HEADER_LEN..FRONT_LEN].copy_from_slice(own);
        let RowEnds { front, check } = ends;
        let (fields, tail) = front.split_at_mut(HEADER_LEN);
        write_ends(
            head,
            &self.bytes[HEADER_LEN..FRONT_LEN + len],
            fields,
            check,
        );
        tail.copy_from_slice(own);
    }

    /// Writes these ends before and behind so many bytes, and shows that as it stands there.
    pub fn show<V, R, F: FnOnce(&[u8], &mut V) -> R>(
        &mut self,
        ends: &RowEnds,
        len: usize,
        to: &mut V,
        with: F,
    ) -> R
        requires len { len ≤ MAX_BLOCKS_LEN }
        requires may { MayBeShown F.FnOnce with
            (ends.now.front ++ (take len self.old ++ ends.now.check)) to.old }
        ensures first { take len self.new ≡ take len self.old }
        ensures long { length self.new ≡ length self.old }
        ensures shows { ShowsAt F.FnOnce with
            (ends.now.front ++ (take len self.old ++ ends.now.check)) to.old result to.new }
    {
        put_ends(&mut self.bytes, ends, len);
        lend(&self.bytes[..FRONT_LEN + len + CHECK_LEN], to, with)
    }
}
