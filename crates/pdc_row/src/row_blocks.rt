//! The blocks of a row, as the frame that goes out has them.
ghost use Rattle.std.specs.Prelude.{◌≡◌, ◌∷◌, ◌++◌, ◌<◌, ◌≤◌, [], length, map, nat_eq};
ghost use Rattle.std.specs.Prelude.{◌+◌, IfSome, false, slice_index_or, slice_set, sum_by, true};
ghost use Rattle.std.specs.Int.{w16, to_be_bytes};
ghost use Rattle.std.specs.Option.{ForSome};
ghost use Rattle.std.specs.Cmp.Lexicographic.{pointwise};
ghost use Rattle.pdc_block.specs.Block.{body_len_of};
ghost use Rattle.pdc_block.specs.pdc_frame.CheckWord.{check_word_of};
ghost use Rattle.pdc_row.specs.CellView.{BlockView, absent_view, block_view, body_view};
ghost use Rattle.pdc_row.specs.CellView.{is_present, same_block};
ghost use Rattle.pdc_row.specs.KeptBlocks.{AreWhole, blocks_in, bytes_of, shapes_of};
ghost use Rattle.pdc_row.specs.Shown.{MayBeShown, ShowsAt};
ghost use Rattle.pdc_row.specs.declared.row_frame.TheConstants.{OWN_BLOCK_LEN};
ghost use Rattle.pdc_row.specs.pdc_frame.Frame.{fields_of, header_of};
ghost use Rattle.pdc_row.specs.pdc_frame.Fronts.{front_of};
ghost use Rattle.pdc_row.specs.pdc_frame.declared.limits.TheConstants.{OVERHEAD};
ghost use Rattle.pdc_row.specs.declared.limits.TheConstants.{MAX_PMUS};

use crate::limits::MAX_PMUS;
use crate::offered::are_bytes;
use crate::present::{has_data, has_other_stat};
use crate::room::{Room, RowEnds};
use crate::row_frame::OWN_BLOCK_LEN;
use crate::shapes::{are_each_same, are_same};
use crate::{CopyFrom, KnownFront, Offered, Shapes};
use arrayvec::ArrayVec;
use pdc_block::{
    Block, Body, CheckedFront, Frame, LentFront, Shape, absent, bodies_are_their_words, cut,
};
use std::fmt;
use std::fmt::{Debug, Formatter};
use std::marker::Model;

/// The most bytes of the blocks of a row: 16 of the most channels.
pub const MAX_BLOCKS_LEN: usize = 3424;

/// How many blocks a payload is cut into at most: those of a row, and the own block.
pub const MAX_CUT: usize = MAX_PMUS + 1;

/// The blocks of a row, at most 16: their shapes, and their bytes one after the other, at the places that they have in the data frame of the
/// row, with room for what stands before and behind them. So a row goes out where it is, and the payload of a frame comes in by one copy. What
/// stands behind them is left there.
#[derive(Drop)]
pub struct RowBlocks {
    /// How many there are.
    count: usize,
    /// Their shapes stand in front.
    shapes: [Shape; MAX_PMUS],
    /// Where the bytes of each begin, and where those of the next one would.
    starts: [u16; MAX_CUT],
    /// How many bytes they have.
    len: usize,
    /// The front and the check word of the frame in which they came, where they all came in one and that is known.
    sent: KnownFront,
    /// Their bytes stand in front, at the places that they have in the frame of the row.
    room: Room,
}

impl Model for RowBlocks {
    ghost use Rattle.std.specs.Prelude.{◌≡◌, ◌≤◌, ◌++◌, IfSome, List, length, sum_by, take};
    ghost use Rattle.pdc_block.specs.Block.{body_len_of};
    ghost use Rattle.pdc_block.specs.pdc_frame.CheckWord.{check_word_of};
    ghost use Rattle.pdc_row.specs.CellView.{BlockView};
    ghost use Rattle.pdc_row.specs.KeptBlocks.{AreStarts, blocks_in};
    ghost use Rattle.pdc_row.specs.KnownFront.{known_of};
    ghost use Rattle.pdc_row.specs.declared.limits.TheConstants.{MAX_PMUS};
    ghost use Rattle.pdc_row.specs.declared.room.TheConstants.{ROOM_LEN};
    ghost use Rattle.pdc_row.specs.declared.row_blocks.TheConstants.{MAX_BLOCKS_LEN};

    ghost Value = { List BlockView };

    ghost view = { λ blocks. blocks_in (take blocks.count blocks.shapes)
        (take blocks.len blocks.room) };

    ghost invariant = { λ blocks. record {
      places : length blocks.shapes ≡ MAX_PMUS;
      few : blocks.count ≤ MAX_PMUS;
      fits : blocks.len ≤ MAX_BLOCKS_LEN;
      size : blocks.len ≡ sum_by body_len_of (take blocks.count blocks.shapes);
      begun : AreStarts blocks.count blocks.shapes blocks.starts;
      sent : IfSome (known_of blocks.sent) (λ known. known.check ≡
          check_word_of (known.bytes ++ take blocks.len blocks.room));
      room : length blocks.room ≡ ROOM_LEN;
    } };
}

impl RowBlocks {
    /// No block.
    pub fn new() -> RowBlocks
        ensures { result ≡ [] }
    {
        RowBlocks {
            count: 0,
            shapes: [Shape::default(); MAX_PMUS],
            starts: [0; MAX_CUT],
            len: 0,
            sent: KnownFront::unknown(),
            room: Room::new(),
        }
    }

    /// These blocks.
    pub fn from_blocks(blocks: &[Block]) -> RowBlocks
        requires { length blocks.now ≤ MAX_PMUS }
        ensures { result ≡ map block_view blocks.now }
    {
        let mut kept = RowBlocks::new();
        for block in blocks {
            kept.push(block);
        }
        kept
    }

    /// How many there are.
    pub fn len(&self) -> usize
        ensures { result ≡ length self.now }
    {
        self.count
    }

    /// Makes them none.
    #[inline(always)]
    pub fn clear(&mut self)
        ensures { self.new ≡ [] }
    {
        self.count = 0;
        self.len = 0;
        self.sent.is_known = false;
    }

    /// Appends a block.
    #[inline(always)]
    pub fn push<B: Offered>(&mut self, block: &B)
        requires { length self.old < MAX_PMUS }
        ensures { self.new ≡ self.old ++ B.view block.now ∷ [] }
    {
        let shape = block.shape();
        let start = self.len;
        let end = start + 2 * shape.word_count();
        self.room.write(start, end, block);
        self.len = end;
        self.shapes[self.count] = shape;
        self.count += 1;
        self.starts[self.count] = end as u16;
        self.sent.is_known = false;
    }

    /// Appends the absent block of a shape. A call of its own, since most blocks are present.
    #[inline(never)]
    pub fn push_absent(&mut self, shape: Shape)
        requires { length self.old < MAX_PMUS }
        ensures { self.new ≡ self.old ++ absent_view shape ∷ [] }
    {
        self.push(&absent(shape));
    }

    /// The same blocks again. It takes no memory.
    pub fn copy(&self) -> RowBlocks
        ensures { result ≡ self.now }
    {
        RowBlocks {
            count: self.count,
            shapes: self.shapes,
            starts: self.starts,
            len: self.len,
            sent: self.sent,
            room: self.room.copy(),
        }
    }

    /// Their shapes.
    #[inline(always)]
    pub fn shapes(&self) -> &[Shape]
        ensures { result.now ≡ shapes_of self.now }
    {
        &self.shapes[..self.count]
    }

    /// Whether these are their shapes.
    #[inline(always)]
    pub fn has_shapes(&self, shapes: &Shapes) -> bool
        ensures same { result ≡ true → shapes_of self.now ≡ shapes.now }
        ensures other { result ≡ false → shapes_of self.now ≡ shapes.now → ⊥ }
    {
        // At a look those are compared too that stand behind them, which may be others.
        self.count == shapes.count
            && (are_same(&self.shapes, &shapes.each)
                || are_each_same(self.shapes(), shapes.as_slice()))
    }

    /// The block at a place, lent.
    #[inline(always)]
    pub fn body(&self, place: usize) -> Body<'_>
        requires { place < length self.now }
        ensures { (default : BlockView) → body_view result ≡
            slice_index_or self.now place default }
    {
        let _ = &self.count;
        let start = usize::from(self.starts[place]);
        let end = usize::from(self.starts[place + 1]);
        Body {
            shape: self.shapes[place],
            bytes: self.room.part(start, end),
        }
    }

    /// Whether the block at a place is any other than the absent block of its shape.
    #[inline(always)]
    pub fn is_present(&self, place: usize) -> bool
        requires { place < length self.now }
        ensures { (default : BlockView) → result ≡
            is_present (slice_index_or self.now place default) }
    {
        let body = self.body(place);
        has_other_stat(body.shape, body.bytes) || self.has_data_at(place)
    }

    /// The same. A call of its own, so that a look at a block that is present reads its first word alone.
    #[inline(never)]
    fn has_data_at(&self, place: usize) -> bool
        requires { place < length self.now }
        ensures { (default : BlockView) → result ≡
            is_present (slice_index_or self.now place default) }
    {
        let body = self.body(place);
        has_data(body.shape, body.bytes)
    }

    /// Whether the block at a place has the shape and the words of this one.
    #[inline(always)]
    pub fn holds<B: Offered>(&self, place: usize, block: &B) -> bool
        requires { place < length self.now }
        ensures { (default : BlockView) → result ≡
            same_block (slice_index_or self.now place default) (B.view block.now) }
    {
        let body = self.body(place);
        body.shape == block.shape() && block.has_bytes(body.bytes)
    }

    /// Puts a block to a place, over the one that is there. Where both have one shape, its bytes are written to where they stay.
    #[inline(always)]
    pub fn put<B: Offered>(&mut self, place: usize, block: &B)
        requires { place < length self.old }
        ensures { self.new ≡ slice_set self.old place (B.view block.now) }
    {
        let _ = &self.count;
        self.sent.is_known = false;
        if self.shapes[place] == block.shape() {
            let start = usize::from(self.starts[place]);
            let end = usize::from(self.starts[place + 1]);
            self.room.write(start, end, block);
        } else {
            self.put_anew(place, block);
        }
    }

    /// The same where the bytes of those behind it get other places. A call of its own, since it is seldom.
    #[inline(never)]
    fn put_anew<B: Offered>(&mut self, place: usize, block: &B)
        requires { place < length self.old }
        ensures { self.new ≡ slice_set self.old place (B.view block.now) }
    {
        self.are_few();
        let mut blocks = RowBlocks::new();
        for at in 0..self.len() {
            if at == place {
                blocks.push(block);
            } else {
                blocks.push(&self.body(at));
            }
        }
        *self = blocks;
    }

    /// Gives these blocks the shapes of others, of which there may be another number. What words they have is left open: they are to be
    /// written over.
    pub fn lay_out_as(&mut self, other: &RowBlocks)
        ensures { shapes_of self.new ≡ shapes_of other.now }
    {
        self.count = other.count;
        self.shapes = other.shapes;
        self.starts = other.starts;
        self.len = other.len;
        self.sent.is_known = false;
    }

    /// Writes these bytes, which are as many, over those of the blocks, of which each keeps its shape. Where the front and the check word are
    /// known of the frame in which they came, they are kept with them.
    #[inline(always)]
    pub fn write_over(&mut self, bytes: &[u8], sent: Option<&LentFront<'_>>)
        requires size { length bytes.now ≡ sum_by body_len_of (shapes_of self.old) }
        requires sent { ForSome sent (λ known. (front_of known.now).check ≡
            check_word_of ((front_of known.now).bytes ++ bytes.now)) }
        ensures { self.new ≡ blocks_in (shapes_of self.old) bytes.now }
    {
        self.room.write_first(bytes);
        self.sent.set_lent(sent);
    }

    /// The front and the check word of the frame in which they came, where they all came in one and that is known: so the check word follows of
    /// any frame that has them behind another front.
    #[inline(always)]
    pub fn sent(&self) -> Option<&CheckedFront>
        ensures { IfSome result (λ known. known.now.check ≡
            check_word_of (known.now.bytes ++ bytes_of self.now)) }
    {
        bodies_are_their_words();
        are_bytes(self.room.first(self.len));
        self.sent.as_ref()
    }

    /// Whether these are the bytes of the blocks: then they are those that the bytes write in their shapes.
    #[inline(always)]
    pub fn has_bytes(&self, bytes: &[u8]) -> bool
        ensures value { result ≡ pointwise nat_eq (bytes_of self.now) bytes.now }
        ensures same { result ≡ true → blocks_in (shapes_of self.now) bytes.now ≡ self.now }
    {
        self.are_whole();
        self.bytes() == bytes
    }

    /// The bytes of the blocks, one after the other.
    #[inline(always)]
    pub fn bytes(&self) -> &[u8]
        ensures bytes { result.now ≡ bytes_of self.now }
        ensures most { length result.now ≤ MAX_BLOCKS_LEN }
    {
        bodies_are_their_words();
        let bytes = self.room.first(self.len);
        are_bytes(bytes);
        bytes
    }

    /// Writes over these ends what stands before and behind them in a frame with the fields of `head` and this own block. Its check word is
    /// computed over all of it.
    pub fn ends_of(&mut self, head: &Frame, own: &[u8; OWN_BLOCK_LEN], ends: &mut RowEnds)
        ensures same { self.new ≡ self.old }
        ensures front { ends.new.front ≡ header_of (fields_of head.now)
            (OWN_BLOCK_LEN + length (bytes_of self.old) + OVERHEAD) ++ own.now }
        ensures check { ends.new.check ≡ to_be_bytes w16 (check_word_of
            (header_of (fields_of head.now) (OWN_BLOCK_LEN + length (bytes_of self.old) + OVERHEAD)
            ++ (own.now ++ bytes_of self.old))) }
    {
        bodies_are_their_words();
        are_bytes(self.room.first(self.len));
        self.room.ends_of(head, own, self.len, ends);
    }

    /// Writes these ends before and behind the blocks, and shows all that as it stands there, with a value that is lent. It takes no memory.
    pub fn show_framed<V, R, F: FnOnce(&[u8], &mut V) -> R>(
        &mut self,
        ends: &RowEnds,
        to: &mut V,
        with: F,
    ) -> R
        requires { MayBeShown F.FnOnce with
            (ends.now.front ++ (bytes_of self.old ++ ends.now.check)) to.old }
        ensures same { self.new ≡ self.old }
        ensures shows { ShowsAt F.FnOnce with
            (ends.now.front ++ (bytes_of self.old ++ ends.now.check)) to.old result to.new }
    {
        bodies_are_their_words();
        are_bytes(self.room.first(self.len));
        self.room.show(ends, self.len, to, with)
    }

    /// Each block has the words of its shape. A call of this law does nothing.
    #[inline(always)]
    pub fn are_whole(&self)
        ensures { AreWhole self.now }
    {
        bodies_are_their_words();
        are_bytes(self.room.first(self.len));
    }

    /// There are at most 16. A call of this law does nothing.
    #[inline(always)]
    fn are_few(&self)
        ensures { length self.now ≤ MAX_PMUS }
    {
        let _ = &self.count;
    }

    /// The blocks, each by itself, for who looks into them. It takes no memory.
    pub fn to_blocks(&self) -> ArrayVec<Block, MAX_CUT>
        ensures { map block_view result.items ≡ self.now }
    {
        bodies_are_their_words();
        let bytes = self.room.first(self.len);
        are_bytes(bytes);
        match cut(&self.shapes[..self.count], bytes) {
            Ok(blocks) => blocks,
            Err(_) => ArrayVec::new(),
        }
    }
}

impl CopyFrom for RowBlocks {
    /// Of their bytes as many are copied as there are.
    fn copy_from(&mut self, other: &RowBlocks) {
        self.count = other.count;
        self.shapes = other.shapes;
        self.starts = other.starts;
        self.len = other.len;
        self.sent.set(other.sent.as_ref());
        self.room.write_first(other.room.first(other.len));
    }
}

/// Their bytes.
impl Debug for RowBlocks {
    fn fmt<W: fmt::Write>(&self, f: &mut Formatter<W>) -> fmt::Result {
        self.bytes().fmt(f)
    }
}
