//! What was taken of one column at one instant, lane by lane. Which lanes hold a cell stands apart from the blocks, so that a
//! look at what is held reads no block.
ghost use Rattle.std.specs.Prelude.{◌≡◌, ◌≤◌, ◌<◌, ℕ, false, length, map, option_map, true, Some};
ghost use Rattle.std.specs.Prelude.{IfSome, slice_index_or, slice_set};
ghost use Rattle.pdc_row.specs.CellView.{BlockView, same_block};
ghost use Rattle.pdc_row.specs.Chosen.{present_of};
ghost use Rattle.pdc_columns.specs.Chosen.{are_different, chosen_of, disagreement_at};
ghost use Rattle.pdc_columns.specs.ColumnParts.{block_of_second, chosen_view, column_of, nothing};
ghost use Rattle.pdc_columns.specs.ColumnParts.{GivesHere, without_lane};
ghost use Rattle.pdc_columns.specs.Taking.{cell_in, holds_other, with_cell};

use pdc_row::{Body, Offered, RowBlocks, Shape};

/// Which lanes of a column hold a cell.
#[derive(Clone, Copy)]
pub struct Held {
    /// Whether lane 0 holds one.
    pub first: bool,
    /// Whether lane 1 holds one, in a table of two lanes.
    pub second: bool,
    /// Whether the block of lane 1, where it holds one, stands in lane 0, since it was found to be the same, or that held nothing: else it stands in
    /// its own.
    pub alike: bool,
    /// The time quality byte of the frame of lane 0.
    pub first_quality: u8,
    /// The time quality byte of the frame of lane 1.
    pub second_quality: u8,
}

/// What a column gives.
#[derive(Clone, Copy)]
pub(crate) struct Chosen<'a> {
    /// The block.
    pub body: Body<'a>,
    /// The time quality byte of the frame of the lane that gives it.
    pub quality: u8,
}

/// What a column holds in which nothing was taken.
pub const NOTHING: Held = Held {
    first: false,
    second: false,
    alike: false,
    first_quality: 0,
    second_quality: 0,
};

/// No lane holds a cell.
impl Default for Held {
    ghost is_default = { λ held. held ≡ nothing };

    fn default() -> Held {
        NOTHING
    }
}

impl Held {
    /// Where the block of lane 1 stands, if that holds one.
    #[inline(always)]
    pub(crate) fn of_second<'a>(self, first: &'a RowBlocks, second: &'a RowBlocks) -> &'a RowBlocks
        ensures block { (place : ℕ) (default : BlockView) →
            slice_index_or result.now place default ≡ block_of_second self
            (slice_index_or first.now place default) (slice_index_or second.now place default) }
        ensures len { (n : ℕ) → n < length first.now → n < length second.now →
            n < length result.now }
    {
        if self.alike { first } else { second }
    }

    /// The time quality byte with which the column gives the block that stands in lane 0, where it gives no other: if that is present.
    #[inline(always)]
    pub(crate) fn gives_here(self) -> Option<u8>
        ensures { IfSome result (GivesHere self) }
    {
        if self.first && (self.alike || !self.second) {
            Some(self.first_quality)
        } else if self.second && self.alike && !self.first {
            Some(self.second_quality)
        } else {
            None
        }
    }

    /// The block of the lowest lane whose block is present, of the column at this place.
    #[inline(always)]
    pub(crate) fn chosen<'a>(
        self,
        first: &'a RowBlocks,
        second: &'a RowBlocks,
        place: usize,
    ) -> Option<Chosen<'a>>
        requires first { place < length first.now }
        requires second { place < length second.now }
        ensures { (default : BlockView) → option_map chosen_view result ≡
            chosen_of (column_of self (slice_index_or first.now place default)
            (slice_index_or second.now place default)) }
    {
        if self.first && first.is_present(place) {
            return Some(Chosen {
                body: first.body(place),
                quality: self.first_quality,
            });
        }
        let second = self.of_second(first, second);
        if self.second && second.is_present(place) {
            return Some(Chosen {
                body: second.body(place),
                quality: self.second_quality,
            });
        }
        None
    }

    /// Puts a copy of the block, and the time quality byte of its frame, into the lane, 0 or else 1, of the column at this place.
    #[inline(always)]
    pub(crate) fn put<B: Offered>(
        &mut self,
        first: &mut RowBlocks,
        second: &mut RowBlocks,
        place: usize,
        lane: usize,
        block: &B,
        quality: u8,
    )
        requires first { place < length first.old }
        requires second { place < length second.old }
        ensures column { (default : BlockView) → column_of self.new
            (slice_index_or first.new place default) (slice_index_or second.new place default)
            ≡ with_cell lane (Some (record { block = B.view block.now; quality = quality }))
            (column_of self.old (slice_index_or first.old place default)
            (slice_index_or second.old place default)) }
        ensures first { (default : BlockView) →
            first.new ≡ slice_set first.old place (slice_index_or first.new place default) }
        ensures second { (default : BlockView) →
            second.new ≡ slice_set second.old place (slice_index_or second.new place default) }
    {
        if lane == 0 {
            self.make_way(first, second, place, block);
            self.first = true;
            self.first_quality = quality;
            first.put(place, block);
            return;
        }
        self.second = true;
        self.second_quality = quality;
        if self.first && first.holds(place, block) {
            self.alike = true;
        } else {
            self.alike = false;
            second.put(place, block);
        }
    }

    /// Keeps what lane 1 holds, before this block comes into lane 0: its block goes into its own place, and may be the same.
    #[inline(always)]
    fn make_way<B: Offered>(
        &mut self,
        first: &RowBlocks,
        second: &mut RowBlocks,
        place: usize,
        block: &B,
    )
        requires first { place < length first.now }
        requires second { place < length second.old }
        ensures column { (default : BlockView) → column_of (record self.new { first = false })
            (B.view block.now) (slice_index_or second.new place default)
            ≡ column_of (record self.old { first = false })
            (slice_index_or first.now place default) (slice_index_or second.old place default) }
        ensures second { (default : BlockView) →
            second.new ≡ slice_set second.old place (slice_index_or second.new place default) }
    {
        if self.second {
            self.meet(first, second, place, block);
        }
    }

    /// The same where lane 1 holds a cell.
    #[inline(always)]
    fn meet<B: Offered>(
        &mut self,
        first: &RowBlocks,
        second: &mut RowBlocks,
        place: usize,
        block: &B,
    )
        requires first { place < length first.now }
        requires second { place < length second.old }
        ensures held { (default : BlockView) → self.new
            ≡ record self.old {
              alike = same_block (block_of_second self.old
                  (slice_index_or first.now place default)
                  (slice_index_or second.old place default)) (B.view block.now);
            } }
        ensures block { (default : BlockView) → slice_index_or second.new place default
            ≡ block_of_second self.old (slice_index_or first.now place default)
            (slice_index_or second.old place default) }
        ensures second { (default : BlockView) →
            second.new ≡ slice_set second.old place (slice_index_or second.new place default) }
    {
        self.part(first, second, place);
        self.alike = second.holds(place, block);
    }

    /// Makes the block of lane 1 stand in its own place.
    #[inline(always)]
    fn part(&self, first: &RowBlocks, second: &mut RowBlocks, place: usize)
        requires first { place < length first.now }
        requires second { place < length second.old }
        ensures block { (default : BlockView) → slice_index_or second.new place default
            ≡ block_of_second self.now (slice_index_or first.now place default)
            (slice_index_or second.old place default) }
        ensures second { (default : BlockView) →
            second.new ≡ slice_set second.old place (slice_index_or second.new place default) }
    {
        if self.alike {
            second.put(place, &first.body(place));
        }
    }

    /// Empties the lane, 0 or else 1.
    #[inline]
    pub(crate) fn clear(&mut self, lane: usize)
        ensures { self.new ≡ without_lane lane self.old }
    {
        if lane == 0 {
            self.first = false;
        } else {
            self.second = false;
        }
    }

    /// Whether the lane, 0 or else 1, of the column at this place holds another block than this; a lane that holds nothing does not.
    #[inline]
    pub(crate) fn holds_other<B: Offered>(
        self,
        first: &RowBlocks,
        second: &RowBlocks,
        place: usize,
        lane: usize,
        block: &B,
    ) -> bool
        requires first { place < length first.now }
        requires second { place < length second.now }
        ensures { (default : BlockView) → result ≡ holds_other (cell_in lane
            (column_of self (slice_index_or first.now place default)
            (slice_index_or second.now place default))) (B.view block.now) }
    {
        if lane == 0 {
            self.first && !first.holds(place, block)
        } else {
            self.second && !self.of_second(first, second).holds(place, block)
        }
    }

    /// One where the column at this place has a shape, and its lanes hold present blocks that differ.
    #[inline]
    pub(crate) fn disagreements(
        self,
        first: &RowBlocks,
        second: &RowBlocks,
        place: usize,
        shape: Option<Shape>,
    ) -> u64
        requires first { place < length first.now }
        requires second { place < length second.now }
        ensures value { (default : BlockView) → result ≡ disagreement_at shape
            (column_of self (slice_index_or first.now place default)
            (slice_index_or second.now place default)) }
        ensures most { result ≤ 1 }
    {
        if !self.alike
            && self.second
            && self.first
            && shape.is_some()
            && differ(first, second, place)
        {
            1
        } else {
            0
        }
    }
}

/// Whether both blocks at this place are present, and they differ: nearly always they do not.
fn differ(first: &RowBlocks, second: &RowBlocks, place: usize) -> bool
    requires first { place < length first.now }
    requires second { place < length second.now }
    ensures { (default : BlockView) (a b : ℕ) → result ≡ are_different
        (present_of (Some (record { block = slice_index_or first.now place default; quality = a })))
        (present_of (Some (record { block = slice_index_or second.now place default; quality = b }))) }
{
    !first.holds(place, &second.body(place)) && first.is_present(place) && second.is_present(place)
}

/// Empties the lane of each column.
pub(crate) fn forget_lane(held: &mut [Held], lane: usize)
    ensures { held.new ≡ map (without_lane lane) held.old }
{
    for held in held.iter_mut() {
        held.clear(lane);
    }
}
