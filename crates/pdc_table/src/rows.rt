//! The rows of a ring: that of an instant stands at the place of its remainder by the window.
//!
//! ```text
//! window 8, open 13 14 18     place  0  1  2  3  4  5  6  7
//!                             row          18       13 14
//! ```
ghost use Rattle.std.specs.Prelude.{◌≡◌, ◌%◌, ◌==◌, ◌<◌, ◌≤◌, [], length, nat_lt};
ghost use Rattle.std.specs.Prelude.{replicate, IfOk, slice_set, if◌then◌else◌};
ghost use Rattle.std.specs.Prelude.{OnErr};
ghost use Rattle.pdc_open_row.specs.pdc_memory.Asking.{SomeWasRefused};
ghost use Rattle.std.specs.List.{All, AllByRecursion, prefix_len};
ghost use Rattle.pdc_open_row.specs.pdc_row.Rising.{Rises, place};
ghost use Rattle.pdc_table.specs.RingRows.{base_row, copied, met_row, row_in};
ghost use Rattle.pdc_open_row.specs.Views.{blank_row};
ghost use Rattle.pdc_open_row.specs.pdc_columns.Taking.{HaveColumns};
ghost use Rattle.pdc_open_row.specs.Taking.{answer_at, is_taken, with_frame};
ghost use Rattle.pdc_open_row.specs.Twin.{IsTwinIn};

use crate::ages::Ages;
use crate::circle::Circle;
use crate::copied::{copy_at, copy_at_queued};
use crate::{MAX_COLUMNS, PutOutcome};
use pdc_open_row::{Blocks, Held, HeldQueue, OpenRow, Places, numbers_rise};
use std::alloc::{AllocError, Global};

/// The rows of a ring, and which are open.
#[derive(Drop)]
pub struct Rows {
    /// The row of an instant that is held stands at its place.
    pub places: Held<OpenRow>,
    /// At the same place stands the age of an open row.
    pub ages: Ages,
    /// The open instants, in rising order.
    pub open: Held<u64>,
    /// At which place stands the memory that was given for the row which was handed out last, until the next row that begins takes it.
    pub spare: usize,
}

/// So many places, in each of which stands a row of no instant.
fn new_places(alloc: Global, count: usize, sizes: Places) -> Result<Held<OpenRow>, AllocError>
    requires streams { sizes.streams ≤ MAX_COLUMNS }
    requires columns { sizes.columns ≤ MAX_COLUMNS }
    ensures items { IfOk result (λ places. places.items ≡
        replicate count (blank_row sizes.streams sizes.columns 0)) }
    ensures refused { OnErr result SomeWasRefused }
{
    let mut places = Held::with_capacity(alloc, count)?;
    for _ in 0..count {
        places.push(OpenRow::blank(alloc, 0, sizes)?);
    }
    Ok(places)
}

/// How many open instants stand below this one.
fn rank(instants: &[u64], instant: u64) -> usize
    requires { Rises 0 instants.now }
    ensures rank { result ≡ prefix_len (λ held. nat_lt held instant) instants.now }
    ensures bound { result ≤ length instants.now }
{
    numbers_rise();
    instants.partition_point(|held| *held < instant)
}

/// Puts an instant into its place among rising ones.
fn open_instant(instants: &mut Held<u64>, instant: u64)
    requires rising { Rises 0 instants.old.items }
    requires room { length instants.old.items < instants.old.capacity }
    requires absent { All (λ i. i ≡ instant → ⊥) instants.old.items }
    ensures items { instants.new.items ≡ place instant instants.old.items }
    ensures capacity { instants.new.capacity ≡ instants.old.capacity }
{
    numbers_rise();
    let at = rank(instants.as_slice(), instant);
    instants.insert(at, instant);
}

/// Makes these the open instants, for which there is room.
fn copy_open(instants: &mut Held<u64>, others: &[u64])
    requires { length others.now ≤ instants.old.capacity }
    ensures items { instants.new.items ≡ others.now }
    ensures capacity { instants.new.capacity ≡ instants.old.capacity }
{
    instants.clear();
    for instant in others {
        instants.push(*instant);
    }
}

/// Makes a row in which nothing was taken yet ready for the blocks that come, where it is not that of the instant yet.
#[inline(always)]
fn make_ready(places: &mut Held<OpenRow>, place: usize, instant: u64, spare: &mut usize)
    requires { place < length places.old.items }
    ensures items { places.new.items ≡ places.old.items }
    ensures capacity { places.new.capacity ≡ places.old.capacity }
{
    let row = places.item(place);
    if row.instant() != instant && row.is_new() {
        ready_at(places.as_mut_slice(), place, *spare);
        *spare = place;
    }
}

/// The same in a list of rows: the row gets the memory of the one that was handed out last, which is laid out as that was, and in which the
/// processor still has what it read. Where that is not to be had, it is laid out as the row before it. A call of its own, since it is seldom.
#[inline(never)]
fn ready_at(rows: &mut [OpenRow], place: usize, spare: usize)
    requires { place < length rows.old }
    ensures { rows.new ≡ rows.old }
{
    if !trade_at(rows, place, spare) {
        lay_out_at(rows, place);
    }
}

/// Trades the memory of the row at a place for that of the spare one. Whether it has that now.
fn trade_at(rows: &mut [OpenRow], place: usize, spare: usize) -> bool
    requires { place < length rows.old }
    ensures { rows.new ≡ rows.old }
{
    if place == spare {
        return true;
    }
    if spare >= rows.len() {
        return false;
    }
    if spare < place {
        let (front, back) = rows.split_at_mut(place);
        back[0].trade(&mut front[spare])
    } else {
        let (front, back) = rows.split_at_mut(spare);
        front[place].trade(&mut back[0])
    }
}

/// Lays the row at a place out as the one before it.
fn lay_out_at(rows: &mut [OpenRow], place: usize)
    requires { place < length rows.old }
    ensures { rows.new ≡ rows.old }
{
    let (front, back) = rows.split_at_mut(place);
    if let Some(before) = front.last() {
        back[0].lay_out_as(before);
    }
}

impl Rows {
    /// So many places, of which none is open.
    pub fn new(alloc: Global, count: usize, sizes: Places) -> Result<Rows, AllocError>
        requires streams { sizes.streams ≤ MAX_COLUMNS }
        requires columns { sizes.columns ≤ MAX_COLUMNS }
        ensures places { IfOk result (λ rows. rows.places.items ≡
            replicate count (blank_row sizes.streams sizes.columns 0)) }
        ensures ages { IfOk result (λ rows. rows.ages.items ≡ replicate count 0) }
        ensures open { IfOk result (λ rows. rows.open.items ≡ []) }
        ensures room { IfOk result (λ rows. count ≤ rows.open.capacity) }
        ensures refused { OnErr result SomeWasRefused }
    {
        Ok(Rows {
            places: new_places(alloc, count, sizes)?,
            ages: Ages::new(alloc, count)?,
            open: Held::with_capacity(alloc, count)?,
            spare: 0,
        })
    }

    /// Makes the open rows, and those of closed instants, those of another ring of as many places. What stands at other places stays.
    pub fn copy(&mut self, other: &Rows, circle: &Circle, closed: &HeldQueue<u64>)
        requires size { length self.old.places.items ≡ circle.now.window }
        requires places { length other.now.places.items ≡ circle.now.window }
        requires ages { length self.old.ages.items ≡ length other.now.ages.items }
        requires room { length other.now.open.items ≤ self.old.open.capacity }
        ensures places { self.new.places.items ≡
            copied (blank_row 0 0 0) circle.now.window closed.now.items other.now.places.items
            (copied (blank_row 0 0 0) circle.now.window other.now.open.items other.now.places.items
            self.old.places.items) }
        ensures ages { self.new.ages.items ≡ other.now.ages.items }
        ensures open { self.new.open.items ≡ other.now.open.items }
        ensures ages_capacity { self.new.ages.capacity ≡ self.old.ages.capacity }
        ensures capacity { self.new.places.capacity ≡ self.old.places.capacity }
        ensures open_capacity { self.new.open.capacity ≡ self.old.open.capacity }
    {
        let others = other.places.as_slice();
        copy_at(
            self.places.as_mut_slice(),
            others,
            circle,
            other.open.as_slice(),
        );
        copy_at_queued(self.places.as_mut_slice(), others, circle, closed);
        self.ages.copy(&other.ages);
        copy_open(&mut self.open, other.open.as_slice());
    }

    /// Takes a frame of a stream for the instant of the circle, unless the stream was taken there.
    pub fn take<C: Blocks>(
        &mut self,
        here: &Circle,
        stream: usize,
        lane: usize,
        blocks: &C,
        quality: u8,
    ) -> PutOutcome
        requires size { length self.old.places.items ≡ here.now.window }
        requires ages_size { length self.old.ages.items ≡ here.now.window }
        requires rising { Rises 0 self.old.open.items }
        requires placed { AllByRecursion (λ i. (row_in self.old.places.items here.now.window
            i).instant ≡ i) self.old.open.items }
        requires room { ((row_in self.old.places.items here.now.window here.now.instant).instant ≡
            here.now.instant → ⊥)
            → length self.old.open.items < self.old.open.capacity }
        requires stream { stream < length (row_in self.old.places.items here.now.window
            here.now.instant).taken }
        requires columns { HaveColumns (C.cells blocks.now quality)
            (row_in self.old.places.items here.now.window here.now.instant).columns }
        requires twin { IsTwinIn (C.twin blocks.now) (met_row here.now.instant
            (row_in self.old.places.items here.now.window here.now.instant)) }
        ensures answer { result ≡ answer_at (met_row here.now.instant
            (row_in self.old.places.items here.now.window here.now.instant))
            stream lane (C.cells blocks.now quality) }
        ensures places { self.new.places.items ≡ (if is_taken result
            then slice_set self.old.places.items (here.now.instant % here.now.window)
            (with_frame stream lane (C.cells blocks.now quality)
            (base_row here.now.instant (row_in self.old.places.items here.now.window
            here.now.instant)))
            else self.old.places.items) }
        ensures ages { self.new.ages.items ≡
            (if (row_in self.old.places.items here.now.window here.now.instant).instant ==
            here.now.instant
            then self.old.ages.items else slice_set self.old.ages.items
            (here.now.instant % here.now.window) 0) }
        ensures open { self.new.open.items ≡
            (if (row_in self.old.places.items here.now.window here.now.instant).instant ==
            here.now.instant
            then self.old.open.items else place here.now.instant self.old.open.items) }
        ensures ages_capacity { self.new.ages.capacity ≡ self.old.ages.capacity }
        ensures capacity { self.new.places.capacity ≡ self.old.places.capacity }
        ensures open_capacity { self.new.open.capacity ≡ self.old.open.capacity }
    {
        make_ready(&mut self.places, here.place, here.instant, &mut self.spare);
        let row = self.places.item_mut(here.place);
        if row.instant() != here.instant {
            row.begin(here.instant);
            self.ages.begin(here.place);
            open_instant(&mut self.open, here.instant);
        }
        row.offer(stream, lane, blocks, quality)
    }
}
