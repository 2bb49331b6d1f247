//! Which lanes of each column hold a cell, where often the same is so of all columns.
ghost use Rattle.std.specs.Prelude.{◌≡◌, ◌<◌, ◌≤◌, IfSome, length, map, replicate, slice_index_or};
ghost use Rattle.std.specs.Prelude.{slice_set, true};
ghost use Rattle.pdc_columns.specs.ColumnParts.{nothing, without_lane};

use crate::column::{Held, NOTHING, forget_lane};
use crate::{MAX_COLUMNS, copy_items};
use arrayvec::ArrayVec;
use pdc_row::CopyFrom;
use std::marker::Model;

/// What is held of each column. What is held alike of all of them is written once: so a row begins, and so it takes the blocks of a frame that
/// has one of each column.
#[derive(Drop)]
pub struct Lanes {
    /// Whether the same is held of each column.
    is_one: bool,
    /// What is held of each column, where it is the same.
    one: Held,
    /// What is held of each, where it is not.
    each: ArrayVec<Held, MAX_COLUMNS>,
}

impl Model for Lanes {
    ghost use Rattle.std.specs.Prelude.{if◌then◌else◌, List, length, replicate};
    ghost use Rattle.pdc_columns.specs.declared.column.Held.{Held as HeldData};

    ghost Value = { List HeldData };

    ghost view = { λ lanes. if lanes.is_one then replicate (length lanes.each.items) lanes.one
        else lanes.each.items };
}

impl Lanes {
    /// So many columns in which nothing was taken.
    pub(crate) fn blank(count: usize) -> Lanes
        requires { count ≤ MAX_COLUMNS }
        ensures { result ≡ replicate count nothing }
    {
        let mut each = ArrayVec::from_array_in((), [NOTHING; MAX_COLUMNS]);
        each.truncate(count);
        Lanes {
            is_one: true,
            one: NOTHING,
            each,
        }
    }

    /// How many columns there are.
    #[inline(always)]
    pub(crate) fn len(&self) -> usize
        ensures value { result ≡ length self.now }
        ensures most { result ≤ MAX_COLUMNS }
    {
        self.each.len()
    }

    /// What is held of the column at this place.
    #[inline(always)]
    pub(crate) fn at(&self, place: usize) -> Held
        requires { place < length self.now }
        ensures { result ≡ slice_index_or self.now place nothing }
    {
        if self.is_one {
            self.one
        } else {
            held_at(self.each.as_slice(), place)
        }
    }

    /// What is held of each column, where it is known to be the same.
    #[inline(always)]
    pub(crate) fn one(&self) -> Option<Held>
        ensures { IfSome result (λ one. self.now ≡ replicate (length self.now) one) }
    {
        if self.is_one { Some(self.one) } else { None }
    }

    /// What is held of each column, where it is not known to be the same.
    #[inline(always)]
    pub(crate) fn each(&self) -> Option<&[Held]>
        ensures { IfSome result (λ each. each.now ≡ self.now) }
    {
        if self.is_one {
            None
        } else {
            Some(self.each.as_slice())
        }
    }

    /// Makes this what is held of the column at this place.
    #[inline(always)]
    pub(crate) fn set(&mut self, place: usize, held: Held)
        requires { place < length self.old }
        ensures { self.new ≡ slice_set self.old place held }
    {
        if self.is_one {
            write_apart(self.each.as_mut_slice(), self.one, place, held);
            self.is_one = false;
        } else {
            self.each.as_mut_slice()[place] = held;
        }
    }

    /// Notes that lane 0 of the column at this place holds a cell, of a frame with this time quality byte.
    #[inline(always)]
    pub(crate) fn hold_first(&mut self, place: usize, quality: u8)
        requires { place < length self.old }
        ensures { self.new ≡ slice_set self.old place (record (slice_index_or self.old place
            nothing) {
              first = true;
              first_quality = quality;
            }) }
    {
        if self.is_one {
            let mut held = self.one;
            held.first = true;
            held.first_quality = quality;
            write_apart(self.each.as_mut_slice(), self.one, place, held);
            self.is_one = false;
        } else {
            hold_at(self.each.as_mut_slice(), place, quality);
        }
    }

    /// Makes this what is held of each column.
    #[inline(always)]
    pub(crate) fn fill(&mut self, held: Held)
        ensures { self.new ≡ replicate (length self.old) held }
    {
        self.is_one = true;
        self.one = held;
    }

    /// Empties the lane of each column.
    pub(crate) fn forget_lane(&mut self, lane: usize)
        ensures { self.new ≡ map (without_lane lane) self.old }
    {
        if self.is_one {
            self.one.clear(lane);
        } else {
            forget_lane(self.each.as_mut_slice(), lane);
        }
    }
}

/// What is held of the column at this place, in a list of what is held of each.
#[inline(always)]
pub(crate) fn held_at(each: &[Held], place: usize) -> Held
    requires { place < length each.now }
    ensures { result ≡ slice_index_or each.now place nothing }
{
    each[place]
}

/// Writes what is held of all but one column to each, and this of that one.
#[inline(always)]
fn write_apart(each: &mut [Held], all: Held, place: usize, held: Held)
    requires { place < length each.old }
    ensures { each.new ≡ slice_set (replicate (length each.old) all) place held }
{
    each.fill(all);
    each[place] = held;
}

/// Notes the same in a list of what is held of each column.
#[inline(always)]
fn hold_at(each: &mut [Held], place: usize, quality: u8)
    requires { place < length each.old }
    ensures { each.new ≡ slice_set each.old place (record (slice_index_or each.old place nothing) {
      first = true;
      first_quality = quality;
    }) }
{
    let held = &mut each[place];
    held.first = true;
    held.first_quality = quality;
}

impl CopyFrom for Lanes {
    fn copy_from(&mut self, other: &Lanes) {
        self.is_one = other.is_one;
        self.one = other.one;
        copy_items(&mut self.each, other.each.as_slice());
    }
}
