//! A table kept as a ring.
ghost use Rattle.std.specs.Prelude.{◌≡◌};
ghost use Rattle.pdc_open_row.specs.Twin.{IsTwinIn};
ghost use Rattle.pdc_table.specs.Content.{HasSizesOf, IsContent, IsPut};
ghost use Rattle.pdc_table.specs.Placing.{row_at};
ghost use Rattle.pdc_table.specs.Steps.{after_put, put_answer};

use crate::circle::Circle;
use crate::ring_closing::Closed;
use crate::rows::Rows;
use crate::{
    MAX_COLUMNS, PutOutcome, RowLayout, Table, WaitRule, lane_of, ring, ring_closing, stream_count,
};
use arrayvec::ArrayVec;
use pdc_open_row::{
    Block, Blocks, Body, Cut, DueRow, HeldBox, Listed, Part, Places, RowBlocks, copy_items, falses,
    numbers_rise,
};
use std::alloc::{AllocError, Global};
use std::marker::Model;

/// A table kept as a place for each instant of the window: a put finds its row at the remainder of its instant, and no row is
/// moved.
#[derive(Drop)]
pub struct RingTable {
    columns: usize,
    lanes: usize,
    required: ArrayVec<bool, MAX_COLUMNS>,
    /// A place for each instant of the window, with that of the instant of the put before.
    circle: Circle,
    rows: Rows,
    closed: Closed,
}

impl Model for RingTable {
    ghost use Rattle.pdc_table.specs.TableView.{TableView};

    ghost Value = { TableView };

    ghost use Rattle.pdc_table.specs.Ring.{IsKept, view_of};

    ghost view = { view_of };

    ghost invariant = { IsKept };
}

impl RingTable {
    /// Offers a frame of a stream: [`Table::put`], wherever the words of its blocks lie.
    fn offer<C: Blocks>(
        &mut self,
        stream: usize,
        instant: u64,
        blocks: &C,
        quality: u8,
    ) -> PutOutcome
        requires put { IsPut self.old.content stream (C.cells blocks.now quality) }
        requires twin { IsTwinIn (C.twin blocks.now) (row_at instant self.old.content.open_rows) }
        ensures answer { result ≡ put_answer self.old.content stream instant
            (C.cells blocks.now quality) }
        ensures content { self.new.content ≡
            after_put self.old.content stream instant (C.cells blocks.now quality) }
        ensures disagreements { self.new.disagreements ≡ self.old.disagreements }
        ensures sizes { HasSizesOf self.old.content self.new.content }
        ensures memory { self.new.memory ≡ self.old.memory }
        ensures well_formed { IsContent self.new.content }
    {
        numbers_rise();
        if instant <= self.closed.last {
            return PutOutcome::Late;
        }
        let here = Circle {
            window: self.circle.window,
            instant,
            place: self.circle.place_of(instant),
        };
        if !ring::is_in_window(&self.rows, &self.closed.instants, &here) {
            return PutOutcome::OutOfWindow;
        }
        let lane = lane_of(self.lanes, stream);
        let RingTable { circle, rows, .. } = self;
        *circle = here;
        rows.take(&here, stream, lane, blocks, quality)
    }
}

impl Table for RingTable {
    ghost content = { λ table. table.content };

    ghost disagreements = { λ table. table.disagreements };

    ghost memory = { λ table. table.memory };

    fn new(
        alloc: Global,
        window: u64,
        columns: usize,
        lanes: usize,
        floor: u64,
    ) -> Result<RingTable, AllocError> {
        let room = window as usize;
        let streams = stream_count(columns, lanes);
        let rows = Rows::new(alloc, room, Places { streams, columns })?;
        let closed = Closed::new(alloc, room, floor)?;
        Ok(RingTable {
            columns,
            lanes,
            required: falses(streams),
            circle: Circle {
                window,
                instant: floor,
                place: (floor % window) as usize,
            },
            rows,
            closed,
        })
    }

    fn copy_from(&mut self, other: &RingTable) {
        numbers_rise();
        self.columns = other.columns;
        self.lanes = other.lanes;
        copy_items(&mut self.required, other.required.as_slice());
        self.circle = other.circle;
        // What is not copied stays, and is of no instant above the last closed.
        let is_later = self.closed.last > other.closed.last;
        ring::leave(
            &mut self.rows.places,
            &other.circle,
            self.rows.open.as_slice(),
            is_later,
        );
        self.rows
            .copy(&other.rows, &other.circle, &other.closed.instants);
        self.closed.copy(&other.closed, &other.circle);
    }

    fn put(
        &mut self,
        stream: usize,
        instant: u64,
        cells: &[(usize, Block)],
        quality: u8,
    ) -> PutOutcome {
        self.offer(stream, instant, &Listed { cells }, quality)
    }

    #[inline(always)]
    fn put_bodies(
        &mut self,
        stream: usize,
        instant: u64,
        cells: &[(usize, Body<'_>)],
        quality: u8,
    ) -> PutOutcome {
        self.offer(stream, instant, &Listed { cells }, quality)
    }

    fn put_parts<P: Part>(
        &mut self,
        stream: usize,
        instant: u64,
        cut: &Cut<'_, P>,
        quality: u8,
    ) -> PutOutcome {
        self.offer(stream, instant, cut, quality)
    }

    fn require(&mut self, stream: usize, is_required: bool) {
        self.required[stream] = is_required;
    }

    fn tick(&mut self, rule: WaitRule, layout: &RowLayout) -> u32 {
        numbers_rise();
        let RingTable {
            circle,
            required,
            rows,
            closed,
            ..
        } = self;
        rows.ages.grow_older();
        let count = closed.close_due(rows, circle, required.as_slice(), rule, layout);
        rows.open.remove_front(count);
        count as u32
    }

    fn drop_stream(&mut self, stream: usize) {
        numbers_rise();
        let RingTable {
            circle,
            lanes,
            rows,
            ..
        } = self;
        ring::drop_stream(
            &mut rows.places,
            circle,
            rows.open.as_slice(),
            *lanes,
            stream,
        );
    }

    fn drop_column(&mut self, column: usize) {
        numbers_rise();
        let RingTable { circle, rows, .. } = self;
        ring::drop_column(&mut rows.places, circle, rows.open.as_slice(), column);
    }

    fn pop_due(&mut self) -> Option<DueRow> {
        numbers_rise();
        let RingTable {
            circle,
            rows,
            closed,
            ..
        } = self;
        ring_closing::pop(
            rows,
            closed.layouts.as_slice(),
            circle,
            &mut closed.instants,
        )
    }

    fn pop_into(&mut self, row: &mut HeldBox<DueRow>) -> bool {
        numbers_rise();
        let RingTable {
            circle,
            rows,
            closed,
            ..
        } = self;
        ring_closing::pop_into(
            &mut rows.places,
            &mut rows.spare,
            closed.layouts.as_slice(),
            circle,
            &mut closed.instants,
            row,
        )
    }

    #[inline(always)]
    fn lowest_blocks(&self, instant: u64) -> Option<&RowBlocks> {
        if instant <= self.closed.last {
            return None;
        }
        let row = self.rows.places.item(self.circle.place_of(instant));
        if row.instant() != instant {
            return None;
        }
        row.lowest_blocks()
    }

    fn next_due(&self) -> Option<u64> {
        ring_closing::first(&self.closed.instants)
    }

    fn is_whole(&self) -> bool {
        ring::is_first_whole(&self.rows, &self.circle, self.required.as_slice())
    }

    fn last(&self) -> u64 {
        self.closed.last
    }

    fn disagree(&self) -> u64 {
        self.closed.disagree
    }
}
