//! A table kept as sorted rows.
ghost use Rattle.std.specs.Prelude.{◌≡◌};
ghost use Rattle.pdc_table.specs.Content.{HasSizesOf, IsContent, IsPut};
ghost use Rattle.pdc_table.specs.Steps.{after_put, put_answer};
ghost use Rattle.pdc_table.specs.pdc_columns.Taking.{cells_in};

use crate::aged_row::AgedRow;
use crate::rows::{self, DueRule, FrameHead};
use arrayvec::ArrayVec;
use pdc_memory::{HeldQueue, with_room};
use pdc_row::{Block, Body, DueRow, Offered, numbers_rise};
use pdc_table::{
    MAX_COLUMNS, Places, PutOutcome, RowLayout, Table, WaitRule, copy_items, falses, lane_of,
    stream_count,
};
use std::alloc::{AllocError, Global};
use std::marker::Model;

/// A table kept as one row for each open instant, in rising order. There are as many rows as the window has instants.
#[derive(Drop)]
pub struct SortedTable {
    window: u64,
    columns: usize,
    lanes: usize,
    required: ArrayVec<bool, MAX_COLUMNS>,
    rows: Vec<AgedRow>,
    /// The rows that are not open, each to be begun again: all memory is taken once.
    free: HeldQueue<AgedRow>,
    closed: HeldQueue<DueRow>,
    last: u64,
    disagree: u64,
}

impl Model for SortedTable {
    ghost use Rattle.pdc_table.specs.TableView.{TableView};

    ghost Value = { TableView };

    ghost use Rattle.try_script.specs.SortedTable.{IsKept, view_of};

    ghost view = { view_of };

    ghost invariant = { IsKept };
}

impl SortedTable {
    /// Offers a frame of a stream: [`Table::put`], wherever the words of its blocks lie.
    fn offer<B: Offered>(
        &mut self,
        stream: usize,
        instant: u64,
        cells: &[(usize, B)],
        quality: u8,
    ) -> PutOutcome
        requires { IsPut self.old.content stream (cells_in B.view cells.now quality) }
        ensures answer { result ≡ put_answer self.old.content stream instant (cells_in B.view cells.now quality) }
        ensures content { self.new.content ≡ after_put self.old.content stream instant (cells_in B.view cells.now quality) }
        ensures disagreements { self.new.disagreements ≡ self.old.disagreements }
        ensures sizes { HasSizesOf self.old.content self.new.content }
        ensures memory { self.new.memory ≡ self.old.memory }
        ensures well_formed { IsContent self.new.content }
    {
        numbers_rise();
        if instant <= self.last {
            return PutOutcome::Late;
        }
        if !rows::are_near(&self.rows, &self.closed, self.window, instant) {
            return PutOutcome::OutOfWindow;
        }
        let lane = lane_of(self.lanes, stream);
        let places = Places {
            streams: self.required.len(),
            columns: self.columns,
        };
        let head = FrameHead {
            stream,
            lane,
            instant,
            quality,
        };
        rows::take(&mut self.rows, &mut self.free, places, head, cells)
    }
}

impl Table for SortedTable {
    ghost content = { λ table. table.content };

    ghost disagreements = { λ table. table.disagreements };

    ghost memory = { λ table. table.memory };

    fn new(
        alloc: Global,
        window: u64,
        columns: usize,
        lanes: usize,
        floor: u64,
    ) -> Result<SortedTable, AllocError> {
        let room = window as usize;
        let streams = stream_count(columns, lanes);
        let places = Places { streams, columns };
        Ok(SortedTable {
            window,
            columns,
            lanes,
            required: falses(streams),
            rows: with_room(alloc, room)?,
            free: rows::free_rows(alloc, room, places)?,
            closed: HeldQueue::with_capacity(alloc, room)?,
            last: floor,
            disagree: 0,
        })
    }

    fn put(
        &mut self,
        stream: usize,
        instant: u64,
        cells: &[(usize, Block)],
        quality: u8,
    ) -> PutOutcome {
        self.offer(stream, instant, cells, quality)
    }

    fn put_bodies(
        &mut self,
        stream: usize,
        instant: u64,
        cells: &[(usize, Body<'_>)],
        quality: u8,
    ) -> PutOutcome {
        self.offer(stream, instant, cells, quality)
    }

    fn copy_from(&mut self, other: &SortedTable) {
        numbers_rise();
        self.window = other.window;
        self.columns = other.columns;
        self.lanes = other.lanes;
        copy_items(&mut self.required, other.required.as_slice());
        rows::copy_rows(&mut self.rows, &mut self.free, other.rows.as_slice());
        rows::copy_closed(&mut self.closed, &other.closed);
        self.last = other.last;
        self.disagree = other.disagree;
    }

    fn require(&mut self, stream: usize, is_required: bool) {
        self.required[stream] = is_required;
    }

    fn tick(&mut self, rule: WaitRule, layout: &RowLayout) -> u32 {
        numbers_rise();
        rows::grow_older(&mut self.rows);
        let SortedTable {
            required,
            rows,
            free,
            closed,
            last,
            disagree,
            ..
        } = self;
        let required = required.as_slice();
        let rule = DueRule {
            required,
            wait: rule,
        };
        rows::close_due(rows, free, &rule, layout, closed, last, disagree) as u32
    }

    fn drop_stream(&mut self, stream: usize) {
        rows::drop_stream(&mut self.rows, self.lanes, stream);
    }

    fn drop_column(&mut self, column: usize) {
        rows::drop_column(&mut self.rows, column);
    }

    fn pop_due(&mut self) -> Option<DueRow> {
        numbers_rise();
        self.closed.pop_front()
    }

    fn next_due(&self) -> Option<u64> {
        let row = self.closed.front()?;
        Some(row.instant)
    }

    fn is_whole(&self) -> bool {
        match self.rows.as_slice().first() {
            Some(row) => row.is_whole(self.required.as_slice()),
            None => false,
        }
    }

    fn last(&self) -> u64 {
        self.last
    }

    fn disagree(&self) -> u64 {
        self.disagree
    }
}
