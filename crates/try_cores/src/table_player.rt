//! A table that a script plays on.
//!
//! | Call | Answer |
//! |---|---|
//! | `new WINDOW COLUMNS LANES FLOOR` | `ok`; the calls below go to this table |
//! | `require STREAM`, `free STREAM` | `ok` |
//! | `put STREAM INSTANT QUALITY BLOCK..` | the outcome; one lane: at most one block; two: a block for the first column and one for the last, `.` for none |
//! | `tick WAIT SHAPES` | how many rows closed; `WAIT` is a number of ticks, `until=INSTANT`, or `until=none`; `x` is a column with a shape, `.` one without, `0` nothing |
//! | `ticks TIMES WAIT SHAPES` | how many rows closed in so many ticks |
//! | `pop` | the row, as `8 1 2 0 sent absent`: its instant, stamp, quality and blocks; or `none`. Every other one is popped into a row that is kept |
//! | `drop_stream STREAM`, `drop_column COLUMN` | `ok` |
//! | `last`, `disagree` | the number |
//!
//! What is none of these, or what the table cannot be asked, is answered `no such call`.
ghost use Rattle.pdc_table.specs.Content.{streams_of};
ghost use Rattle.std.specs.Prelude.{◌≡◌, ◌<◌, IsTrue};

use crate::blocks::{ONE_PHASOR, name_of, named};
use arrayvec::ArrayVec;
use pdc_row::DueRow;
use pdc_table::{HeldBox, PutOutcome, RowLayout, Table, WaitRule, spare_row};
use std::alloc::{AllocError, Global};
use std::fmt::Write;
use try_script::{Player, numbers};

/// A table, and its sizes.
#[derive(Drop)]
pub struct TablePlayer<T: Table> {
    table: T,
    columns: usize,
    lanes: usize,
    /// The row that is popped into, every other time.
    row: HeldBox<DueRow>,
    is_in_place: bool,
    ghost columns_kept: { (T.content table).columns ≡ columns },
    ghost lanes_kept: { (T.content table).lanes ≡ lanes },
}

impl<T: Table> TablePlayer<T> {
    /// A table of one column and one lane.
    ///
    /// # Errors
    ///
    /// [`AllocError`] where there is no room and none is got.
    pub fn new(alloc: Global) -> Result<Self, AllocError> {
        Ok(TablePlayer {
            table: T::new(alloc, 8, 1, 1, 0)?,
            columns: 1,
            lanes: 1,
            row: spare_row(alloc)?,
            is_in_place: false,
        })
    }

    fn renew(&mut self, alloc: Global, sizes: [u64; 4]) -> Result<bool, AllocError> {
        let [window, columns, lanes, floor] = sizes;
        if window < 8 || window > 256 || columns < 1 || columns > 16 || lanes < 1 || lanes > 2 {
            return Ok(false);
        }
        let columns = columns as usize;
        let lanes = lanes as usize;
        *self = TablePlayer {
            table: T::new(alloc, window, columns, lanes, floor)?,
            columns,
            lanes,
            row: spare_row(alloc)?,
            is_in_place: false,
        };
        Ok(true)
    }

    fn pop(&mut self, alloc: Global) -> Result<String, AllocError> {
        self.is_in_place = !self.is_in_place;
        if !self.is_in_place {
            return match self.table.pop_due() {
                Some(row) => row_text(alloc, &row),
                None => "none".to_string(alloc),
            };
        }
        if self.table.pop_into(&mut self.row) {
            row_text(alloc, self.row.get())
        } else {
            "none".to_string(alloc)
        }
    }

    fn has_stream(&self, stream: usize) -> bool
        ensures { IsTrue result → stream < streams_of (T.content self.now.table) }
    {
        if self.lanes == 1 {
            stream < self.columns
        } else {
            stream < 2
        }
    }

    /// A put of one lane.
    fn put_alone(
        &mut self,
        stream: usize,
        instant: u64,
        quality: u8,
        blocks: &[&str],
    ) -> Option<PutOutcome> {
        if self.lanes != 1 || stream >= self.columns {
            return None;
        }
        match blocks {
            [] => Some(self.table.put(stream, instant, &[], quality)),
            [block] => {
                let cells = [(stream, named(block)?)];
                Some(self.table.put(stream, instant, &cells, quality))
            }
            _ => None,
        }
    }

    /// A put of two lanes, for the first column and the last.
    fn put_pair(
        &mut self,
        lane: usize,
        instant: u64,
        quality: u8,
        blocks: &[&str],
    ) -> Option<PutOutcome> {
        if self.lanes != 2 || self.columns < 2 || lane >= 2 {
            return None;
        }
        let last = self.columns - 1;
        match blocks {
            [".", second] => {
                let cells = [(last, named(second)?)];
                Some(self.table.put(lane, instant, &cells, quality))
            }
            [first, second] => {
                let cells = [(0, named(first)?), (last, named(second)?)];
                Some(self.table.put(lane, instant, &cells, quality))
            }
            _ => None,
        }
    }

    fn put(
        &mut self,
        stream: &str,
        instant: &str,
        quality: &str,
        blocks: &[&str],
    ) -> Option<PutOutcome> {
        let stream = stream.parse().ok()?;
        let instant = instant.parse().ok()?;
        let quality = quality.parse().ok()?;
        if self.lanes == 1 {
            self.put_alone(stream, instant, quality, blocks)
        } else {
            self.put_pair(stream, instant, quality, blocks)
        }
    }

    fn require(&mut self, stream: &str, is_required: bool) -> Option<bool> {
        let stream = stream.parse().ok()?;
        let is_there = self.has_stream(stream);
        if is_there {
            self.table.require(stream, is_required);
        }
        Some(is_there)
    }

    fn drop_stream(&mut self, stream: &str) -> Option<bool> {
        let stream = stream.parse().ok()?;
        let is_there = self.has_stream(stream);
        if is_there {
            self.table.drop_stream(stream);
        }
        Some(is_there)
    }

    fn drop_column(&mut self, column: &str) -> Option<bool> {
        let column = column.parse().ok()?;
        let is_there = column < self.columns;
        if is_there {
            self.table.drop_column(column);
        }
        Some(is_there)
    }

    fn ticks(&mut self, times: &str, wait: &str, shapes: &str) -> Option<u64> {
        let times: u32 = times.parse().ok()?;
        let rule = wait_rule(wait)?;
        let layout = layout(shapes);
        let mut closed = 0_u64;
        for _ in 0..times {
            closed = closed.saturating_add(u64::from(self.table.tick(rule, &layout)));
        }
        Some(closed)
    }
}

/// The rule that the word is.
fn wait_rule(word: &str) -> Option<WaitRule> {
    match word.strip_prefix("until=") {
        Some("none") => Some(WaitRule::Until(None)),
        Some(limit) => Some(WaitRule::Until(Some(limit.parse().ok()?))),
        None => Some(WaitRule::Ticks(word.parse().ok()?)),
    }
}

/// The layout with the stamp (1, 2) and these columns.
fn layout(columns: &str) -> RowLayout {
    let mut shapes = ArrayVec::new();
    for column in columns.chars() {
        if !shapes.is_full() && column != '0' {
            shapes.push(if column == 'x' {
                Some(ONE_PHASOR)
            } else {
                None
            });
        }
    }
    RowLayout::new(1, 2, shapes)
}

fn append(text: &mut String, word: &str) -> Result<(), AllocError> {
    write!(text, " {word}")
}

fn append_number(text: &mut String, number: u32) -> Result<(), AllocError> {
    write!(text, " {number}")
}

fn row_text(alloc: Global, row: &DueRow) -> Result<String, AllocError> {
    let mut text = row.instant.to_string(alloc)?;
    append_number(&mut text, row.start)?;
    append_number(&mut text, row.change)?;
    append_number(&mut text, u32::from(row.quality))?;
    for block in &row.blocks.to_blocks() {
        append(&mut text, name_of(block))?;
    }
    Ok(text)
}

fn done(alloc: Global, is_done: Option<bool>) -> Result<String, AllocError> {
    let text = if is_done == Some(true) {
        "ok"
    } else {
        "no such call"
    };
    text.to_string(alloc)
}

fn outcome(alloc: Global, outcome: Option<PutOutcome>) -> Result<String, AllocError> {
    match outcome {
        Some(outcome) => format!(in alloc; "{outcome:?}"),
        None => done(alloc, None),
    }
}

fn number(alloc: Global, number: Option<u64>) -> Result<String, AllocError> {
    match number {
        Some(number) => number.to_string(alloc),
        None => done(alloc, None),
    }
}

impl<T: Table> TablePlayer<T> {
    /// What the call of these words is answered.
    fn answer(&mut self, alloc: Global, words: &[&str]) -> Result<String, AllocError> {
        match words {
            ["new", words @ ..] => match numbers::<4>(words) {
                Some(sizes) => {
                    let is_done = self.renew(alloc, sizes)?;
                    done(alloc, Some(is_done))
                }
                None => done(alloc, None),
            },
            ["require", stream] => done(alloc, self.require(stream, true)),
            ["free", stream] => done(alloc, self.require(stream, false)),
            ["put", stream, instant, quality, blocks @ ..] => {
                outcome(alloc, self.put(stream, instant, quality, blocks))
            }
            ["tick", wait, shapes] => number(alloc, self.ticks("1", wait, shapes)),
            ["ticks", times, wait, shapes] => number(alloc, self.ticks(times, wait, shapes)),
            ["pop"] => self.pop(alloc),
            ["drop_stream", stream] => done(alloc, self.drop_stream(stream)),
            ["drop_column", column] => done(alloc, self.drop_column(column)),
            ["last"] => number(alloc, Some(self.table.last())),
            ["disagree"] => number(alloc, Some(self.table.disagree())),
            _ => done(alloc, None),
        }
    }
}

impl<T: Table> Player for TablePlayer<T> {
    fn play(&mut self, alloc: Global, call: &str) -> Result<String, AllocError> {
        let words: Vec<&str> = call.split_whitespace().collect(alloc)?;
        self.answer(alloc, &words)
    }
}
