//! The row of an instant that is open: what was taken of each stream, and when it closes, and to what.
//!
//! `OpenRow` is one row, whose owner keeps its age and its place among others: its `Columns`, and which streams were taken. It takes the
//! blocks of a frame wherever their words lie (`Blocks`), and closes under a layout (`RowLayout`).
//!
//! To the layers above this crate promises that a row holds the first block taken for each column, that it is due where each
//! required stream was taken or the wait is over, and that it closes to the block of the lowest lane that is present.
#![tactic(auto)]

mod open_row;
mod outcome;
mod streams;
mod wait_rule;

pub use open_row::{OpenRow, Places};
pub use outcome::PutOutcome;
pub use pdc_columns::{
    Block, Blocks, Body, CheckedFront, CopyFrom, Cut, DueRow, Held, HeldBox, HeldQueue, KnownFront,
    LentFront, Listed, MAX_COLUMNS, MAX_LANES, MAX_WINDOW, MIN_WINDOW, Part, RowBlocks, RowLayout,
    Shape, Shapes, WORST_QUALITY, copy_block, copy_each, copy_items, numbers_rise, words_are_cut,
};
pub use streams::falses;
pub use wait_rule::WaitRule;
