//! The columns of a row that is open: which lanes of each hold a cell, and the blocks of each lane.
//!
//! `Columns` takes the blocks of a frame wherever their words lie (`Blocks`), whole where they are laid out as its own, and gives them to the
//! row that goes out under a layout (`RowLayout`).
//!
//! To the layers above this crate promises that columns hold in each lane the block that was put there last, and that they give the block
//! of the lowest lane that is present.
#![tactic(auto)]

mod blocks;
mod column;
mod columns;
mod giving;
mod items;
mod laid;
mod lanes;
mod limits;
mod parts;
mod row_blocks;
mod row_layout;
mod whole;

pub use blocks::{Blocks, Listed};
pub use columns::Columns;
pub use items::copy_items;
pub use limits::{MAX_COLUMNS, MAX_LANES};
pub use parts::{Cut, Part};
pub use pdc_memory::{Held, HeldBox, HeldQueue};
pub use pdc_row::{
    Block, Body, CheckedFront, CopyFrom, DueRow, KnownFront, LentFront, MAX_WINDOW, MIN_WINDOW,
    RowBlocks, Shape, Shapes, copy_block, copy_each, numbers_rise, words_are_cut,
};
pub use row_blocks::WORST_QUALITY;
pub use row_layout::RowLayout;
