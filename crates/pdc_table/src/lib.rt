//! The alignment table of a concentrator: the rows of the instants that wait for data, and the rows that are closed.
//!
//! `Table` is the contract of every table: what each call answers, and what it makes of the table's content, which is a
//! finite record that knows nothing of how the rows are kept. `RingTable` keeps each at the remainder of its instant by the window.
//!
//! To the layers above this crate promises that a row closes exactly when every open instant up to its own is due, that
//! it holds the first block taken for each column, and that no call but `new` takes memory.
#![tactic(auto)]

mod ages;
mod bodies;
mod circle;
mod closing_layout;
mod copied;
mod front;
mod laid;
mod laws;
mod ring;
mod ring_closing;
mod ring_table;
mod rows;
mod spare;
mod streams;
mod table_trait;

pub use bodies::{Room, cut_bodies, new_room};
use closing_layout::ClosingLayout;
pub use front::is_near;
pub use laid::laid_out;
pub use laws::{
    ages_are_ticks, blocks_stand_in_their_columns, cells_are_first_puts, instants_open_where_taken,
    rows_close_where_due, rows_come_out_rising,
};
pub use pdc_open_row::{
    Blocks, CheckedFront, CopyFrom, Cut, DueRow, Held, HeldBox, KnownFront, LentFront, Listed,
    MAX_COLUMNS, MAX_LANES, MAX_WINDOW, MIN_WINDOW, OpenRow, Part, Places, PutOutcome, RowBlocks,
    RowLayout, Shapes, WaitRule, copy_block, copy_each, copy_items, falses,
};
pub use ring_table::RingTable;
pub use spare::spare_row;
pub use streams::{lane_of, stream_count};
pub use table_trait::Table;
