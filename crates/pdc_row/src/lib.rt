//! The row of an instant: a block for each PMU, and how good the clocks were that dated them.
//!
//! Here stand the words that a table of rows, the life of a node and the frames of a concentrator share: what a cell and a
//! row show, which block is chosen, the quality of a row, and numbers in rising order. And here rows and layouts become the
//! data and configuration frames that a concentrator publishes.
//!
//! To the layers above this crate promises the ranges of a closed row: at most 16 blocks, and a quality of at most 15; and that
//! the frame of a row, and that of a layout, is the one that the definitions spell.
#![tactic(auto)]

mod absent;
mod beside;
mod block_copy;
mod copied;
mod due_row;
mod known_front;
mod last_row;
mod laws;
mod layout_frame;
mod limits;
mod offered;
mod output;
mod output_laws;
mod present;
mod room;
mod row_blocks;
mod row_frame;
mod section;
mod shapes;
mod stamp;

pub use beside::{Beside, check_beside};
pub use block_copy::copy_block;
pub use copied::{CopyFrom, copy_each};
pub use due_row::DueRow;
pub use known_front::KnownFront;
pub use last_row::LastRow;
pub use laws::numbers_rise;
pub use layout_frame::append_layout;
pub use limits::{MAX_PMUS, MAX_WINDOW, MIN_WINDOW};
pub use offered::Offered;
pub use output::{Nominal, Output};
pub use output_laws::{layouts_are_frames, own_sections_tell_stamps, rows_are_frames};
pub use pdc_block::{
    Block, Body, Buffer, CHECK_LEN, CfgFault, CheckedFront, Claim, ConfigView, FRONT_LEN, Frame,
    FrameFault, FrontDifference, HEADER_LEN, Kind, LentClaim, LentFront, MAX_SECTION_LEN, OVERHEAD,
    Section, SectionView, Shape, StreamId, append_words, begin_frame, bodies_are_their_words,
    configurations_are_read_in_one_way, end_frame, frames_are_read_in_one_way,
    frames_are_written_in_parts, instant, instant_is_nearest, read_body, read_claimed, read_config,
    read_frame, read_word, words_are_cut, write_config, write_ends, write_fields,
};
pub use present::is_present;
pub use room::RowEnds;
pub use row_blocks::{MAX_BLOCKS_LEN, MAX_CUT, RowBlocks};
pub use row_frame::{MAX_ROW_LEN, OWN_BLOCK_LEN, append_row, ends_of};
pub use section::own_section;
pub use shapes::Shapes;
