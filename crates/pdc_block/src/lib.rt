//! Data blocks of IEEE C37.118.2-2011 (6.3) with their STAT word (table 7), in 16-bit formats, and the block that stands for a PMU
//! whose data did not come.
//!
//! To the layers above this crate promises that the bytes of a block are its words, and that a data payload is the
//! blocks of its sections, one after the other. It promises the absent words of each shape as well: a block with exactly these words is
//! absent, whoever sent it, and any other block is present. [`Block`] is the type to look at first.
//!
//! A call of a law, as of `words_are_their_bytes`, does nothing: the proof of the function around it cites the law.
#![tactic(auto)]

mod absent_block;
mod block;
mod body;
mod fault;
mod in_place;
mod laws;
mod reading;
mod stat;
mod writing;

pub use absent_block::{ABSENT_STAT, NO_VALUE, absent, are_absent, is_absent};
pub use block::Block;
pub use body::Body;
pub use fault::BodyFault;
pub use laws::{bodies_are_their_words, payloads_are_cut_in_one_way, words_are_cut};
pub use pdc_cfg::{
    Buffer, CHECK_LEN, CfgFault, CheckedFront, Claim, ConfigView, FRONT_LEN, Frame, FrameFault,
    FrontDifference, HEADER_LEN, Kind, LentClaim, LentFront, MAX_SECTION_LEN, MAX_WORDS, OVERHEAD,
    Second, Section, SectionView, Shape, StreamId, begin_frame, configurations_are_read_in_one_way,
    end_frame, frames_are_read_in_one_way, frames_are_written_in_parts, instant,
    instant_is_nearest, read_claimed, read_config, read_frame, read_word, tag_is_nearest, tag_of,
    write_config, write_ends, write_fields,
};
pub use reading::{cut, read_body};
pub use stat::{ErrorClass, Stat};
pub use writing::{append_blocks, append_words, join, joined_len};
