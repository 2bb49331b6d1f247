//! Configurations of IEEE C37.118.2-2011: frames CFG-1 and CFG-2 (6.4), in 16-bit formats.
//!
//! To the layers above this crate promises that a configuration is its sections: each is kept byte for byte, and what
//! is read of it stands at its place in these bytes. [`ConfigView`] and [`SectionView`] are the types to look at first.
//!
//! A call of a law, as of `words_are_their_bytes`, does nothing: the proof of the function around it cites the law.
#![tactic(auto)]

mod config;
mod fault;
mod laws;
mod limits;
mod reading;
mod section;
mod section_reading;
mod shape;
mod writing;

pub use config::{ConfigView, MAX_SECTIONS, MAX_TIME_BASE};
pub use fault::CfgFault;
pub use laws::configurations_are_read_in_one_way;
pub use pdc_frame::{
    Buffer, CHECK_LEN, CheckedFront, Claim, FRONT_LEN, Frame, FrameFault, FrontDifference,
    HEADER_LEN, Kind, LentClaim, LentFront, OVERHEAD, Second, StreamId, begin_frame, end_frame,
    frames_are_read_in_one_way, frames_are_written_in_parts, instant, instant_is_nearest,
    parts_keep_their_words, read_claimed, read_frame, read_word, tag_is_nearest, tag_of,
    words_are_their_bytes, write_ends, write_fields,
};
pub use reading::read_config;
pub use section::{MAX_SECTION_LEN, Section, SectionView};
pub use shape::{MAX_ANALOGS, MAX_DIGITALS, MAX_PHASORS, MAX_WORDS, Shape};
pub use writing::write_config;
