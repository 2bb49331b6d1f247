//! Frames of IEEE C37.118.2-2011: the fields that every message has (6.2), its check word (annex B), the frames of a
//! stream of bytes, and the two kinds of messages that are small: commands (6.6) and headers (6.5).
//!
//! To the layers above this crate promises that the bytes of a frame and its fields say the same: what is read is
//! spelled so, what is spelled so is read with exactly those fields, and what is written is that spelling. A stream is
//! cut into its frames in one way, in whatever pieces it comes. A frame carries one command or text, or has one fault.
//!
//! Begin with [`Frame`], whose type keeps the ranges of its fields. A [`Framer`] finds the frames of a stream, a
//! [`Buffer`] is what frames are appended to, and a [`Command`] is what a sender of data is told.
//!
//! A frame says when it was measured by a second (SOC) and a count of parts of it (FRACSEC, of `TIME_BASE` parts a
//! second; 6.2). An *instant* is the number of the frame since SOC 0 at a fixed rate. What is said of nearness and of tags
//! that belong to no frame is this profile's rule: `instant` gives the instant of the grid point nearest to a tag, if the
//! tag is less than one count off it, and the instant of the tag that `tag_of` gives is the instant again.
//!
//! A call of a law, as of `frames_are_written_in_parts`, does nothing: the proof of the function around it cites the law.
#![tactic(auto)]

mod buffer;
mod claim;
mod command;
mod command_fault;
mod command_laws;
mod fault;
mod frame;
mod framer;
mod fronts;
mod header;
mod held;
mod id;
mod laws;
mod limits;
mod nearest;
mod reading;
mod second;
mod slots;
mod step;
mod stream;
mod tag_laws;
mod tag_limits;
mod tags;
mod writing;

pub use buffer::Buffer;
pub use claim::{Claim, LentClaim, read_claimed};
pub use command::{COMMAND_SIZE, Command, read_command, write_command};
pub use command_fault::CommandFault;
pub use command_laws::{commands_are_read_in_one_way, headers_are_read_in_one_way};
pub use fault::FrameFault;
pub use frame::{Frame, Kind};
pub use framer::Framer;
pub use header::{MAX_TEXT, read_header, write_header};
pub use id::StreamId;
pub use laws::{
    frames_are_read_in_one_way, frames_are_written_in_parts, spellings_stand_apart,
    streams_split_in_one_way,
};
pub use limits::{
    CHECK_LEN, HEADER_LEN, MAX_FRAC, MAX_ID, MAX_PAYLOAD, MAX_SIZE, MAX_VERSION, OVERHEAD,
};
pub use pdc_words::{
    CheckedFront, FRONT_LEN, FrontDifference, LentFront, check_word, check_word_is_the_remainder,
    check_word_of_other, check_words_are_linear, moved_past, parts_keep_their_words, power_past,
    read_long, read_word, words_are_their_bytes,
};
pub use reading::read_frame;
pub use second::Second;
pub use slots::{instant, slot};
pub use step::Step;
pub use stream::frames_of;
pub use tag_laws::{instant_is_nearest, slot_is_nearest, tag_comes_back, tag_is_nearest};
pub use tag_limits::{COUNT_LIMIT, MAX_RATE, SECONDS};
pub use tags::tag_of;
pub use writing::{begin_frame, end_frame, write_ends, write_fields, write_frame};
