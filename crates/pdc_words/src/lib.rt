//! Numbers on the wire, and the check word over bytes (C37.118.2-2011, 6.2 and annex B).
//!
//! To the layers above this crate promises that a number and its bytes say the same, and that the check word is the remainder
//! of the bytes' polynomial: there is one, it is computed, and in what bytes of one length differ their check words differ in one way.
//! So the check word of a frame follows from that of another which differs from it in a few bytes.
//!
//! A call of a law, as of `words_are_their_bytes`, does nothing: the proof of the function around it cites the law.
#![tactic(auto)]

mod crc;
mod crc_behind;
mod crc_moved;
mod fronts;
mod lanes;
mod laws;
mod words;

pub use crc::check_word;
pub use crc_behind::{BYTES_BEFORE_PAYLOAD, check_word_behind, check_word_of_parts};
pub use crc_moved::{check_word_of_other, moved_past, power_past};
pub use fronts::{CheckedFront, FRONT_LEN, FrontDifference, LentFront, PART_LEN};
pub use laws::{
    check_word_is_the_remainder, check_words_are_linear, parts_keep_their_words,
    words_are_their_bytes,
};
pub use words::{read_long, read_word};
