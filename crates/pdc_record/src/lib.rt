//! The record of a life: what arrived, ticked, was popped, published and laid, entry by entry, with the number of each step and its time.
//!
//! The first type to look at is [`Entry`]. [`write_entry`] appends the bytes of one, and [`read_entry`] reads the one that bytes begin with.
//!
//! The promise to the layers above: the format is one definition, by which entries are read and written in one way: what is written reads
//! back as the same entry, whatever follows; what is read is the entry whose bytes these are; and a check word lies over each.
#![tactic(auto)]

mod answer;
mod begun;
mod bodies;
mod entry;
mod fixed;
mod laws;
mod limits;
mod reading;
mod starts;
mod words;
mod writing;

pub use begun::{Begun, Role};
pub use entry::{Entry, What};
pub use laws::entries_are_read_in_one_way;
pub use limits::{MAX_REST, VERSION};
pub use pdc_life::{CfgFault, FrameFault, MAX_PMUS, Outcome, Refusal};
pub use reading::{Unread, read_entry};
pub use writing::{WriteFault, entry_len, write_entry};
