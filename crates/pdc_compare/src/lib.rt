//! The files of records, read entry by entry with one file in memory at a time; and the records of a pair and its merger compared, instant by
//! instant: which of them had which block, and whether all agree.
//!
//! The first type to look at is [`Files`], which hands on the entries of a record; [`Comparison`] compares records, each of which is replayed
//! as it is read.
//!
//! Its promise: it returns whatever it is given, and knows no system: whoever asks opens the files ([`Opens`]) and prints what is said. What is
//! wrong with a file is a value with its name ([`Fault`]).
#![tactic(auto)]

mod comparison;
mod entries;
mod files;
mod grouping;
mod record;
mod verdict;

pub use comparison::Comparison;
pub use entries::{Entries, Unread};
pub use files::{Fault, Files, Opens, Takes, Walked, Wrong};
pub use grouping::{Grouped, Misfit, Owned, Owner, files_of_each, group_files};
pub use record::{halt_text, tell_unplayed, text_of};
pub use verdict::Verdict;
