//! What became of an instant, in words: of each PMU whether it was shown, and why not; when the row opened, what it waited for, at which tick it
//! closed and when its frame went out. And over a whole record, which instants had an absent block, and how late the data of each stream
//! came and what that added.
//!
//! The first type to look at is [`Follower`], which takes the entries of a record and gives the [`Story`] of each instant; [`tell_story`]
//! tells one, and [`Delays`] has the spread of delays.
//!
//! Its promise: it returns whatever it is given. What the lines look like is shown by tests alone.
#![tactic(auto)]

mod cause;
mod delays;
mod lanes;
mod last_to_come;
mod ranges;
mod row_lines;
mod spread;
mod story_lines;
mod tally;
mod texts;

pub use delays::{Delays, tell_delays};
pub use pdc_story::{
    About, Follower, Gap, Selection, Story, Unexplained, print_time, time_of, wanted_of,
};
pub use story_lines::tell_story;
pub use tally::Tally;
pub use texts::print_gap;
