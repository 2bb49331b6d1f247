//! The log of a running core, which stands in contracts alone: of it only the number of its steps is stored.
//!
//! The first type to look at is [`Log`], which lies under the lock; a caller has a [`Front`], a beginning of the log that it has seen.
//!
//! The promise to the layers above: there is one log. Each step is added behind all that are there, and what a caller has seen begins it.
#![tactic(auto)]

mod log;

pub use log::{Add, Arriving, Front, Log, Logged, Noted, Popping, Ticking};
