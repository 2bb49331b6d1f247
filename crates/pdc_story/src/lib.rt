//! What was recorded of each instant of a life: which data came for it and what that was answered, when its row opened, at which tick and under
//! which sections it closed, and what the frame of it shows.
//!
//! The first type to look at is [`Follower`], which takes the entries of a record and gives the [`Story`] of each instant. It does not play the
//! life again: it goes by what was recorded, so it serves a record whose first file is gone all the same.
//!
//! The promise to the layer above: it returns whatever it is given, and follows at most 2048 instants at once.
#![tactic(auto)]

mod about;
mod followed;
mod follower;
mod gap;
mod moments;
mod sections;
mod stories;
mod story;
mod wanted;

pub use about::{About, Unexplained};
pub use follower::Follower;
pub use gap::{Gap, Hold};
pub use moments::{instant_near, print_span, print_time, time_of};
pub use sections::{Held, InForce};
pub use story::{Adopted, Arrived, Came, Cell, Cells, Closed, Opened, RefusedConfig, Story};
pub use wanted::{Selection, wanted_of};
