//! The merger of a concentrator pair: it takes the published frames of both nodes and gives one row for each instant, so
//! that one node may be lost and no reader downstream sees it.
//!
//! The first type to look at is [`Merger`]: settings, an alignment of two lanes, the layouts that are held of both nodes, and counts of
//! how arrivals were answered. Its calls are those of a [`Core`].
//!
//! The promise to the layers above: for every life that a merger stands for, each call answers as the life does, and the merger then
//! stands for the life with that step more. No call after [`Merger::open`] takes memory, save a layout for which there is no room.
#![tactic(auto)]

mod answering;
mod arriving;
mod cells;
mod held_layout;
mod in_force;
mod layouts;
mod merger;
mod opens;

pub use merger::Merger;
pub use opens::copy_of_merger;
pub use pdc_core::{Core, CoreStep, KeptArrival, Reads, Reply};
