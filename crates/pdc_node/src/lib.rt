//! A node of a concentrator pair: it takes the streams of PMUs, aligns them by time tag and gives one row for each
//! instant.
//!
//! The first type to look at is [`Node`]: settings, an alignment, and counts of how arrivals were answered. Its calls are those of a
//! [`Core`].
//!
//! The promise to the layers above: for every life that a node stands for, each call answers as the life does, and the node then
//! stands for the life with that step more. No call after [`Node::open`] takes memory, save a layout for which there is no room.
#![tactic(auto)]

mod answering;
mod node;
mod opens;

pub use node::Node;
pub use opens::copy_of;
pub use pdc_arrival::{CAUSES, Counts, causes_are_told_apart};
pub use pdc_core::{Core, CoreStep, KeptArrival, Reads, Reply};
