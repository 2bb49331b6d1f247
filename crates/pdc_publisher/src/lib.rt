//! Publishing: the data frame of each closed row goes out, and before it the floor of the mark is raised, so that no later
//! life publishes the instant again.
//!
//! The first type to look at is [`Publisher`]. It reserves some instants ahead, so that most frames need no store: a restart
//! then loses at most the instants reserved.
//!
//! To the layers above this crate promises that what is published is the data frame of its row, and that the stored floor is
//! then at or above its instant.
#![tactic(auto)]

mod fault;
mod framing;
mod published;
mod published_row;
mod publisher;
mod stops;

pub use fault::PublishFault;
pub use pdc_memory::HeldBox;
pub use published::Published;
pub use published_row::PublishedRow;
pub use publisher::{MAX_LEAD, Publisher};
