//! The world: two nodes, the merger and a network that loses, repeats and reorders, as the history of what happened in it.
//!
//! A history is the list of what happened, newest first, and all else is recursion over it: the life of each
//! core, the mark that it has stored, the frames that were ever sent and the rows that were published. An event makes the next
//! thing happen, and a history is what events made that may happen: a PMU sends one body for one instant and one section under one
//! count, and what comes to a core as a frame of one of its streams was sent.
//!
//! The first definition to look at is `specs/World.antt`, and the first law [`marks_bound_lives`].
//!
//! Beside the laws stand the words in which a world that runs is spoken to: an [`Event`] that is handed in has the lifetime of the bytes
//! that it brings, and is answered by a [`Reply`], or by a [`Fault`] with which nothing has changed. [`Sent`] keeps all frames that were
//! ever sent: each is in two of 65536 buckets, by its check word and by what it tells, so that neither whether a PMU told otherwise
//! before nor whether a frame was sent is searched for among all.
//!
//! To the layers above this crate promises what holds of every history: the instants that each owner publishes rise over all its
//! lives; each block in a frame is absent or was sent by its PMU for that instant; and any two frames for one instant agree. And a frame
//! is taken among those that were sent exactly where its sending may happen after all of them, and else refused for the cause that the
//! definitions of the world give.
#![tactic(auto)]

mod act;
mod buckets;
mod chains;
mod event;
mod event_fault;
mod frames;
mod judging;
mod key;
mod known;
mod laws;
mod looking_up;
mod reply;
mod send_fault;
mod sent;
mod sent_laws;
mod told;
mod who;

pub use act::{Act, StopAt, Storing};
pub use event::Event;
pub use event_fault::{Fault, Premise, WorldFault};
pub use laws::{
    asked_is_event_or_fault, events_make_histories, frames_agree, instants_rise, lives_are_lives,
    marks_bound_lives, merged_blocks_are_genuine, node_blocks_are_genuine, pmus_send_one,
    stamps_have_one_layout, waiting_is_whole,
};
pub use pdc_memory::{make_room, with_room};
pub use reply::{Published, Reply};
pub use send_fault::SendFault;
pub use sent::Sent;
pub use sent_laws::{frames_follow_histories, others_send_frames_of_none};
pub use who::Who;
