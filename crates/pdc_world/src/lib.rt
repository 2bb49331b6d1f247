//! A world of two nodes, a merger and the network between them, as a program: whatever the network loses, repeats and
//! reorders, and whenever cores stop, it is played event by event.
//!
//! The first type to look at is [`World`]. It keeps the three cores with their marks, each in its present life, and all that was ever
//! sent and published.
//!
//! To the layers above this crate promises that a world begins with the empty history, or tells why it does not, and that one which holds
//! a history, as `pdc_history` defines histories, holds one after each step: a step makes what the event makes happen and replies what is
//! told of it, or tells the cause for which it may not happen and changes nothing. It wants memory only where there is no cause, and none
//! where room was made, but for a stop. So all that holds of histories holds of what such a world sent and published.
//!
//! That is the headline, as a reader of the streams sees it: the instants of each owner rise over all its lives, a frame's blocks are
//! absent or what their PMU sent for its instant, a block is present exactly where one was given in time, and any two frames for one
//! instant agree. It stands here as laws over a [`World`], which do nothing when they are called; `specs/Seen.antt` has its words, and
//! [`headline_holds`] says all of it. A world is changed by its steps alone, so what holds of every world holds before and after each.
#![tactic(auto)]

mod act;
mod agree;
mod arrivals;
mod headline;
mod known;
mod laws;
mod ledger;
mod named;
mod opening;
mod play;
mod plays;
mod publishes;
mod receiver;
mod sends;
mod stops;
mod ticks;
mod world;

pub use headline::{headline_holds, play_under_headline};
pub use laws::{
    blocks_are_present_exactly_where_given, frames_agree, instants_rise, merged_blocks_are_genuine,
    node_blocks_are_genuine, pmus_send_one, stamps_have_one_layout,
};
pub use opening::Leads;
pub use world::World;
