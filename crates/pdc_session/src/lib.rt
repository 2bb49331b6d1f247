//! Sessions, from both ends: a consumer asks by command frames for the header, the configuration and the data of a stream.
//!
//! To the layers above this crate promises that for every way to cut the input, a session's replies are, in order, those to each whole
//! command frame of its stream, up to the first fault or the first want of memory. [`Session`] is the type to look at first.
//!
//! [`Pdc`] is the client, over any reader and writer: each call returns after at most [`MAX_FRAMES`] frames and [`MAX_READS`] reads, what
//! it answers is the next frame of its stream that was asked for, and a fault stays. It reads and writes through [`Counting`]. Its pieces,
//! a command on its way out and the bytes that were read ahead, serve whoever asks and reads in turns of his own.
#![tactic(auto)]

mod client;
mod client_fault;
mod client_laws;
mod counting;
mod fault;
mod keeping;
mod laws;
mod recent;
mod search;
mod serving;
mod session;
mod subscription;
mod telling;
mod unread;

pub use client::Pdc;
pub use client_fault::ClientFault;
pub use client_laws::an_answer_is_bounded;
pub use counting::Counting;
pub use fault::SessionFault;
pub use keeping::end_if_gone;
pub use laws::pieces_do_not_matter;
pub use pdc_memory::copy_of;
pub use recent::{Frames, KEPT_FRAMES};
pub use search::{MAX_FRAMES, MAX_READS};
pub use serving::Serving;
pub use session::Session;
pub use subscription::Subscription;
pub use telling::{command_frame, tell};
pub use unread::{Unread, blank_piece};
