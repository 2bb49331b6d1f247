//! The pipe of a concentrator: published frames go from the aligner through a channel to the sender, and from the sender to a sink.
//!
//! The first type to look at is [`Message`], which keeps in its type what it is; [`channel`] makes a channel with its two ends, and
//! [`send_out`] is the sender, which hands each frame to an [`Outlet`] with what it is.
//!
//! The promise to the layers above: the channel keeps its order and loses nothing, nothing comes after the end mark, and what the sink
//! took is a prefix of what was put.
#![tactic(auto)]

mod ends;
mod message;
mod outlet;
mod pipe;
mod senders;
mod spares;
mod writer;

pub use ends::{Ends, HandsOn, Sent, channel, send_owned, settle};
pub use message::{LayoutFrame, Message};
pub use outlet::Outlet;
pub use pdc_memory::HeldBox;
pub use pdc_ports::{Sink, SinkFault};
pub use pdc_publisher::PublishedRow;
pub use pipe::{CAPACITY, InOrder, Log, Receiver, Sender, close, put, take_next};
pub use senders::{Ended, send_out};
pub use spares::{Returns, Spares};
pub use writer::Writer;
