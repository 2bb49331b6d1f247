//! The running core of a concentrator, node or merger: receivers side by side round one lock, one aligner that alone owns the mark, and
//! one sender that alone has the sink.
//!
//! The first call to look at is [`run`]. What goes from the aligner to the sender is a [`Message`], through the channel of `pdc_pipe`.
//!
//! The promise to the layers above: what the sink took is a prefix of what the aligner put, whose instants strictly rise, lie above the
//! floor that was stored before, and are at most the floor that is stored then. What these frames are, in terms of what the sources gave,
//! is the law [`runs_keep_headline`].
#![tactic(auto)]

mod asking;
mod crew;
mod delivered;
mod laws;
mod outside;
mod receivers;
mod runs;
mod totals;

pub use crew::{Crew, Finished, Ran};
pub use laws::runs_keep_headline;
pub use outside::{Beside, Outside};
pub use pdc_aligner::{Aligned, Aligner, Pace, align, tick_cleared};
pub use pdc_hub::{
    Blanks, Hub, HubFault, Inlet, Intake, Ledgers, Naming, Pops, Received, Shares, TopIn, receive,
};
pub use pdc_pipe::{
    CAPACITY, Ended, InOrder, LayoutFrame, Log, Message, Outlet, Receiver, Sender, send_out,
};
pub use pdc_ports::{
    Counts, Did, MemorySink, Next, Numbered, Outcome, Progress, Sink, SinkFault, Source, Ticker,
};
pub use receivers::{Counted, Input};
pub use runs::run;
pub use totals::Totals;
