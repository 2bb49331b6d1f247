//! What a running concentrator tells of itself on standard error while it runs.
//!
//! The first type to look at is [`Journal`]: a queue of lines that a thread of its own prints, so that whoever does not read standard error
//! holds up nobody else. [`ObservedSource`] tells when a stream falls silent, comes again or is not understood, and counts its answers in
//! its [`Tally`]; [`CountingSink`] counts what could not be sent, and goes on; [`AnnouncingSink`] tells each layout that was adopted;
//! [`LeftOut`] counts what the merger leaves out; [`Reporting`] tells the counters now and then; [`Measured`] keeps how the run stands for
//! those who ask.
//!
//! The promise to the layers above: none of them changes what it is put around. A source gives what the inner one gave, a sink is handed
//! what the inner one is, a ticker ticks as the inner one does. Lines wait in the order in which they are told, and each comes out
//! once; that they are printed no clause says.
#![tactic(auto)]

mod announcing_sink;
mod complaint;
mod counters;
mod counting_sink;
mod head;
mod hearing;
mod histogram;
mod journal;
mod left_out;
mod lines;
mod measured;
mod missing;
mod moment;
mod observed_source;
mod opening;
mod output_tally;
mod presence;
mod reporting;
mod spell;
mod tags;
mod tally;
mod watchers;

pub use announcing_sink::{AnnouncingSink, Followers};
pub use complaint::{CauseComplaints, Complaints};
pub use counters::{
    counters_line, left_out_line, lost_line, missing_line, output_line, strangers_line, tally_line,
};
pub use counting_sink::CountingSink;
pub use head::{change_in, is_data};
pub use hearing::Hearing;
pub use histogram::{BOUNDS, Histogram};
pub use journal::Journal;
pub use left_out::{Compared, LeftOut, MAX_SOURCES, MergedSource};
pub use measured::{Measured, MeasuredSource, Standing};
pub use missing::Missing;
pub use moment::Moment;
pub use observed_source::ObservedSource;
pub use opening::Opening;
pub use output_tally::OutputTally;
pub use pdc_complaints::{Expected, Of};
pub use pdc_ports::Refusal;
pub use presence::{News, Presence};
pub use reporting::{Reporting, RunCounters};
pub use tags::Tags;
pub use tally::Tally;
pub use watchers::Watchers;
