//! What a running concentrator has of the world outside: a [`Source`] of datagrams, a [`Sink`] of frames, and a [`Ticker`].
//!
//! Threads, sockets and tests meet these three; so what sends by UDP needs no threads, and the threads no UDP. The promise to the
//! layers above is in the contracts of the traits: whatever meets them, a datagram lies within its buffer, a source does not give
//! datagrams for ever without a pause, a sink may tell what it took, and a failure is counted.
#![tactic(auto)]

mod numbered;
mod sink;
mod source;
mod ticker;

pub use numbered::Numbered;
pub use pdc_arrival::{Counts, MAX_PMUS, Outcome, Refusal};
pub use sink::{MemorySink, Sink, SinkFault};
pub use source::{Next, Source};
pub use ticker::{Did, Progress, Ticker};
