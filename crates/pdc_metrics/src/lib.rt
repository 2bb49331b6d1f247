//! Counters of a running concentrator for monitoring, at `/metrics` in the text format that Prometheus reads (version 0.0.4).
//!
//! [`serve_metrics`] is the one call: it serves them until the run ends. [`Metered`] is what they are read from; nobody who takes or sends
//! frames waits for who asks.
//!
//! [`serve_many`] is the HTTP server below it, of many connections on one thread, none of which waits for another; the page of a pair is
//! served by it too. What a request is and how it is answered is the kit's `http_server`; a peer that says nothing, says it slowly or does
//! not read is left after three seconds, and the one after the 256th waits until one of them has gone.
//!
//! [`is_own_request`] tells requests that name this machine's loopback from those that name another host, which neither server answers.
#![tactic(auto)]

mod drops;
mod families;
mod http_serving;
mod metered;
mod own_files;
mod own_host;
mod process;
mod recorded;
mod report;
mod serving;
mod site;
mod stores;
mod time;

pub use drops::StreamPort;
pub use http_serving::serve_many;
pub use metered::Metered;
pub use own_files::OwnFiles;
pub use own_host::{is_own_host, is_own_name, is_own_request, loopback_port};
pub use recorded::MeteredRecord;
pub use report::metrics_text;
pub use serving::serve_metrics;
pub use stores::Stores;
