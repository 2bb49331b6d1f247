//! A station of the world: a core with its mark, over all its lives.
//!
//! The first type to look at is [`Station`]: it hears, ticks and publishes as the present life of its core does, by the `Publisher`
//! that nodes and mergers run: that raises its mark before each tick and each publish that needs it. A stop ends the life, and the station goes on with the next one. Each life, the
//! first one too, begins with what the mark then stores, and that is a start number of its own (`Opens` of `pdc_core`).
//!
//! To the layers above this crate promises that each call leaves the life and the mark that the definitions of the world have: a
//! tick is handed the counts of the raised mark, and a row goes out only once its instant is stored.
#![tactic(auto)]

mod begins;
mod fault;
mod laws;
mod next_row;
mod publishes;
mod station;
mod stops;

pub use fault::StopFault;
pub use laws::{calls_publish_what_was_popped, rows_are_published};
pub use station::Station;
