//! The places of a concentrator's sessions: who has one, who gives way where all are taken, and who hears of it.
//!
//! The type to look at first is [`Seats`]: of each place that is taken, since when its consumer has neither sent nor got anything. [`Porter`]
//! hears that all are taken, and of consumers that are disconnected, each with why ([`Leaving`]).
//!
//! To the layers above this crate promises which consumer gives way, by how long each has been silent. What threads do with the places is tried
//! by `tests/places`.
#![tactic(auto)]

mod porter;
mod seats;
mod silence;

pub use porter::{Leaving, Porter};
pub use seats::Seats;
pub use silence::{Silence, gives_way, longest};
