//! What is wrong in settings, and what of several does not fit, before anything is run.
//!
//! The type to look at first is [`Outline`], what of the settings of a node or of the merger has to fit; [`findings`] says what is odd in
//! one, and [`misfits`] what of two does not fit.
//!
//! To the layers above this crate promises which finding there is exactly when, and how grave each is.
#![tactic(auto)]

mod alone;
mod finding;
mod misfit;
mod outline;
mod port;
mod reading;
mod together;

pub use alone::{findings, port_findings};
pub use finding::{Finding, Level};
pub use misfit::Misfit;
pub use outline::{Outline, Stream};
pub use port::{Meeting, PortKey, UsedPort, meeting_of, shared, twice};
pub use reading::read_outline;
pub use together::{alike, mark_misfits, misfits, port_misfits};
