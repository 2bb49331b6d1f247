//! The aligner of a running core: it ticks, pops what is due, publishes it, and puts it with the layouts on the channel.
//!
//! The first call to look at is [`align`], which ticks as a `Ticker` of `pdc_ports` says, at a [`Pace`].
//!
//! The promise to the layers above: at each tick the data frames of what is due are put in rising order, and then the layout where the
//! tick adopted or its number says so; no count that a tick was handed is above the one that is stored in the end.
#![tactic(auto)]

mod aligner;
mod clearing;
mod laws;
mod layouts;
mod pace;
mod publishing;

pub use aligner::{Aligned, Aligner, align};
pub use clearing::tick_cleared;
pub use laws::frames_are_exact;
pub use pace::Pace;
