//! When a running concentrator ticks, by the system's clock, and which data waits for a tick.
//!
//! [`ClockTicker`] is a `Ticker` of `pdc_ports`: it gives the instants of the times that its [`Timepiece`] showed. [`TickTime`] is the
//! system's: by [`Metronome`] it sleeps to the next of its [`Deadlines`], and by [`WokenTimepiece`] it may be woken once before each.
//!
//! A concentrator that was held up has an old now until it ticks again. A [`HoldingSource`] keeps back what that tick alone would refuse, until it
//! has come; [`WatchedTicker`] notes each tick for it in [`LastTick`], and tells of ticks that came late.
//!
//! A ticker that is to tick as soon as all data of a row is there ticks by a [`WokenTimepiece`]: a [`HoldingSource`] calls it by a [`Wake`], and
//! between two deadlines it gives one tick, at the call or else at the second of them.
#![tactic(auto)]

mod clock;
mod deadlines;
mod found;
mod holding_source;
mod last_tick;
mod metronome;
mod rated;
mod tick_time;
mod waiting;
mod wake;
mod watched_ticker;
mod woken_timepiece;

pub use clock::{ClockTicker, instant_at};
pub use deadlines::Deadlines;
pub use found::{Found, Given};
pub use holding_source::{HoldingSource, Patience};
pub use last_tick::LastTick;
pub use metronome::{Metronome, Timepiece};
pub use rated::Rated;
pub use tick_time::TickTime;
pub use waiting::Waiting;
pub use wake::Wake;
pub use watched_ticker::WatchedTicker;
pub use woken_timepiece::WokenTimepiece;
