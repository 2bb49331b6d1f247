//! A simulated PMU as a program: it sends one configuration, and then a data frame for each instant as the clock reaches it.
//!
//! The call to look at is [`simulate`]: its frames go to UDP ports, and to up to four consumers that ask for them over TCP.
//! [`simulate_from`] and [`simulate_into`] are the same over any sink, and promise what a sink that tells what it took has then: where all
//! went well each frame of the run, the configuration and data of one instant after the other; and where not, the first part of these.
//!
//! [`Pmu`] makes the frames, in an order that a field device keeps: the instants of its data frames rise strictly, and so do the counts
//! of its configurations; so no two of its data frames say different things of one instant, and no two configurations have one count.
#![tactic(auto)]

mod begun;
mod fault;
mod grid;
mod handing;
mod laws;
mod outlets;
mod pmu;
mod pmu_fault;
mod renamed;
mod run;
mod section;
mod sender;
mod sending;
mod served;
mod simulated;
mod simulation;

pub use fault::SimulationFault;
pub use laws::{what_is_read_is_one, what_is_sent_rises};
pub use outlets::Target;
pub use pmu::{MAX_COUNT, Pmu};
pub use pmu_fault::PmuFault;
pub use sending::{simulate_from, simulate_into};
pub use served::Served;
pub use simulated::Simulated;
pub use simulation::simulate;
