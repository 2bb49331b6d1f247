//! What stands under the lock of a running core: a core beside a base and the steps since, with the books of what they counted.
//!
//! The first type to look at is [`Hub`], the lock. Under it the core is at every moment the replay of the kept steps over the base, and the
//! books have the core's counters.
//!
//! The promise to the layers above: each call adds exactly the caller's step and answers what the core answers it, or adds none and
//! says why; what the step counted is in the caller's share.
#![tactic(auto)]

mod fault;
mod hub;
mod intake;
mod ledgers;
mod locked_core;
mod looking;
mod naming;
mod pops;
mod receiver;
mod replayed;
mod shares;
mod steps;
mod totals;

pub use fault::HubFault;
pub use hub::Hub;
pub use intake::{Inlet, Intake};
pub use ledgers::{ConfiguredIn, Ledgers, RefusedIn, TakenIn, TopIn};
pub use naming::Naming;
pub use pdc_memory::{make_room, with_room};
pub use pops::Pops;
pub use receiver::{Received, receive};
pub use replayed::Replayed;
pub use shares::{Blanks, Books, Shares};
pub use steps::Steps;
