//! What node and merger have in common, as the programs that run them see it: a core.
//!
//! The first type to look at is the trait [`Core`]; what it is handed is a [`CoreStep`], whose arrivals keep their bytes
//! ([`KeptArrival`]), and what it replies a [`Reply`]. Bytes are read by its settings ([`Reads`]), which needs no core; its
//! lives begin by [`Opens`].
//!
//! The promise to the layers above: for every life that a core stands for, each call answers as the life does, and the core then
//! stands for the life with that step. No step takes memory.
#![tactic(auto)]

mod core_trait;
mod kept_arrival;
mod kept_layout;
mod lent_data;
mod opens;
mod payload;
mod reads;
mod step;

pub use core_trait::Core;
pub use kept_arrival::KeptArrival;
pub use kept_layout::{KeptLayout, KeptSection};
pub use lent_data::LentData;
pub use opens::Opens;
pub use payload::{Payload, SHORT_PAYLOAD, ShortPayload};
pub use pdc_align::{Counts, Ticked};
pub use reads::Reads;
pub use step::{CoreStep, Reply};
