//! The steps of a concentrator so far, node or merger, with their answers: what they say, and what ticks and pops do.
//!
//! Nothing is kept but the list of the steps, newest first, and each question is asked of the whole list. It is meant to be
//! read: each function is one definition of pdc_life, and its contract says so. It goes down the list by recursion, time and
//! again, so it is for lists of some hundred steps and not for a running concentrator.
//!
//! The first type to look at is [`Answered`], a step with its answer, and the first functions [`section_in_force`], [`tick`] and
//! [`pop`].
//!
//! The promise to the layers above: what is told of a list of steps is what the definitions of a life say of it, and a tick and a pop are
//! answered as in the one life of these steps.
#![tactic(auto)]

mod blocks;
mod closing;
mod given;
mod in_force;
mod in_time;
mod instants;
mod past;
mod row_of;
mod steps;
mod taking;
mod ticking;

pub use blocks::copy_of;
pub use given::Given;
pub use in_force::sections_in_force;
pub use in_time::{answer_in_time, bare};
pub use instants::{append, open_instants, waiting};
pub use past::{change_number, changes, cleared_count, held_section, section_in_force};
pub use pdc_arrival::count_for;
pub use steps::{Answer, Answered, ColumnCell, LifeStep, TickAnswer, are_for_streams};
pub use taking::{Take, age_of, cell_of, take_of};
pub use ticking::{pop, tick, waiting_counts};
