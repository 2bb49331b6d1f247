//! The alignment of a concentrator, node or merger: its table, what counts as now, the change number, and for each
//! column the sections that are held and in force and the count that is cleared.
//!
//! Node and merger differ in what bytes say, and in what an arrival is answered first; what they have in common stands here. The
//! first type to look at is [`Alignment`]. `specs/State.antt` has what its table contains after a life, `specs/Follows.antt` what each
//! step does to it; the laws of both are functions that do nothing but call the laws that they stand on.
//!
//! The promise to the layers above: for every run that an alignment stands for, each call answers as the run does, and the alignment
//! then stands for the run with that step more.
#![tactic(auto)]

mod adopting;
mod alignment;
mod closing_laws;
mod column;
mod columns;
mod in_force;
mod laws;
mod layout;
mod life_calls;
mod offering;
mod plan;
mod slot;
mod state_laws;
mod ticked;
mod ticking;

pub use alignment::Alignment;
pub use closing_laws::{cells_have_shapes, pop_is_pop, rows_are_those, tick_is_tick};
use column::Column;
pub use in_force::sections_in_force;
pub use laws::{columns_stand, others_are_left};
pub use layout::append_layout_frame;
pub use pdc_arrival::{
    Arrival, Buffer, Claim, ClaimedData, ColumnSection, Counts, DueRow, Frame, FrameFault,
    LentClaim, MAX_PMUS, MergerSettings, Outcome, Output, Reading, Refusal, Section, SectionView,
    Settings, Stamp, arrival_from_node, claim_from_node, hear_from_node, hear_from_pmu,
    read_from_node, read_from_pmu,
};
pub use pdc_table::{Held, HeldBox, KnownFront, copy_block};
pub use plan::Plan;
pub use state_laws::{answers_agree, cells_are_put, others_leave_it, take_is_take};
pub use ticked::Ticked;
