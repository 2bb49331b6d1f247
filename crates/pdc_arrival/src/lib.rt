//! What arrives at a concentrator, node or merger: what its bytes say, whatever came before, and how it is answered, as far as that
//! needs no more than what is held.
//!
//! The first type to look at is [`Arrival`]: bytes that are refused, data of an instant, or a layout, whose sections stand beside
//! their columns. What is read is lent from the bytes, so no memory is wanted. The first function of the answers is [`section_answer`];
//! a running core and the plain program of a life answer by the same calls, and count the answers in [`Counts`].
//!
//! The promise to the layers above: bytes say what `Reads` and `ReadsFrom` of `pdc_life` tell, the first refusal whose cause holds
//! among them; and each answer is a definition of `pdc_life`, asked of what is held.
#![tactic(auto)]

mod arrival;
mod claimed;
mod counts;
mod from_node;
mod from_pmu;
mod own_block;
mod own_stamp;
mod placing;
mod sections;
mod stamps;

pub use arrival::{Arrival, ColumnSection, Stamp};
pub use claimed::{ClaimedData, claim_from_node};
pub use counts::Counts;
pub use from_node::{NODES, arrival_from_node, hear_from_node, read_from_node};
pub use from_pmu::{arrival_from_pmu, hear_from_pmu, read_from_pmu};
pub use own_block::{bears, body};
pub use pdc_life::{
    Body, Buffer, CAUSES, Claim, DueRow, Frame, FrameFault, LentClaim, MAX_PMUS, MergerSettings,
    OWN_BLOCK_LEN, Outcome, Output, Reading, Refusal, Section, SectionView, Settings, Shape,
    WaitKind, append_layout, causes_are_told_apart, cells_are_of_sections, numbers_rise,
    taken_is_in_time,
};
pub use sections::{count_for, differs, is_candidate, section_answer};
pub use stamps::layout_answer;
