//! What is reported of a stream that is taken: that its sender is not what the settings say, with what came and what they say; and when it
//! falls silent, comes again, or is not understood.
//!
//! The first type to look at is [`Complaint`]. [`Said`] is what a datagram says of its sender, [`Expected`] what the settings say, and
//! [`complaint_of`] which complaint a refusal is.
//!
//! The promise to the layers above: what came is what the datagram says, what was expected is what the settings say, and a refusal that
//! only somebody can mend who sets up the sender, or this concentrator, is always the same complaint. The words of a line no clause says.
#![tactic(auto)]

mod complaint;
mod expected;
mod lines;
mod refused;
mod said;
mod whose;

pub use complaint::{Complaint, complaint_of};
pub use expected::Expected;
pub use lines::{again_text, ended_text, silence_text, taken_text, unread_text};
pub use pdc_life::{CAUSES, MAX_PMUS, Outcome, Refusal};
pub use refused::refused_text;
pub use said::{Said, SaidConfiguration, SaidSection};
pub use whose::Of;
