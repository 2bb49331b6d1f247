//! A record of a life, played again: on the core of its role, opened with what the record begins with, each step is made as it was recorded, and
//! what it answers, closes, publishes and lays out is compared with what was recorded.
//!
//! The first type to look at is [`Replay`], which plays on a core; [`Player`] plays entries of either role, life after life. A core is proved to
//! answer as the life does, so a record that is as replayed is the record of that life.
//!
//! A later file carries over what a core must know of the steps before it, so a replay may begin with it, and goes on with one behind steps
//! that are not in the record.
//!
//! The promise to the layers above: an entry is passed only where each part of it that can be compared was equal.
//!
//! [`play_plain`] plays a short record on the plain program of a life, which asks each definition of the whole list of steps: a second
//! judgement beside that of the core, whose time grows with the square of the record.
#![tactic(auto)]

mod agreement;
mod begins;
mod comparing;
mod halt;
mod player;
mod playing;
mod plays;
mod replay;
mod replayed;
mod seen;
mod steps;
mod unplayed;

pub use agreement::{Disagreement, NAMES, Three, disagreement_of, print_presence};
pub use begins::{Begins, Unbegun};
pub use halt::{Difference, Halt, print_halt};
pub use player::Player;
pub use playing::{MOST_STEPS, NotPlayed, play_plain};
pub use plays::Plays;
pub use replay::Replay;
pub use seen::{Section, SeenRow};
pub use unplayed::{Unplayed, print_unplayed};
