//! Scripts of calls with their answers, for the programs that try the libraries: who plays a script, the frames that it calls by name,
//! and of scripts of lives the settings of their concentrators, their calls and the texts of what is answered.
//!
//! [`SortedTable`] is a second table, kept as sorted rows: it meets the contract of `Table` as `RingTable` does, in the simplest way. No
//! program of the product uses it: trials play the same calls on both.
#![tactic(auto)]

mod aged_row;
mod calls;
mod concentrators;
mod frames;
mod rows;
mod script;
mod settings_text;
mod sorted_table;
mod stage;
mod texts;
mod words;

pub use calls::{LifeCall, life_call};
pub use concentrators::{PLAIN_TIMING, Told, merger, node, told_merger, told_node};
pub use frames::Frames;
pub use script::{Played, Player, play_script};
pub use settings_text::SettingsText;
pub use sorted_table::SortedTable;
pub use stage::{Stage, play_all};
pub use texts::{counts_text, frame_text, row_text, tick_text};
pub use words::{counts_of, numbers};
