//! `pdc play`: a script of events, played line by line.
//!
//! [`run_script`] is the whole run over any reader and writer, and over whatever [`Plays`] events. Its promise to the layers above: what is
//! printed is the line of each event's reply, up to the first event that is refused or line that is none, and what is told of that one.
//! `specs/Script.antt` has the definition. A line is read as the one event that it is by the grammar in `specs/Line.antt`
//! ([`read_event`]), and what is printed of a reply is the text in `specs/Printed.antt` ([`write_reply`]).
//!
//! [`OnWorld`] is a world of two nodes and a merger as what plays events; [`play_over`] begins one over three marks and plays a script on
//! it, [`play_roles`] and [`play_settings`] over new marks. What is printed then is the script told by a history of that world
//! (`specs/Told.antt`), so what holds of histories holds of it. A world that does not begin is told by the first cause that holds. A text
//! is read as the settings of its own kind, and three of them are a world's only where they are those of node A, node B and the merger.
#![tactic(auto)]

mod any;
mod begins;
mod counted;
mod ending;
mod fault;
mod hexadecimal;
mod line;
mod number;
mod on_world;
mod piece;
mod player;
mod printed;
mod run;
mod script;
mod telling;
mod texts;
mod unbegun;
mod word;
mod written;

pub use any::{AnySettings, Roles, read_settings, roles_of_three};
pub use begins::{play_over, play_roles, play_settings};
pub use counted::CountedReader;
pub use ending::Ending;
pub use fault::PlayFault;
pub use line::{NotRead, read_event};
pub use on_world::OnWorld;
pub use player::Plays;
pub use printed::{write_fault, write_not_an_event, write_reply};
pub use run::{MAX_READS, run_script};
pub use unbegun::tell_unbegun;
pub use written::Written;
