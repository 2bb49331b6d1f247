//! `pdc show`: what frames of IEEE C37.118.2-2011 in hexadecimal say, line by line.
//!
//! [`run_show`] is the whole command over any reader and writer, [`run_show_command`] the one over the standard streams, and [`Line`] a line that is
//! read piece by piece. Its promise to the program: it returns whatever it is given, holds no more than one frame, one configuration and what is
//! printed and not written yet, and reads data by the shapes of the configuration that it holds. What the lines look like is shown by tests alone.
#![tactic(auto)]

mod command;
mod digits;
mod held;
mod line;
mod lines;
mod refusal;
mod show;
mod text;

pub use command::run_show_command;
pub use line::Line;
pub use refusal::NotShown;
pub use show::{MAX_READS, ShowFault, Shown, run_show};
