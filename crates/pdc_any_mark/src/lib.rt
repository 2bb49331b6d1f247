//! Mark files of any owner: what one holds, and the same without its counts.
//!
//! [`AnyMark`] is what a mark file has, whoever owns it: `pdc_mark` opens a mark for its owner alone. Its promise to the program: what is read is the
//! mark of the file, and what is written has the same owner, start number and floor, and counts 0. [`run_mark_show_command`] and
//! [`run_mark_forget_command`] are the commands that show a mark file, and that make one without counts.
#![tactic(auto)]

mod any_mark;
mod command;
mod forget;

pub use any_mark::AnyMark;
pub use command::{
    MarkFileFault, Reason, read_mark_file, run_mark_forget_command, run_mark_show_command,
};
