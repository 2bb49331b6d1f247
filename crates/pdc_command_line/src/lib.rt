//! The words of the command line of `pdc`.
//!
//! To the program this crate promises a request whose numbers are in range, or the text that tells the person at the
//! terminal what is wrong.
#![tactic(auto)]

mod command;
mod control;
mod listen;
mod mark_convert;
mod mark_forget;
mod mark_init;
mod mark_show;
mod number;
mod play;
mod pmu;
mod request;
mod running;
mod show;
mod words;
mod wrong;

pub use command::parse;
pub use request::{
    Listen, MAX_PLACES, MAX_RATE, MarkConvert, MarkForget, MarkInit, Play, PortOrHost, Record,
    Request, Running, ShowForm, Simulated, Status,
};
