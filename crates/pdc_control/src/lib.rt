//! Stopping a run and asking how it stands, from another program, at a Unix socket.
//!
//! The first type to look at is [`Control`]: what a run and those who ask say to each other. [`ControlledTicker`] is a `Ticker` of `pdc_ports`
//! that gives no tick once the run is to stop, and answers how the run stands. [`ControlSocket`] is the socket, at which [`serve_control`]
//! answers one [`Request`] after another; [`ask`] is the other side of it.
//!
//! To the layers above this crate promises which line asks what, that a stopped ticker asks the inner one for nothing more, and that the ticks
//! of one that is not are those of the inner one. What sockets and files do is tried by `tests/control`.
#![tactic(auto)]

mod answer;
mod asking;
mod control;
mod controlled_ticker;
mod json;
mod lines;
mod request;
mod serving;
mod socket;

pub use answer::{Answer, Head};
pub use asking::{AskFault, ask};
pub use control::Control;
pub use controlled_ticker::{ControlledTicker, next_unless};
pub use request::{Form, Request, request_of};
pub use serving::serve_control;
pub use socket::{ControlFault, ControlSocket, MAX_PATH};
