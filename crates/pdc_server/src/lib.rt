//! Sessions of a running concentrator: a consumer connects, asks for the header, the configuration or the data, and is served turn by
//! turn (the commands are those of C37.118.2-2011, table 15).
//!
//! [`Consumer`] is the type to look at first: one session over any reader and writer. [`serve`] accepts connections and serves one after
//! the other. [`Recent`] has what the concentrator sent last, under one lock, and [`RememberingSink`] keeps it there as it is sent.
//!
//! To the layers above this crate promises that in each turn a consumer gets the replies to the commands in what it sent, in order, and
//! then, while data is on, what [`Recent`] gives above all that it got before. Whatever other threads do, that is data frames of the
//! stream whose time tags tell instants that strictly rise, each of the layout of the last CFG-2 frame before it, where there is one; or
//! the CFG-2 frame of a layout that is to come before them. That a thread which waits is woken is shown by tests.
#![tactic(auto)]

mod consumer;
mod ended;
mod header;
mod hearing;
mod laws;
mod limits;
mod line;
mod listening;
mod naming;
mod own_stamp;
mod place;
mod recent;
mod remembered;
mod remembering_sink;
mod stamp;
mod traffic;

pub use consumer::Consumer;
pub use ended::Ended;
pub use header::header_of;
pub use laws::{data_fits_its_layout, rows_are_data};
pub use limits::{MOST_HEARD, PIECE_LEN};
pub use listening::{Reception, serve};
pub use naming::Naming;
pub use pdc_pipe::{Outlet, PublishedRow, Sink, SinkFault};
pub use pdc_seats::{Leaving, Porter, Seats};
pub use place::{Place, Seen};
pub use recent::Recent;
pub use remembering_sink::RememberingSink;
pub use stamp::Stamp;
