//! A node and the merger as programs: what stands before a run is done in its order, and they run for a number of ticks, while consumers
//! are served beside them.
//!
//! The first calls to look at are [`serve_node`] and [`serve_merger`], [`run_node`] and [`run_merger`] are the runs without files and ports.
//! A run begins with a mark whose next start is stored ([`Begun`]),
//! so each has a start number of its own. To the programs this crate promises that what the sink took are the first of the frames that
//! were published, in order and whole, with instants that strictly rise above the floor that was stored before the run, and are at most
//! the floor that is stored after it; and that a run tells what the receiver of each source counted, or the first fault of its parts.
//! The steps before the run are tried in one order, each once, up to the first that fails: the settings file, the mark file and the start
//! that is stored on it, the sources, the sink, the listener of the sessions, that of the counters, and the first file of the record where
//! there is one.
#![tactic(auto)]

mod beside;
mod either;
mod handed;
mod host;
mod porter;
mod run_texts;
mod running_concentrator;
mod service;
mod serving;

pub use handed::{Handed, hand_over};
pub use host::Host;
pub use pdc_startup::{
    AskFault, Begun, Control, ControlFault, ControlSocket, Files, Form, Head, Limits, LoadFault,
    MAX_LIMIT, MAX_PATH, Machine, Plan, RecordFile, Request, RunOptions, ServiceFault, ThisMachine,
    ask, read_settings_text, serve_control,
};
pub use pdc_threads::{Beside, HubFault, Outlet, Outside, Totals};
pub use running_concentrator::{run_merger, run_node};
pub use service::{serve_merger, serve_node};
