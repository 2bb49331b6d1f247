//! What a node and the merger do before they run: their settings are read, the next start is stored on their mark, the record of their
//! life is begun, and their ports are opened.
//!
//! The first types to look at are [`Concentrator`], a node or the merger as its settings describe it, and [`Machine`], each of whose calls
//! tries one step and may tell of it. To the layer above this crate promises that a life begins with a mark whose next start is stored
//! ([`Begun`]), so each has a start number of its own, that there is a source for each stream, in their order, that each step ends by its
//! own faults alone, and that each fault has one exit status.
#![tactic(auto)]

mod begun;
mod described;
mod expecting;
mod fault;
mod files;
mod machine;
mod observing;
mod options;
mod outputs_sink;
mod plan;
mod recorded;
mod signs;
mod system_outputs;
mod timed_mark;

pub use begun::Begun;
pub use described::{Described, Files, Step};
pub use fault::{LoadFault, ServiceFault};
pub use files::read_settings_text;
pub use machine::{Machine, ThisMachine};
pub use observing::{Observed, observe_all};
pub use options::RunOptions;
pub use outputs_sink::OutputsSink;
pub use pdc_control::{
    AskFault, Control, ControlFault, ControlSocket, ControlledTicker, Form, Head, MAX_PATH,
    Request, ask, serve_control,
};
pub use pdc_metrics::{Metered, OwnFiles, serve_metrics};
pub use pdc_recording::{Limits, RecordedTicker, Series, Shelf, write_record};
pub use pdc_settings::{Input, Network, UnknownKey};
pub use pdc_sockets::{Concentrator, Link, TcpDialer};
pub use plan::{MAX_LIMIT, Plan, plan_of};
pub use recorded::RecordFile;
pub use signs::Signs;
pub use system_outputs::SystemOutputs;
pub use timed_mark::TimedMark;
