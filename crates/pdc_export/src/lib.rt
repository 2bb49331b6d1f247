//! Frames of IEEE C37.118.2-2011 as JSON and CSV: what `pdc show` says for people, for programs, in volts, amperes and hertz.
//!
//! [`run_export`] is the whole command over any reader and writer, [`run_export_command`] the one over the standard streams. [`Exporter`] writes
//! one frame after the other. What the lines look like is shown by tests alone.
#![tactic(auto)]

mod command;
mod export;
mod exporter;
mod fault;
mod held;
mod objects;
mod table;

pub use command::run_export_command;
pub use export::{MAX_READS, run_export};
pub use exporter::{Exported, Exporter, Format};
pub use fault::ExportFault;
