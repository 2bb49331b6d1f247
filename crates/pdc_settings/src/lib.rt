//! Settings of a node and of the merger, out of a text of TOML.
//!
//! The first types to look at are [`NodeSettings`] and [`MergerSettings`]. What the answers of a life depend on is the type of
//! `pdc_life`; beside it stands what the running program is told.
//!
//! To the layers above this crate promises that the settings which it gives are the values of the document, key by key, in
//! their ranges and with no id twice.
#![tactic(auto)]

mod common;
mod distinct;
mod document;
mod doubled;
mod entries;
mod fault;
mod input;
mod lacking;
mod merger;
mod mistake;
mod network;
mod node;
mod numbers;
mod read_inputs;
mod read_merger;
mod read_network;
mod read_node;
mod service;

pub use document::Document;
pub use doubled::{Doubled, NumberKey};
pub use fault::SettingsFault;
pub use input::Input;
pub use merger::MergerSettings;
pub use mistake::{Mistake, doubled_port_in, mistake_in};
pub use network::Network;
pub use node::NodeSettings;
pub use pdc_keys::{Key, MAX_PORT, MAX_TIME_BASE, TableName, UnknownKey, Wanted, all_keys};
pub use service::{Service, TickWhen};
