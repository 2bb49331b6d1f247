//! What is metered of a run.

use crate::drops::StreamPort;
use crate::recorded::MeteredRecord;
use crate::stores::Stores;
use pdc_journal::{LeftOut, Measured, OutputTally, Tally};
use std::sync::atomic::AtomicU64;

/// What is metered of a run.
#[derive(Clone, Copy)]
pub struct Metered<'a> {
    /// The tally of each stream.
    pub tallies: &'a [Tally],
    /// The port of each stream that comes to one.
    pub ports: &'a [StreamPort],
    /// The tally of each further destination.
    pub outputs: &'a [OutputTally],
    /// What the merger leaves out; a node leaves nothing out.
    pub left_out: Option<&'a LeftOut>,
    pub measured: &'a Measured,
    /// How many frames could not be sent or not be kept.
    pub unsent: &'a AtomicU64,
    /// How many consumers are served.
    pub consumers: &'a AtomicU64,
    /// How many ticks came late.
    pub late_ticks: &'a AtomicU64,
    /// What the stores of the mark took.
    pub stores: &'a Stores,
    /// The record, where one is written.
    pub record: Option<MeteredRecord<'a>>,
}
