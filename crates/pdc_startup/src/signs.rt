//! What threads of a run say of it.

use std::sync::atomic::{AtomicBool, AtomicU64};

/// What threads of a run say of it, beside its totals.
#[derive(Drop)]
pub struct Signs {
    /// How many frames could not be sent or not be kept.
    pub unsent: AtomicU64,
    /// Whether the run ended since the clock could not be read.
    pub is_clock_unreadable: AtomicBool,
    /// How many consumers are served.
    pub consumers: AtomicU64,
    /// How many ticks came late by a fifth of a second or more.
    pub late_ticks: AtomicU64,
    /// Whether the run has ended.
    pub has_ended: AtomicBool,
}

impl Signs {
    /// Nothing happened yet.
    pub fn new() -> Signs {
        Signs {
            unsent: AtomicU64::new(0),
            is_clock_unreadable: AtomicBool::new(false),
            consumers: AtomicU64::new(0),
            late_ticks: AtomicU64::new(0),
            has_ended: AtomicBool::new(false),
        }
    }
}
