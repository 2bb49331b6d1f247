//! How the datagrams of one stream were answered.

use crossbeam_utils::CachePadded;
use pdc_complaints::Of;
use pdc_ports::{Counts, Outcome};
use std::sync::atomic::{AtomicU64, Ordering};
use std::sync::{Mutex, Wait};

/// How the datagrams of one stream were answered and how they came, which one thread counts and another reads.
#[derive(Drop)]
pub struct Tally {
    /// Whose stream it is.
    pub of: Of,
    /// They have lines of the processor's cache for themselves: else streams that are counted side by side would wait for each other.
    counts: CachePadded<Mutex<Counts>>,
    /// How many datagrams came from another address than its own.
    strangers: AtomicU64,
    /// How many connections over which it came were lost, or refused.
    lost: AtomicU64,
    /// How many configurations were left out for their count.
    left_out: AtomicU64,
}

impl Tally {
    /// Nothing was answered yet.
    pub fn new(of: Of) -> Tally {
        Tally {
            of,
            counts: CachePadded::new(Mutex::new(Counts::new())),
            strangers: AtomicU64::new(0),
            lost: AtomicU64::new(0),
            left_out: AtomicU64::new(0),
        }
    }

    /// Counts one answer.
    pub fn count<R: Wait>(&self, rt: &R, outcome: Outcome) {
        self.counts.lock(rt).count(outcome);
    }

    /// What was counted so far.
    pub fn counts<R: Wait>(&self, rt: &R) -> Counts {
        *self.counts.lock(rt)
    }

    /// Takes how many datagrams came from another address so far.
    pub fn set_strangers(&self, strangers: u64) {
        self.strangers.store(strangers, Ordering::Relaxed);
    }

    /// How many datagrams came from another address.
    pub fn strangers(&self) -> u64 {
        self.strangers.load(Ordering::Relaxed)
    }

    /// Counts a connection that was lost or refused.
    pub fn lose(&self) {
        self.lost.fetch_add(1, Ordering::Relaxed);
    }

    /// How many connections were lost or refused.
    pub fn lost(&self) -> u64 {
        self.lost.load(Ordering::Relaxed)
    }

    /// Counts a configuration that was left out for its count.
    pub fn leave_out(&self) {
        self.left_out.fetch_add(1, Ordering::Relaxed);
    }

    /// How many configurations were left out for their count.
    pub fn left_out(&self) -> u64 {
        self.left_out.load(Ordering::Relaxed)
    }
}
