//! Who tells of consumers that are disconnected.

use pdc_journal::Journal;
use pdc_server::{Leaving, Porter};
use std::alloc::Global;
use std::net::SocketAddr;
use std::rt::Clock;
use std::sync::Wait;

/// Tells in the journal of consumers that are disconnected, and that all places are taken.
#[derive(Drop)]
pub struct JournalPorter<'a, R: Wait + Clock> {
    pub rt: &'a R,
    pub alloc: Global,
    pub journal: &'a Journal,
    /// The port of the sessions, and how many places they have.
    pub port: u16,
    pub most: u8,
}

impl<'a, R: Wait + Clock> Porter for JournalPorter<'a, R> {
    fn is_full(&self) {
        let (port, most) = (self.port, self.most);
        self.journal.tell(
            self.rt,
            format!(in self.alloc;
                "all {most} places of the sessions at port {port} are taken: whoever connects waits until one is free, or has been silent for ten seconds"
            ),
        );
    }

    fn left(&self, from: SocketAddr, why: Leaving) {
        self.journal.tell(
            self.rt,
            format!(in self.alloc; "the consumer at {from} was disconnected: {why}"),
        );
    }
}
