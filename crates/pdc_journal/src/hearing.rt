//! What a sender says of itself.

use crate::complaint::CauseComplaints;
use crate::head::is_data;
use crate::journal::Journal;
use crate::moment::Moment;
use pdc_complaints::{Expected, Of, Refusal, Said, SaidConfiguration, complaint_of, refused_text};
use pdc_ports::Outcome;
use std::alloc::Global;
use std::rt::Clock;
use std::sync::Wait;

/// What the sender of a stream says of itself, beside what the settings say of it.
#[derive(Drop)]
pub struct Hearing {
    expected: Expected,
    /// What its last datagram says.
    said: Said,
    /// The configuration of it that was accepted last.
    held: Option<SaidConfiguration>,
    complaints: CauseComplaints,
}

impl Hearing {
    /// Nothing came yet.
    pub fn new(expected: Expected) -> Hearing {
        Hearing {
            expected,
            said: Said::nothing(),
            held: None,
            complaints: CauseComplaints::new(),
        }
    }

    /// A datagram came. Data is not read for a configuration.
    pub fn see(&mut self, bytes: &[u8]) {
        self.said = Said::in_bytes(bytes, !is_data(bytes));
    }

    /// The configuration that came last was accepted.
    pub fn accept(&mut self) {
        if self.said.configuration.is_some() {
            self.held = self.said.configuration.take();
        }
    }

    /// The datagram that came last was refused by this cause: it is told where it says something of its sender, each cause once a minute at most.
    pub fn complain<R: Wait + Clock>(
        &mut self,
        rt: &R,
        alloc: Global,
        journal: &Journal,
        of: Of,
        cause: Refusal,
    ) {
        let Some(complaint) = complaint_of(cause, &self.said, &self.expected, &self.held) else {
            return;
        };
        if self.complaints.is_due(cause, Moment::now(rt)) {
            journal.tell(
                rt,
                refused_text(alloc, of, &self.expected, cause, complaint),
            );
        }
    }

    /// The datagram that came last was answered so.
    pub fn answered<R: Wait + Clock>(
        &mut self,
        rt: &R,
        alloc: Global,
        journal: &Journal,
        of: Of,
        outcome: Outcome,
    ) {
        match outcome {
            Outcome::Refused(cause) => self.complain(rt, alloc, journal, of, cause),
            Outcome::Candidate | Outcome::Known => self.accept(),
            Outcome::Taken => {}
        }
    }
}
