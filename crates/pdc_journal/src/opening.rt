//! The instants that the datagrams of a stream open.

use crate::measured::Measured;
use crate::tags::Tags;
use pdc_ports::Outcome;
use std::rt::Clock;
use std::sync::Wait;

/// A stream whose data opens instants.
#[derive(Drop)]
pub struct Opening<'a> {
    measured: &'a Measured,
    tags: Tags,
    /// The instant that the last datagram names, if it names one.
    instant: Option<u64>,
}

impl<'a> Opening<'a> {
    /// No datagram came yet.
    pub fn new(measured: &'a Measured, tags: Tags) -> Opening<'a> {
        Opening {
            measured,
            tags,
            instant: None,
        }
    }

    /// A datagram came.
    pub fn see(&mut self, bytes: &[u8]) {
        self.instant = self.tags.instant_of(bytes);
    }

    /// The datagram that came last was answered so.
    pub fn answered<R: Wait + Clock>(&mut self, rt: &R, outcome: Outcome) {
        if outcome == Outcome::Taken {
            if let Some(instant) = self.instant {
                self.measured.take(rt, instant);
            }
        }
    }
}
