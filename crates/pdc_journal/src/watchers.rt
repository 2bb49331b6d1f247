//! What looks at the datagrams of a stream.

use crate::left_out::Compared;
use crate::opening::Opening;
use pdc_ports::Outcome;
use std::rt::Clock;
use std::sync::Wait;

/// What looks at the datagrams of a stream: of a node's, what the merger leaves out, and where the run is measured, the instants that its data
/// opens.
#[derive(Drop)]
pub struct Watchers<'a> {
    pub compared: Option<Compared<'a>>,
    pub opening: Option<Opening<'a>>,
}

impl<'a> Watchers<'a> {
    /// A datagram came.
    pub fn see(&mut self, bytes: &[u8]) {
        if let Some(compared) = &mut self.compared {
            compared.see(bytes);
        }
        if let Some(opening) = &mut self.opening {
            opening.see(bytes);
        }
    }

    /// The datagram that came last was answered so.
    pub fn answered<R: Wait + Clock>(&mut self, rt: &R, outcome: Outcome) {
        if let Some(compared) = &mut self.compared {
            compared.answered(rt, outcome);
        }
        if let Some(opening) = &mut self.opening {
            opening.answered(rt, outcome);
        }
    }
}
