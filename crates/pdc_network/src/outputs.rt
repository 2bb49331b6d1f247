//! Sockets from which frames go to several destinations.
ghost use Rattle.std.specs.Prelude.{◌≡◌, ◌≢◌, ◌++◌, ◌∷◌, List, [], ℕ};
ghost use Rattle.pdc_network.specs.Sent.{Hand};

use crate::destination::Destination;
use crate::send_to::SendTo;
use crate::udp_sink::UdpSink;
use pdc_ports::{Sink, SinkFault};
use std::net::UdpSocket;

/// Where the frames of a concentrator go: as a sink, to its own reader, and beside it to further destinations, which are numbered from 0.
/// It may tell what these were handed: in `handed before now number hands` the one with this number was handed exactly these frames, in order,
/// from the one state to the other, with what came of each.
pub trait Outputs: Sink {
    ghost handed: { Self → Self → ℕ → List Hand → Type 0 };

    // From a state to itself none was handed anything.
    ghost handed_none: { (s : Self) (number : ℕ) → handed s s number [] };

    /// Hands a frame to the further destination with this number, if there is one. That is no frame that it takes as a sink.
    ///
    /// # Errors
    ///
    /// The number of the system's reason, and 0 where it gave none.
    fn send_further(&mut self, number: usize, bytes: &[u8]) -> Result<(), i32>
        ensures tells { (before : Self) (hands : List Hand) → handed before self.old number hands →
            handed before self.new number (hands ++ record { frame = bytes.now; outcome = result } ∷
            []) }
        ensures others { (other : ℕ) → other ≢ number → (before : Self) (hands : List Hand) →
            handed before self.old other hands → handed before self.new other hands }
        ensures kept { (before : Self) (given : List (List ℕ)) → Self.took before self.old given →
            Self.took before self.new given }
        ensures same { Self.failures_of self.new ≡ Self.failures_of self.old };
}

/// Frames go to a port of the loopback, and to each of the further destinations.
#[derive(Drop)]
pub struct UdpOutputs<S: SendTo + Drop = UdpSocket> {
    loopback: UdpSink<S>,
    destinations: Vec<Destination<S>>,
}

impl<S: SendTo + Drop> UdpOutputs<S> {
    ghost use Rattle.pdc_network.specs.Outputs.{further_of, sink_of};

    /// Sends to the loopback and to these.
    pub fn new(loopback: UdpSink<S>, destinations: Vec<Destination<S>>) -> UdpOutputs<S>
        ensures sink { sink_of result ≡ loopback }
        ensures further { further_of result ≡ destinations.items }
    {
        UdpOutputs {
            loopback,
            destinations,
        }
    }
}

/// It took what its loopback took.
impl<S: SendTo + Drop> Sink for UdpOutputs<S> {
    ghost use Rattle.pdc_network.specs.Handed.{HasTaken, took_nothing};

    ghost took = { λ before now frames. HasTaken S.sent before.loopback.destination
        now.loopback.destination before.loopback.failures now.loopback.failures frames };

    ghost nothing = { λ s. took_nothing S.sent S.sent_nothing s.loopback.destination
        s.loopback.failures };

    ghost failures_of = { λ s. s.loopback.failures };

    fn send(&mut self, bytes: &[u8]) -> Result<(), SinkFault> {
        self.loopback.send(bytes)
    }

    fn failures(&self) -> u64 {
        self.loopback.failures()
    }
}

/// What a destination was handed its socket was, by one call for each frame, for the place of that destination.
impl<S: SendTo + Drop> Outputs for UdpOutputs<S> {
    ghost use Rattle.std.specs.Prelude.{slice_get};
    ghost use Rattle.pdc_network.specs.Handed.{WasHandedAt, handed_nothing_at};

    ghost handed = { λ before now number hands. WasHandedAt S.sent
        (slice_get before.destinations.items number) (slice_get now.destinations.items number)
        hands };

    ghost handed_none = { λ s number. handed_nothing_at S.sent S.sent_nothing
        (slice_get s.destinations.items number) };

    fn send_further(&mut self, number: usize, bytes: &[u8]) -> Result<(), i32> {
        match self.destinations.get_mut(number) {
            Some(destination) => destination.send(bytes),
            None => Ok(()),
        }
    }
}
