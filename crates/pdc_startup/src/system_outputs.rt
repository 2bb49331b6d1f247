//! The outputs of the machine that the program runs on.
ghost use Rattle.std.specs.Prelude.{◌≡◌, List, ℕ};

use pdc_ports::{Sink, SinkFault};
use pdc_sockets::{Outputs, UdpOutputs};
use std::net::UdpSocket;

/// The sockets of this machine from which frames go. It took what they took, and its further destinations were handed what theirs were.
#[derive(Drop)]
pub struct SystemOutputs {
    sockets: UdpOutputs<UdpSocket>,
}

impl SystemOutputs {
    /// Frames go from these sockets.
    pub fn new(sockets: UdpOutputs<UdpSocket>) -> SystemOutputs {
        SystemOutputs { sockets }
    }
}

impl Sink for SystemOutputs {
    ghost took = { λ before now given. ⟦<UdpOutputs<UdpSocket> as Sink>⟧.took before.sockets
        now.sockets given };

    ghost nothing = { λ s. ⟦<UdpOutputs<UdpSocket> as Sink>⟧.nothing s.sockets };

    ghost failures_of = { λ s. ⟦<UdpOutputs<UdpSocket> as Sink>⟧.failures_of s.sockets };

    fn send(&mut self, bytes: &[u8]) -> Result<(), SinkFault> {
        self.sockets.send(bytes)
    }

    fn failures(&self) -> u64 {
        self.sockets.failures()
    }
}

impl Outputs for SystemOutputs {
    ghost handed = { λ before now number hands. ⟦<UdpOutputs<UdpSocket> as Outputs>⟧.handed
        before.sockets now.sockets number hands };

    ghost handed_none = { λ s number. ⟦<UdpOutputs<UdpSocket> as Outputs>⟧.handed_none s.sockets
        number };

    fn send_further(&mut self, number: usize, bytes: &[u8]) -> Result<(), i32> {
        self.sockets.send_further(number, bytes)
    }
}
