//! What a receiver is given.

use crate::hub::Hub;
use crate::ledgers::Ledgers;
use crate::naming::Naming;
use crate::shares::Shares;
use pdc_core::Core;

/// Where what arrives goes in: a hub, and the settings by which it is read before.
#[derive(Drop)]
pub struct Intake<'h, C: Core + Drop, N: Naming<C::Settings>> {
    /// The hub that it is delivered to.
    pub hub: &'h Hub<C, N>,
    /// The settings by which it is read.
    pub settings: &'h C::Settings,
}

/// One stream's way in: what a receiver is given beside its source.
#[derive(Drop)]
pub struct Inlet<N: Ledgers> {
    /// The number of its stream, from 0.
    pub stream: usize,
    /// Where its source writes a datagram.
    pub buffer: Vec<u8>,
    /// In which its answers count.
    pub shares: Shares<N>,
}
