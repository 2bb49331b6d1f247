//! What a receiver's thread hands back.
ghost use Rattle.std.specs.Prelude.{◌≡◌};
ghost use Rattle.pdc_threads.specs.Shares.{AreParts};

use pdc_hub::{HubFault, Ledgers, Shares};

/// What a receiver's thread hands back: its shares, what they count, and why it ended, if by a fault.
#[derive(Drop)]
pub struct Delivered<N: Ledgers> {
    pub shares: Shares<N>,
    pub taken: u64,
    pub refused: u64,
    pub fault: Option<HubFault>,
    pub ghost one_part: { AreParts 1 shares },
    pub ghost same: { (shares.taken.amount ≡ taken) × (shares.refused.amount ≡ refused) },
}
