//! The settings of a node.
ghost use Rattle.std.specs.Prelude.{◌≡◌, length};

use crate::service::Service;
use arrayvec::ArrayVec;
use pdc_life::{MAX_PMUS, Settings};

/// The settings of a node.
#[derive(Debug, Drop)]
pub struct NodeSettings {
    /// What the answers of its lives depend on.
    pub life: Settings,
    /// What the running program is told.
    pub service: Service,
    /// The UDP ports that the PMUs send to, in the order of the PMUs, 1 to 65535 each; 0 where a PMU is asked over TCP.
    pub ports: ArrayVec<u16, MAX_PMUS>,
    pub ghost ports_of_pmus: { length ports.items ≡ length life.pmus.items },
}
