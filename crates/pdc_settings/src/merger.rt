//! The settings of the merger.

use crate::service::Service;

/// The settings of the merger.
#[derive(Debug, Drop)]
pub struct MergerSettings {
    /// What the answers of its lives depend on.
    pub life: pdc_life::MergerSettings,
    /// What the running program is told.
    pub service: Service,
    /// The UDP port that node A sends to, 1 to 65535; 0 where it is asked over TCP.
    pub first_port: u16,
    /// The UDP port that node B sends to, 1 to 65535; 0 where it is asked over TCP.
    pub second_port: u16,
}
