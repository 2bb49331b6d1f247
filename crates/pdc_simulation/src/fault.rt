//! Why a simulation ended early.

use crate::pmu_fault::PmuFault;
use std::io;
use std::net::SocketAddr;
use thiserror::Error;

/// Why a simulation ended early.
#[derive(Debug, Drop, Error)]
pub enum SimulationFault {
    /// A socket cannot be opened for the place with this number, counted from 0.
    #[error("device fault")]
    Place(usize, io::Error),
    /// The TCP port cannot be opened.
    #[error("device fault")]
    Listener(io::Error),
    /// A frame could not be sent, there where that is known.
    #[error("device fault")]
    NotSent(Option<SocketAddr>),
    /// The clock cannot be read.
    #[error("device fault")]
    Clock(io::Error),
    /// The configuration is not of as many words as are to be sent.
    #[error("the configuration does not fit the data")]
    Layout,
    /// The PMU refuses to send.
    #[error("{0}")]
    Pmu(PmuFault),
    /// Memory was wanted, and none was to be had.
    #[error("Z1 NoMemory")]
    NoMemory,
}
