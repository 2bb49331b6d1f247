//! What answers are told as.

use crate::trial::{DONE, NO_MEMORY};
use pdc_session::{ClientFault, SessionFault};
use pdc_simulation::PmuFault;

/// The answer of a session.
pub fn of_session(answer: Result<(), SessionFault>) -> &'static str {
    match answer {
        Ok(()) => DONE,
        Err(SessionFault::BadStream) => "Y1 BadStream",
        Err(SessionFault::NoMemory) => NO_MEMORY,
    }
}

/// The fault of a client.
pub fn of_client(fault: ClientFault) -> &'static str {
    match fault {
        ClientFault::BadStream => "Y1 BadStream",
        ClientFault::NoAnswer => "Y2 NoAnswer",
        ClientFault::Device => "Y3 Device",
        ClientFault::NoMemory => NO_MEMORY,
    }
}

/// The answer of a PMU.
pub fn of_pmu(answer: Result<(), PmuFault>) -> &'static str {
    match answer {
        Ok(()) => DONE,
        Err(PmuFault::NotLater) => "U1 NotLater",
        Err(PmuFault::CountsUsedUp) => "U2 CountsUsedUp",
        Err(PmuFault::AlreadySent) => "U3 AlreadySent",
        Err(PmuFault::NoMemory) => NO_MEMORY,
    }
}
