//! The run of a simulated PMU.

use crate::fault::SimulationFault;
use crate::outlets::{Outlets, open_listener};
use crate::sending::simulate_into;
use crate::served::Served;
use crate::simulated::Simulated;
use std::alloc::Global;
use std::net::{Net, TcpListener, TcpStream};
use std::rt::Clock;

/// The TCP port at which it is served, where there is one.
fn open_served<R: Net<Listener = TcpListener, Stream = TcpStream>>(
    rt: &R,
    alloc: Global,
    simulated: &Simulated<'_>,
) -> Result<Option<Served>, SimulationFault> {
    match &simulated.tcp {
        Some(place) => match open_listener(rt, place) {
            Ok(listener) => Ok(Some(Served::new(alloc, simulated.id, listener))),
            Err(error) => Err(SimulationFault::Listener(error)),
        },
        None => Ok(None),
    }
}

/// Sends one configuration to each place, and then so many data frames, as [`simulate_into`] does. A consumer that connects is answered, and
/// gets each data frame while it wants data.
///
/// # Errors
///
/// A place that cannot be opened or sent to, a clock that cannot be read, and want of memory.
pub fn simulate<R: Net<Listener = TcpListener, Stream = TcpStream> + Clock>(
    rt: &R,
    alloc: Global,
    simulated: &Simulated<'_>,
) -> Result<(), SimulationFault> {
    let mut outlets = Outlets::open(rt, alloc, simulated.places)?;
    let mut served = open_served(rt, alloc, simulated)?;
    match simulate_into(rt, alloc, simulated, &mut served, &mut outlets) {
        Err(SimulationFault::NotSent(_)) => Err(SimulationFault::NotSent(outlets.unsent)),
        ended => ended,
    }
}
