//! Serving the counters.

use crate::http_serving::serve_many;
use crate::metered::Metered;
use crate::own_files::OwnFiles;
use crate::own_host::loopback_port;
use crate::site::Site;
use std::alloc::Global;
use std::hash::RandomState;
use std::io;
use std::net::TcpListener;
use std::random::RandomSource;
use std::rt::Clock;
use std::sync::Wait;
use std::sync::atomic::AtomicBool;
use std::time::Instant;

/// Serves the counters at `/metrics` to all who connect, until all is to end. The listener's `accept` is one that does not wait.
///
/// # Errors
///
/// The clock, the system's random bytes or the listener's address cannot be read.
pub fn serve_metrics<R: Wait + Clock + RandomSource + OwnFiles>(
    rt: &R,
    alloc: Global,
    listener: &TcpListener,
    metered: Metered<'_>,
    ending: &AtomicBool,
) -> io::Result<()> {
    let keys = RandomState::new(rt)?;
    let mut site = Site {
        rt,
        alloc,
        metered,
        begun: Instant::now(rt)?,
        own_port: loopback_port(listener)?,
    };
    serve_many(rt, alloc, keys, &mut site, listener, ending)
}
