//! What was now at the last tick.
ghost use Rattle.std.specs.Prelude.{◌≡◌, nat_le};

use std::rt::Clock;
use std::sync::atomic::{AtomicU64, Ordering};
use std::sync::{Condvar, Mutex, Wait};
use std::time::Duration;

/// Whether an instant is now at a tick of this now, or was before.
pub fn is_reached(instant: u64, now: u64) -> bool
    ensures { result ≡ nat_le instant now }
{
    instant <= now
}

/// The instant that was now at the last tick, for those who wait for a later one.
#[derive(Drop)]
pub struct LastTick {
    now: Mutex<u64>,
    /// The same, for a look without the lock.
    seen: AtomicU64,
    ticked: Condvar,
}

impl LastTick {
    /// There was no tick yet: 0 was now.
    pub fn new() -> LastTick {
        LastTick {
            now: Mutex::new(0),
            seen: AtomicU64::new(0),
            ticked: Condvar::new(),
        }
    }

    /// This instant is now. Who waits for it goes on.
    pub fn note<R: Wait>(&self, rt: &R, now: u64) {
        *self.now.lock(rt) = now;
        self.seen.store(now, Ordering::Relaxed);
        self.ticked.notify_all();
    }

    /// There will be no other tick. Nobody waits any more.
    pub fn end<R: Wait>(&self, rt: &R) {
        self.note(rt, u64::MAX);
    }

    /// What was now at the last tick.
    pub fn seen(&self) -> u64 {
        self.seen.load(Ordering::Relaxed)
    }

    /// Waits until a tick comes at which this instant is now or was, and at most so long.
    pub fn wait_for<R: Wait + Clock>(&self, rt: &R, instant: u64, most: Duration) {
        let held = self.now.lock(rt);
        let _woken = self
            .ticked
            .wait_timeout_while(rt, held, most, |now| !is_reached(instant, *now));
    }
}
