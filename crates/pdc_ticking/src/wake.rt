//! A call that one thread waits for and others make.

use std::rt::Clock;
use std::sync::{Condvar, Mutex, Wait};
use std::time::Duration;

/// A call that one thread waits for, and others make. It stays until it is found; several that were not found are one.
#[derive(Drop)]
pub struct Wake {
    is_called: Mutex<bool>,
    called: Condvar,
}

impl Wake {
    /// Nobody called yet.
    pub fn new() -> Wake {
        Wake {
            is_called: Mutex::new(false),
            called: Condvar::new(),
        }
    }

    /// Calls: who waits goes on, and who does not yet finds it at its next wait.
    pub fn call<R: Wait>(&self, rt: &R) {
        *self.is_called.lock(rt) = true;
        self.called.notify_one();
    }

    /// Nobody called, whoever did: what they called for has been done.
    pub fn forget<R: Wait>(&self, rt: &R) {
        *self.is_called.lock(rt) = false;
    }

    /// Waits until somebody calls or has called since the last wait, and at most so long; whether somebody did.
    pub fn wait_called<R: Wait + Clock>(&self, rt: &R, most: Duration) -> bool {
        let held = self.is_called.lock(rt);
        let (mut held, _) = self
            .called
            .wait_timeout_while(rt, held, most, |is_called| !*is_called);
        let was_called = *held;
        *held = false;
        was_called
    }
}
