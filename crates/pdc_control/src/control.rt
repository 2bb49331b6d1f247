//! What a run and those who ask say to each other.

use crate::request::Form;
use std::alloc::AllocError;
use std::rt::Clock;
use std::sync::atomic::{AtomicBool, Ordering};
use std::sync::{Mutex, Wait};
use std::thread;
use std::time::Duration;

/// From one look for an answer to the next, in milliseconds.
const PAUSE: u64 = 5;

/// How many such looks there are: a tick comes each second at least.
const LOOKS: u64 = 600;

/// Whether a run is to stop, and what it is asked and answers meanwhile. A run that nobody asks looks at two flags at each tick.
#[derive(Drop)]
pub struct Control {
    is_stopped: AtomicBool,
    has_ended: AtomicBool,
    /// Whether somebody waits for how the run stands, and in which form.
    is_asked: AtomicBool,
    is_json: AtomicBool,
    answer: Mutex<Option<String>>,
}

impl Control {
    /// Nobody asked anything yet.
    pub fn new() -> Control {
        Control {
            is_stopped: AtomicBool::new(false),
            has_ended: AtomicBool::new(false),
            is_asked: AtomicBool::new(false),
            is_json: AtomicBool::new(false),
            answer: Mutex::new(None),
        }
    }

    /// The run is to end as after its last tick.
    pub fn stop(&self) {
        self.is_stopped.store(true, Ordering::SeqCst);
    }

    /// Whether the run is to end.
    pub fn is_stopped(&self) -> bool {
        self.is_stopped.load(Ordering::SeqCst)
    }

    /// The run has ended. Nobody is answered any more.
    pub fn end(&self) {
        self.has_ended.store(true, Ordering::SeqCst);
    }

    /// Whether the run has ended.
    pub fn has_ended(&self) -> bool {
        self.has_ended.load(Ordering::SeqCst)
    }

    /// In which form somebody waits for how the run stands, if anybody does.
    pub fn wanted(&self) -> Option<Form> {
        if !self.is_asked.load(Ordering::SeqCst) {
            None
        } else if self.is_json.load(Ordering::SeqCst) {
            Some(Form::Json)
        } else {
            Some(Form::Lines)
        }
    }

    /// Gives how the run stands to who waits for it. Where it is lacking for want of memory, who waits gets none.
    pub fn give<R: Wait>(&self, rt: &R, text: Result<String, AllocError>) {
        *self.answer.lock(rt) = text.ok();
        self.is_asked.store(false, Ordering::SeqCst);
    }

    /// How the run stands after its next tick, which is waited for; three seconds at most. None where there was no tick, or no memory.
    pub fn status<R: Wait + Clock>(&self, rt: &R, form: Form) -> Option<String> {
        *self.answer.lock(rt) = None;
        self.is_json.store(form == Form::Json, Ordering::SeqCst);
        self.is_asked.store(true, Ordering::SeqCst);
        for _ in 0..LOOKS {
            thread::sleep(rt, Duration::from_millis(PAUSE));
            if self.has_ended() || self.wanted().is_none() {
                return self.answer.lock(rt).take();
            }
        }
        self.is_asked.store(false, Ordering::SeqCst);
        None
    }
}
