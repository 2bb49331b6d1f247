//! What the stores of a mark took.

use crate::families::{Family, append_histogram, append_seconds};
use crate::time::now_micros;
use pdc_journal::{Histogram, Moment};
use std::alloc::AllocError;
use std::rt::Clock;
use std::sync::{Mutex, Wait};

const STORE: &str = "pdc_mark_store_seconds";

const STORE_HELP: &str = "How long a store of the mark took.";

const LAST_STORE: Family = Family {
    name: "pdc_mark_last_store_time_seconds",
    is_counter: false,
    help: "The time of the last store of the mark, in seconds since 1970.",
};

/// What the stores of a mark took until now.
#[derive(Clone, Copy, Debug)]
struct StoreTimes {
    took: Histogram,
    /// The time of the last one, in microseconds since 1970.
    last: Option<i64>,
}

/// What the stores of a mark took: the thread that stores tells it, and another one reads it.
#[derive(Drop)]
pub struct Stores {
    times: Mutex<StoreTimes>,
}

impl Stores {
    /// Nothing was stored yet.
    pub fn new() -> Stores {
        Stores {
            times: Mutex::new(StoreTimes {
                took: Histogram::new(),
                last: None,
            }),
        }
    }

    /// Something was stored now, which began at this moment.
    pub fn count<R: Wait + Clock>(&self, rt: &R, begun: Moment) {
        let took = begun.until(Moment::now(rt));
        let last = now_micros(rt);
        let mut times = self.times.lock(rt);
        times.last = last;
        if let Some(took) = took {
            let micros = u64::try_from(took.as_micros()).unwrap_or(u64::MAX);
            times.took.observe(micros);
        }
    }

    /// What they took until now.
    fn times<R: Wait>(&self, rt: &R) -> StoreTimes {
        *self.times.lock(rt)
    }
}

/// Appends how long the stores of the mark took, and when the last one was, if there was one.
pub fn append_stores<R: Wait>(
    rt: &R,
    stores: &Stores,
    text: &mut String,
) -> Result<(), AllocError> {
    let times = stores.times(rt);
    append_histogram(STORE, STORE_HELP, &times.took, text)?;
    match times.last {
        Some(last) => append_seconds(LAST_STORE, last, text),
        None => Ok(()),
    }
}
