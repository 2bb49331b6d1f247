//! How far delays are spread.

use pdc_life::MAX_WAIT;
use std::alloc::{AllocError, Global};

/// How many nanoseconds are told apart: a tenth of a millisecond.
pub const STEP: u64 = 100_000;

/// The longest delay that is told apart, in steps: ten seconds. It is also how long before its instant data may come and be told apart.
pub const STEPS: u64 = 100_000;

/// Delays in tenths of a millisecond are counted up from this number, which stands for none: below it are those of clocks that run ahead.
pub const NO_DELAY: u64 = STEPS;

/// The delays of one stream.
#[derive(Drop)]
pub struct Spread {
    /// How many delays there were of each length from ten seconds before on, the last of them all that are longer.
    delays: Vec<u64>,
    /// How many were kept by each wait and no shorter one, the last of them those that no wait keeps.
    waits: Vec<u64>,
    /// How many there were.
    pub count: u64,
    /// The longest one, in tenths of a millisecond from [`NO_DELAY`] on.
    pub greatest: u64,
}

/// So many zeros.
pub fn zeros(alloc: Global, count: u64) -> Result<Vec<u64>, AllocError> {
    let mut numbers = Vec::new(alloc);
    for _ in 0..count {
        numbers.push(0)?;
    }
    Ok(numbers)
}

/// Counts one more at this place.
pub fn count_at(numbers: &mut Vec<u64>, place: u64) {
    if let Some(number) = numbers.as_mut_slice().get_mut(place as usize) {
        *number = number.saturating_add(1);
    }
}

/// Counts one less at this place.
pub fn uncount_at(numbers: &mut Vec<u64>, place: u64) {
    if let Some(number) = numbers.as_mut_slice().get_mut(place as usize) {
        *number = number.saturating_sub(1);
    }
}

/// The first place up to which so many are counted.
pub fn place_of(numbers: &[u64], wanted: u64) -> u64 {
    let mut sum: u64 = 0;
    let mut place: u64 = 0;
    for number in numbers {
        sum = sum.saturating_add(*number);
        if sum >= wanted {
            return place;
        }
        place = place.saturating_add(1);
    }
    place
}

impl Spread {
    /// No delay yet.
    ///
    /// # Errors
    ///
    /// [`AllocError`] where there is no memory.
    pub fn new(alloc: Global) -> Result<Spread, AllocError> {
        Ok(Spread {
            delays: zeros(alloc, 2 * STEPS + 1)?,
            waits: zeros(alloc, MAX_WAIT + 2)?,
            count: 0,
            greatest: 0,
        })
    }

    /// One more: when it came and when its instant was, in nanoseconds since 1970, and the wait that keeps it.
    pub fn add(&mut self, came: u64, instant: u64, wait: u64) {
        let delay = came.saturating_add(STEPS * STEP).saturating_sub(instant) / STEP;
        count_at(&mut self.delays, delay.min(2 * STEPS));
        count_at(&mut self.waits, wait.min(MAX_WAIT + 1));
        self.count = self.count.saturating_add(1);
        self.greatest = self.greatest.max(delay);
    }

    /// The delay that so many in a thousand are not above, in tenths of a millisecond from [`NO_DELAY`] on.
    pub fn tenths(&self, thousandths: u64) -> u64 {
        place_of(&self.delays, share(self.count, thousandths))
    }

    /// The wait that keeps all but one in a thousand; none where no wait does.
    pub fn wait(&self) -> Option<u64> {
        let wait = place_of(&self.waits, share(self.count, 999));
        if wait <= MAX_WAIT { Some(wait) } else { None }
    }
}

/// So many in a thousand of a count, rounded up.
pub fn share(count: u64, thousandths: u64) -> u64 {
    let (whole, part) = (count / 1000, count % 1000);
    whole.saturating_mul(thousandths).saturating_add(
        part.saturating_mul(thousandths).saturating_add(999) / 1000,
    )
}
