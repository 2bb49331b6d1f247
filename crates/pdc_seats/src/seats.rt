//! The places of the sessions.

use crate::silence::gives_way;
use std::rt::Clock;
use std::sync::{Mutex, Wait};
use std::time::{Duration, Instant};

/// The most places.
const MOST_SEATS: usize = 64;

/// How long a consumer has been silent at least that gives way, in milliseconds.
const GIVES_WAY: u64 = 10_000;

/// How long it is not told again that all places are taken, in seconds.
const PAUSE: u64 = 60;

/// What is known of the places.
#[derive(Drop)]
struct Taken {
    /// Of each place that is taken, since when its consumer has been silent.
    since: [Option<Instant>; MOST_SEATS],
    /// When it was told last that all are taken.
    told: Option<Instant>,
}

/// The places of the sessions: of each that is taken, since when its consumer has neither sent nor got anything.
#[derive(Drop)]
pub struct Seats {
    most: usize,
    taken: Mutex<Taken>,
}

/// For how many milliseconds it has been silent; 0 where the clock cannot be read.
fn millis_since<R: Clock>(rt: &R, since: Option<Instant>) -> Option<u64> {
    let Some(since) = since else {
        return None;
    };
    let gone = match since.elapsed(rt) {
        Ok(gone) => gone,
        Err(_) => Duration::ZERO,
    };
    Some(u64::try_from(gone.as_millis()).unwrap_or(u64::MAX))
}

/// How many places are taken.
fn count_taken(since: &[Option<Instant>]) -> usize {
    let mut count: usize = 0;
    for one in since {
        if one.is_some() {
            count = count.saturating_add(1);
        }
    }
    count
}

/// The first place that is free.
fn first_free(since: &[Option<Instant>]) -> Option<usize> {
    for (number, one) in since.iter().enumerate() {
        if one.is_none() {
            return Some(number);
        }
    }
    None
}

/// Whether the consumer at this place gives way, by since when each is silent.
fn gives_way_in<R: Clock>(rt: &R, since: &[Option<Instant>], most: usize, number: usize) -> bool {
    if count_taken(since) < most {
        return false;
    }
    let mut silences = [None; MOST_SEATS];
    for (place, one) in silences.iter_mut().zip(since.iter()) {
        *place = millis_since(rt, *one);
    }
    gives_way(number, GIVES_WAY, &silences)
}

impl Seats {
    /// So many places, 64 at most, all of them free.
    pub fn new(most: u8) -> Seats {
        Seats {
            most: usize::from(most),
            taken: Mutex::new(Taken {
                since: [None; MOST_SEATS],
                told: None,
            }),
        }
    }

    /// Takes the first free place for a consumer that has just come, and answers its number; none where there is none.
    pub fn take<R: Wait + Clock>(&self, rt: &R) -> Option<usize> {
        let now = Instant::now(rt).ok();
        let mut taken = self.taken.lock(rt);
        let number = first_free(&taken.since)?;
        if let Some(place) = taken.since.get_mut(number) {
            *place = now;
        }
        Some(number)
    }

    /// Whether all places are taken, and that was not told for a minute. It counts as told then.
    pub fn is_full<R: Wait + Clock>(&self, rt: &R) -> bool {
        let mut taken = self.taken.lock(rt);
        if count_taken(&taken.since) < self.most {
            return false;
        }
        let is_told = match millis_since(rt, taken.told) {
            Some(gone) => gone < PAUSE * 1000,
            None => false,
        };
        if !is_told {
            taken.told = Instant::now(rt).ok();
        }
        !is_told
    }

    /// The consumer at this place sent or got something.
    pub fn hear<R: Wait + Clock>(&self, rt: &R, number: usize) {
        let now = Instant::now(rt).ok();
        let mut taken = self.taken.lock(rt);
        if let Some(place) = taken.since.get_mut(number) {
            *place = now;
        }
    }

    /// The consumer at this place has gone.
    pub fn leave<R: Wait>(&self, rt: &R, number: usize) {
        let mut taken = self.taken.lock(rt);
        if let Some(place) = taken.since.get_mut(number) {
            *place = None;
        }
    }

    /// Whether the consumer at this place gives way to one who comes: all places are taken, and it has been silent longest, for ten seconds at
    /// least.
    pub fn gives_way<R: Wait + Clock>(&self, rt: &R, number: usize) -> bool {
        let taken = self.taken.lock(rt);
        gives_way_in(rt, &taken.since, self.most, number)
    }
}
