//! A circle of places, on which a place is found without a division.
ghost use Rattle.std.specs.Prelude.{◌≡◌, ◌+◌, ◌-◌, ◌%◌, ◌<◌, ◌≤◌};

/// A circle of places, each instant at its remainder by the window, with one instant whose place is known. The place of an instant
/// that is less than a window away is found from it by a sum, where a division takes some forty steps of a processor.
#[derive(Clone, Copy)]
pub struct Circle {
    /// How many places there are.
    pub window: u64,
    /// The instant whose place is known.
    pub instant: u64,
    /// Its place.
    pub place: usize,
    pub ghost least: { 0 < window },
    pub ghost known: { place ≡ instant % window },
}

impl Circle {
    /// The place of an instant: its remainder by the window.
    #[inline]
    pub fn place_of(&self, instant: u64) -> usize
        ensures value { result ≡ instant % self.now.window }
        ensures bound { result < self.now.window }
    {
        // The next instant is often the same.
        if self.instant == instant {
            return self.place;
        }
        let place = self.place as u64;
        if self.instant <= instant {
            place_after(self.window, place, instant - self.instant, instant) as usize
        } else {
            place_before(self.window, place, self.instant - instant, instant) as usize
        }
    }
}

/// The place of an instant that is so much after the one that has this place.
#[inline]
fn place_after(window: u64, place: u64, after: u64, instant: u64) -> u64
    requires least { 0 < window }
    requires after { after ≤ instant }
    requires place { place ≡ (instant - after) % window }
    ensures value { result ≡ instant % window }
    ensures bound { result < window }
{
    let left = window - place;
    if after < left {
        place + after
    } else if after - left < window {
        after - left
    } else {
        instant % window
    }
}

/// The place of an instant that is so much before the one that has this place.
#[inline]
fn place_before(window: u64, place: u64, before: u64, instant: u64) -> u64
    requires least { 0 < window }
    requires place { place ≡ (instant + before) % window }
    ensures value { result ≡ instant % window }
    ensures bound { result < window }
{
    if before <= place {
        place - before
    } else if before - place <= window {
        window - (before - place)
    } else {
        instant % window
    }
}
