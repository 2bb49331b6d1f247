//! How late a concentrator published, by its own counters.
ghost use Rattle.std.specs.Prelude.{◌≡◌, ◌*◌, ◌≤◌, nat_lt};
ghost use Rattle.pdc_watch.specs.Within.{place_of_bound};

use std::array;

/// How many places a counter of lengths of time has: one for each bound, and one for all.
pub const PLACES: usize = 11;

/// The bounds as the counters name them.
const BOUNDS: [&str; PLACES] = [
    "0.001000", "0.002000", "0.005000", "0.010000", "0.020000", "0.050000", "0.100000", "0.200000",
    "0.500000", "1.000000", "+Inf",
];

/// The bounds in milliseconds; what lies above all of them is told as 65535.
const BOUNDS_MS: [u16; PLACES] = [1, 2, 5, 10, 20, 50, 100, 200, 500, 1000, u16::MAX];

/// How many lengths of time lie within each bound, and at the last place how many there were.
pub type Within = [u64; PLACES];

/// How late frames were published: behind their instants, and behind the last data that was taken for them.
#[derive(Clone, Copy)]
pub struct Lateness {
    pub behind_instant: Within,
    pub behind_data: Within,
}

/// Whether these are fewer than so many of a hundred of all.
fn is_fewer(count: u64, all: u64, share: u8) -> bool
    ensures { result ≡ nat_lt (count * 100) (all * share) }
{
    u128::from(count) * 100 < u128::from(all) * u128::from(share)
}

/// The first place up to whose bound so many of a hundred of all lie, of rising bounds.
pub fn place_of_bound(within: &[u64], all: u64, share: u8) -> usize
    ensures { result ≡ place_of_bound share all within.now }
{
    within
        .iter()
        .take_while(|count| is_fewer(**count, all, share))
        .count()
}

/// Within how many milliseconds so many of a hundred lie; none where there were none.
pub fn bound_ms(within: &Within, share: u8) -> Option<u16> {
    let all = within[PLACES - 1];
    if all == 0 {
        return None;
    }
    BOUNDS_MS
        .get(place_of_bound(within.as_slice(), all, share))
        .copied()
}

/// What was counted since then.
fn since(now: &Within, then: &Within) -> Within {
    array::from_fn(|place| now[place].saturating_sub(then[place]))
}

/// The count that a line tells of this bound of this family.
fn count_of(line: &str, family: &str, bound: &str) -> Option<u64> {
    let rest = line.strip_prefix(family)?.strip_prefix("_bucket{le=\"")?;
    let digits = rest.strip_prefix(bound)?.strip_prefix("\"} ")?;
    digits.parse::<u64>().ok()
}

/// The counts of a family in the text of `/metrics`, if all are there.
fn within_in(text: &str, family: &str) -> Option<Within> {
    let mut within = [0u64; PLACES];
    let mut place = 0usize;
    for line in text.lines() {
        if let Some(bound) = BOUNDS.get(place).copied()
            && let Some(count) = count_of(line, family, bound)
        {
            within[place] = count;
            place += 1;
        }
    }
    if place == PLACES { Some(within) } else { None }
}

impl Lateness {
    /// What a concentrator counts, by the text of its `/metrics`; none where the text does not tell it.
    pub fn of_text(text: &str) -> Option<Lateness> {
        Some(Lateness {
            behind_instant: within_in(text, "pdc_publish_latency_seconds")?,
            behind_data: within_in(text, "pdc_publish_after_arrival_seconds")?,
        })
    }

    /// What was counted since then.
    pub fn since(&self, then: &Lateness) -> Lateness {
        Lateness {
            behind_instant: since(&self.behind_instant, &then.behind_instant),
            behind_data: since(&self.behind_data, &then.behind_data),
        }
    }

    /// Whether it may have been counted after that by the same run: no count of all lengths is lower.
    pub fn goes_on(&self, then: &Lateness) -> bool {
        self.behind_instant[PLACES - 1] >= then.behind_instant[PLACES - 1]
            && self.behind_data[PLACES - 1] >= then.behind_data[PLACES - 1]
    }
}
