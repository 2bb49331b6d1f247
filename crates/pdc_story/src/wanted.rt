//! The instants that are asked for.

ghost use Rattle.std.specs.Prelude.{◌<◌, ◌≤◌};
ghost use Rattle.pdc_story.specs.declared.moments.TheConstants.{MAX_RATE};

use crate::moments::instant_near;
use jiff::Timestamp;

/// Which instants are asked for.
#[derive(Clone, Copy, Debug, PartialEq, Eq)]
pub enum Selection {
    /// All of them.
    All,
    /// The one with this number.
    Number(u64),
    /// The one nearest to this time, in nanoseconds since 1970.
    Time(u64),
}

impl Selection {
    /// The number of the only instant that is asked for, at a rate of 1 to 240.
    pub fn instant(self, rate: u64) -> Option<u64>
        requires low { 0 < rate }
        requires high { rate ≤ MAX_RATE }
    {
        match self {
            Selection::All => None,
            Selection::Number(instant) => Some(instant),
            Selection::Time(time) => Some(instant_near(time, rate)),
        }
    }
}

/// The instant that a text names: by its number, or by its time, as `2026-11-24T12:03:04.580Z`.
pub fn wanted_of(text: &str) -> Option<Selection> {
    if let Ok(instant) = text.parse::<u64>() {
        return Some(Selection::Number(instant));
    }
    let time: Timestamp = text.parse().ok()?;
    let nanos = u64::try_from(time.as_nanosecond()).ok()?;
    Some(Selection::Time(nanos))
}
