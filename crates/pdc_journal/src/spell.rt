//! How long something lasts.
ghost use Rattle.std.specs.Prelude.{◌≡◌};
ghost use Rattle.pdc_journal.specs.Spell.{begun_at, is_due, looked_at, was_told};

use crate::moment::Moment;

/// How long it lasts until it is told, in seconds.
pub const LONG: u64 = 5;

/// Something that lasts, as a silence, and is told once when it has for five seconds.
#[derive(Clone, Copy, Debug)]
pub struct Spell {
    since: Moment,
    is_told: bool,
}

impl Spell {
    /// It begins at this moment. Where that is unknown it is never told.
    pub fn begun(since: Moment) -> Spell
        ensures { result ≡ begun_at since }
    {
        Spell {
            since,
            is_told: false,
        }
    }

    /// Whether it is to be told now: it has lasted long enough, and was not told. It counts as told then.
    pub fn is_due(&mut self, now: Moment) -> bool
        ensures due { result ≡ is_due now self.old }
        ensures after { self.new ≡ looked_at now self.old }
    {
        let is_due = self.since.is_past(LONG, now) && !self.is_told;
        self.is_told = self.is_told || is_due;
        is_due
    }

    /// Whether it was told.
    pub fn is_told(&self) -> bool
        ensures { result ≡ was_told self.now }
    {
        self.is_told
    }
}
