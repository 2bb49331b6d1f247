//! Whether data of a PMU comes.
ghost use Rattle.std.specs.Prelude.{◌≡◌, None};
ghost use Rattle.pdc_journal.specs.Presence.{first_presence, is_missing, news_of, seen_after};

use crate::moment::Moment;
use crate::spell::Spell;

/// What there is to tell of a PMU.
#[derive(Clone, Copy, Debug, PartialEq, Eq)]
pub enum News {
    /// No data of it has come for five seconds.
    Missing,
    /// Data of it, which was missing, comes again.
    Back,
}

/// Whether data of a PMU comes, as the frames of a concentrator show.
#[derive(Clone, Copy, Debug)]
pub struct Presence {
    /// Since its data came last, or since it is looked for.
    absent: Option<Spell>,
}

impl Presence {
    /// It was not looked for yet.
    pub fn new() -> Presence
        ensures { result ≡ first_presence }
    {
        Presence { absent: None }
    }

    /// A frame has data of it, or has none; what there is to tell. That it is missing is told once, after five seconds without data, and so is
    /// that it is back.
    pub fn look(&mut self, is_present: bool, now: Moment) -> Option<News>
        ensures news { result ≡ news_of is_present now self.old }
        ensures after { self.new ≡ seen_after is_present now self.old }
    {
        let mut spell = match self.absent {
            Some(spell) => spell,
            None => Spell::begun(now),
        };
        if is_present {
            self.absent = Some(Spell::begun(now));
            return if spell.is_told() {
                Some(News::Back)
            } else {
                None
            };
        }
        let is_due = spell.is_due(now);
        self.absent = Some(spell);
        if is_due { Some(News::Missing) } else { None }
    }

    /// Whether it was told that it is missing, and not yet that it is back.
    pub fn is_missing(&self) -> bool
        ensures { result ≡ is_missing self.now }
    {
        match &self.absent {
            Some(spell) => spell.is_told(),
            None => false,
        }
    }
}
