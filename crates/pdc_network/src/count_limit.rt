//! Configurations that are left out, since their count is above what the settings allow.
ghost use Rattle.std.specs.Prelude.{◌≡◌, map, true};
ghost use Rattle.pdc_cfg.specs.Section.{fields_of_view};
ghost use Rattle.pdc_network.specs.CountLimit.{IsAbove, has_above};

use pdc_cfg::{ConfigView, SectionView, read_config};
use pdc_frame::{Kind, read_frame};
use pdc_journal::{Complaints, Journal, Moment, Tally, is_data};
use std::alloc::Global;
use std::rt::Clock;
use std::sync::Wait;

/// Whether some section has a count above this one.
fn has_above(sections: &[SectionView<'_>], most: u16) -> bool
    ensures { result ≡ has_above most (map fields_of_view sections.now) }
{
    match sections.split_first() {
        Some((section, others)) => section.count > most || has_above(others, most),
        None => false,
    }
}

/// Whether these bytes are a CFG-2 frame of which some section has a count above this one. Data is not read for it.
fn is_above(bytes: &[u8], most: u16) -> bool
    ensures above { result ≡ true → IsAbove most bytes.now }
    ensures below { IsAbove most bytes.now → result ≡ true }
{
    if is_data(bytes) {
        return false;
    }
    let Ok(frame) = read_frame(bytes) else {
        return false;
    };
    if frame.kind != Kind::Cfg2 {
        return false;
    }
    match read_config(&frame) {
        Ok(config) => has_above(config.sections.as_slice(), most),
        Err(_) => false,
    }
}

/// Above which configuration count the configurations of a stream are left out: they are counted, and told once a minute at most.
#[derive(Drop)]
pub struct CountLimit<'a, R: Wait + Clock> {
    rt: &'a R,
    alloc: Global,
    journal: &'a Journal,
    tally: &'a Tally,
    most: u16,
    complaints: Complaints,
}

impl<'a, R: Wait + Clock> CountLimit<'a, R> {
    ghost use Rattle.pdc_network.specs.Limit.{count_of};

    /// Above this count.
    pub fn new(
        rt: &'a R,
        alloc: Global,
        journal: &'a Journal,
        tally: &'a Tally,
        most: u16,
    ) -> CountLimit<'a, R>
        ensures { count_of result ≡ most }
    {
        CountLimit {
            rt,
            alloc,
            journal,
            tally,
            most,
            complaints: Complaints::new(),
        }
    }

    /// Tells that a configuration was left out.
    fn tell(&self) {
        let (of, most) = (self.tally.of, self.most);
        self.journal.tell(
            self.rt,
            format!(in self.alloc;
                "{of}: a configuration is left out, since its count is above most_count = {most}"
            ),
        );
    }

    /// Whether these bytes are left out: only a CFG-2 frame with a count above the most is.
    pub fn leaves_out(&mut self, bytes: &[u8]) -> bool
        ensures above { result ≡ true → IsAbove (count_of self.old) bytes.now }
        ensures below { IsAbove (count_of self.old) bytes.now → result ≡ true }
        ensures same { count_of self.new ≡ count_of self.old }
    {
        if !is_above(bytes, self.most) {
            return false;
        }
        self.tally.leave_out();
        if self.complaints.is_due(Moment::now(self.rt)) {
            self.tell();
        }
        true
    }
}
